//! Replies in three equal copies.
ghost use Rattle.std.specs.Prelude.{◌≡◌, None};
ghost use Rattle.jc_model.specs.Step.{reply_by};

use jc_model::call::{By, Reply};
use jc_model::owners::Owners;
use jc_model::table::Replied;
use jc_model::value::Value;

/// The reply that all went well.
pub fn done() -> Owners<Reply>
    ensures { result ≡ Reply.Done }
{
    Owners::new(Reply::Done, Reply::Done, Reply::Done)
}

/// A yes or a no.
pub fn truth(answer: bool) -> Owners<Reply>
    ensures { result ≡ Reply.Truth answer }
{
    Owners::new(
        Reply::Truth(answer),
        Reply::Truth(answer),
        Reply::Truth(answer),
    )
}

/// The value that a key has, if any.
pub fn found(value: Option<Owners<Value>>) -> Owners<Reply>
    ensures { result ≡ Reply.Found value }
{
    match value {
        None => Owners::new(Reply::Found(None), Reply::Found(None), Reply::Found(None)),
        Some(value) => value.map(Some).map(Reply::Found),
    }
}

/// A hook's fault; of a call on many keys with the number of keys that were done before.
pub fn fault(by: By, done: Option<u32>) -> Owners<Reply>
    ensures { result ≡ Reply.Fault by done }
{
    Owners::new(
        Reply::Fault { by, done },
        Reply::Fault { by, done },
        Reply::Fault { by, done },
    )
}

/// The reply of a line, where `shown` is the value to be shown.
pub(crate) fn reply_of(replied: Replied, shown: Option<Owners<Value>>) -> Owners<Reply>
    ensures { result ≡ reply_by replied shown }
{
    match replied {
        Replied::Shown => found(shown),
        Replied::Done => done(),
        Replied::Truth(answer) => truth(answer),
    }
}
