//! An equal second value: shared bytes get a further owner, lists are made anew.
ghost use Rattle.std.specs.Prelude.{◌≡◌, IfOk};
ghost use Rattle.jc_model.specs.declared.call.Call.TheVariants.{ReplaceIf, RemoveIf, Invoke, InvokeAll, LoadAll};

use crate::OutOfMemory;
use crate::call::{Action, Answer, By, Call, Kind, Notice, ProcessorFault, Reply, Verdict};
use crate::config::CacheConfig;
use crate::event::{CacheId, End, Entry, Life};
use crate::key::Key;
use crate::keys::{Keys, Pairs};
use crate::list::Sequence;
use crate::value::Value;
use std::alloc::Global;

/// Copying that may find no memory. Shared bytes are not copied: they get an owner more, which may be refused too.
pub trait Share: Sized {
    /// An equal second value.
    fn share(&self) -> Result<Self, OutOfMemory>
        ensures { IfOk result (λ s. s ≡ self.now) };
}

/// Equal second values.
pub fn share_all<T: Share + Drop>(alloc: Global, items: &[T]) -> Result<Vec<T>, OutOfMemory>
    ensures { IfOk result (λ copy. copy.items ≡ items.now) }
{
    let mut copy = Vec::new(alloc);
    for x in items {
        copy.push(x.share()?)?;
    }
    Ok(copy)
}

impl Share for bool {
    fn share(&self) -> Result<bool, OutOfMemory> {
        Ok(*self)
    }
}

impl Share for Key {
    fn share(&self) -> Result<Key, OutOfMemory> {
        Ok(*self)
    }
}

impl Share for CacheId {
    fn share(&self) -> Result<CacheId, OutOfMemory> {
        Ok(*self)
    }
}

impl Share for Value {
    fn share(&self) -> Result<Value, OutOfMemory> {
        Value::share(self)
    }
}

impl<T: Share> Share for Option<T> {
    fn share(&self) -> Result<Option<T>, OutOfMemory> {
        match self {
            Some(x) => Ok(Some(x.share()?)),
            None => Ok(None),
        }
    }
}

impl<A: Share, B: Share> Share for Result<A, B> {
    fn share(&self) -> Result<Result<A, B>, OutOfMemory> {
        match self {
            Ok(x) => Ok(Ok(x.share()?)),
            Err(e) => Ok(Err(e.share()?)),
        }
    }
}

impl<A: Share + Drop, B: Share> Share for (A, B) {
    fn share(&self) -> Result<(A, B), OutOfMemory> {
        let first = self.0.share()?;
        let second = self.1.share()?;
        Ok((first, second))
    }
}

impl<T: Share + Drop> Share for Sequence<T> {
    fn share(&self) -> Result<Sequence<T>, OutOfMemory> {
        let items = share_all(*self.empty().allocator(), self.items())?;
        Ok(Sequence::new(items))
    }
}

impl Share for Keys {
    fn share(&self) -> Result<Keys, OutOfMemory> {
        Keys::share(self)
    }
}

impl Share for Pairs {
    fn share(&self) -> Result<Pairs, OutOfMemory> {
        Pairs::share(self)
    }
}

impl Share for ProcessorFault {
    fn share(&self) -> Result<ProcessorFault, OutOfMemory> {
        Ok(ProcessorFault {})
    }
}

impl Share for By {
    fn share(&self) -> Result<By, OutOfMemory> {
        Ok(match self {
            By::Loader => By::Loader,
            By::Writer => By::Writer,
            By::Processor => By::Processor,
        })
    }
}

impl Share for Kind {
    fn share(&self) -> Result<Kind, OutOfMemory> {
        Ok(match self {
            Kind::Created => Kind::Created,
            Kind::Updated => Kind::Updated,
            Kind::Removed => Kind::Removed,
            Kind::Expired => Kind::Expired,
        })
    }
}

impl Share for Reply {
    fn share(&self) -> Result<Reply, OutOfMemory> {
        match self {
            Reply::Done => Ok(Reply::Done),
            Reply::Truth(b) => Ok(Reply::Truth(*b)),
            Reply::Found(v) => Ok(Reply::Found(v.share()?)),
            Reply::Listed(pairs) => Ok(Reply::Listed(pairs.share()?)),
            Reply::Results(results) => Ok(Reply::Results(results.share()?)),
            Reply::Counted(counts) => Ok(Reply::Counted(*counts)),
            Reply::Fault { by, done } => Ok(Reply::Fault {
                by: by.share()?,
                done: *done,
            }),
        }
    }
}

impl Share for Notice {
    fn share(&self) -> Result<Notice, OutOfMemory> {
        let value = self.value.share()?;
        let before = self.before.share()?;
        Ok(Notice {
            kind: self.kind.share()?,
            key: self.key,
            value,
            before,
        })
    }
}

impl Share for Action {
    fn share(&self) -> Result<Action, OutOfMemory> {
        match self {
            Action::Keep => Ok(Action::Keep),
            Action::Set(v) => Ok(Action::Set(v.share()?)),
            Action::Remove => Ok(Action::Remove),
        }
    }
}

impl Share for Verdict {
    fn share(&self) -> Result<Verdict, OutOfMemory> {
        let action = self.action.share()?;
        let answer = self.answer.share()?;
        Ok(Verdict { action, answer })
    }
}

impl Share for Answer {
    fn share(&self) -> Result<Answer, OutOfMemory> {
        match self {
            Answer::Loaded(v) => Ok(Answer::Loaded(v.share()?)),
            Answer::LoadFailed => Ok(Answer::LoadFailed),
            Answer::Written => Ok(Answer::Written),
            Answer::WriteFailed => Ok(Answer::WriteFailed),
            Answer::Processed(verdict) => Ok(Answer::Processed(verdict.share()?)),
            Answer::Told => Ok(Answer::Told),
        }
    }
}

impl Share for Call {
    fn share(&self) -> Result<Call, OutOfMemory> {
        match self {
            Call::Get(key) => Ok(Call::Get(*key)),
            Call::GetAll(keys) => Ok(Call::GetAll(keys.share()?)),
            Call::Contains(key) => Ok(Call::Contains(*key)),
            Call::Put(key, value) => Ok(Call::Put(*key, value.share()?)),
            Call::GetAndPut(key, value) => Ok(Call::GetAndPut(*key, value.share()?)),
            Call::PutIfAbsent(key, value) => Ok(Call::PutIfAbsent(*key, value.share()?)),
            Call::Replace(key, value) => Ok(Call::Replace(*key, value.share()?)),
            Call::ReplaceIf {
                key,
                expected,
                value,
            } => share_replace_if(*key, expected, value),
            Call::GetAndReplace(key, value) => Ok(Call::GetAndReplace(*key, value.share()?)),
            Call::Remove(key) => Ok(Call::Remove(*key)),
            Call::RemoveIf { key, expected } => share_remove_if(*key, expected),
            Call::GetAndRemove(key) => Ok(Call::GetAndRemove(*key)),
            Call::Invoke {
                key,
                processor,
                argument,
            } => share_invoke(*key, *processor, argument),
            Call::InvokeAll {
                keys,
                processor,
                argument,
            } => share_invoke_all(keys, *processor, argument),
            Call::PutAll(pairs) => Ok(Call::PutAll(pairs.share()?)),
            Call::RemoveKeys(keys) => Ok(Call::RemoveKeys(keys.share()?)),
            Call::RemoveAll => Ok(Call::RemoveAll),
            Call::Clear => Ok(Call::Clear),
            Call::LoadAll { keys, replace } => share_load_all(keys, *replace),
            Call::Entries => Ok(Call::Entries),
            Call::Stats => Ok(Call::Stats),
            Call::ClearStats => Ok(Call::ClearStats),
        }
    }
}

fn share_replace_if(key: Key, expected: &Value, value: &Value) -> Result<Call, OutOfMemory>
    ensures { IfOk result (λ c. c ≡ ReplaceIf key expected.now value.now) }
{
    let expected = expected.share()?;
    let value = value.share()?;
    Ok(Call::ReplaceIf {
        key,
        expected,
        value,
    })
}

fn share_remove_if(key: Key, expected: &Value) -> Result<Call, OutOfMemory>
    ensures { IfOk result (λ c. c ≡ RemoveIf key expected.now) }
{
    let expected = expected.share()?;
    Ok(Call::RemoveIf { key, expected })
}

fn share_invoke(key: Key, processor: u8, argument: &Value) -> Result<Call, OutOfMemory>
    ensures { IfOk result (λ c. c ≡ Invoke key processor argument.now) }
{
    let argument = argument.share()?;
    Ok(Call::Invoke {
        key,
        processor,
        argument,
    })
}

fn share_invoke_all(keys: &Keys, processor: u8, argument: &Value) -> Result<Call, OutOfMemory>
    ensures { IfOk result (λ c. c ≡ InvokeAll keys.now processor argument.now) }
{
    let keys = keys.share()?;
    let argument = argument.share()?;
    Ok(Call::InvokeAll {
        keys,
        processor,
        argument,
    })
}

fn share_load_all(keys: &Keys, replace: bool) -> Result<Call, OutOfMemory>
    ensures { IfOk result (λ c. c ≡ LoadAll keys.now replace) }
{
    let keys = keys.share()?;
    Ok(Call::LoadAll { keys, replace })
}

impl Share for End {
    fn share(&self) -> Result<End, OutOfMemory> {
        match self {
            End::Waiting => Ok(End::Waiting),
            End::Replied(reply) => Ok(End::Replied(reply.share()?)),
            End::GivenUp => Ok(End::GivenUp),
        }
    }
}

impl Share for Entry {
    fn share(&self) -> Result<Entry, OutOfMemory> {
        let answers = self.answers.share()?;
        let told = self.told.share()?;
        let end = self.end.share()?;
        let call = self.call.share()?;
        Ok(Entry {
            session: self.session,
            id: self.id,
            at: self.at,
            call,
            answers,
            told,
            end,
        })
    }
}

impl Share for CacheConfig {
    fn share(&self) -> Result<CacheConfig, OutOfMemory> {
        let processors = self.processors.share()?;
        Ok(CacheConfig {
            name: self.name,
            capacity: self.capacity,
            policy: self.policy,
            loader: self.loader,
            writer: self.writer,
            processors,
            listeners: self.listeners,
        })
    }
}

impl Share for Life {
    fn share(&self) -> Result<Life, OutOfMemory> {
        let config = self.config.share()?;
        Ok(Life {
            id: self.id,
            config,
        })
    }
}
