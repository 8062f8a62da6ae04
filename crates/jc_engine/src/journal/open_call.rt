//! One open call.
ghost use Rattle.std.specs.Prelude.{◌≡◌, [], IsSome, OnOk, OnErr};
ghost use Rattle.jc_model.specs.declared.call.Answer.{Answer as Answered};
ghost use Rattle.jc_model.specs.declared.event.End.TheVariants.{Waiting};
ghost use Rattle.jc_model.specs.declared.event.Entry.{Entry};
ghost use Rattle.jc_model.specs.Legal.{with_answer};
ghost use Rattle.jc_engine.specs.RecordedSteps.{reply_in};
ghost use Rattle.jc_engine.specs.Managed.{step_of};
ghost use Rattle.jc_engine.specs.Recording.{CanTell, left_in, with_advance, with_give_up};

use crate::turn::EngineStep;
use jc_model::OutOfMemory;
use jc_model::call::{Answer, Notice, Reply, Request};
use jc_model::event::{End, Entry, Step};
use jc_model::list::Sequence;
use jc_model::share::Share;
use jc_ops::notices::Notices;

/// The entry of an open call, and how many calls had begun before it.
#[derive(Drop)]
pub(crate) struct OpenCall {
    pub(crate) place: usize,
    pub(crate) entry: Entry,
}

/// Adds an answer to an entry.
pub(crate) fn add_answer(entry: &mut Entry, answer: &Answer) -> Result<(), OutOfMemory>
    ensures ok { OnOk result (entry.new ≡ with_answer answer.now entry.old) }
    ensures err { OnErr result (entry.new ≡ entry.old) }
{
    let copy = answer.share()?;
    entry.answers.push(copy)
}

/// Takes the last answer back.
pub(crate) fn take_answer(entry: &mut Entry)
    ensures taken { (e : Entry) (a : Answered) → entry.old ≡ with_answer a e → entry.new ≡ e }
    ensures kept { entry.new ≡ record entry.old { answers = entry.new.answers } }
{
    entry.answers.pop();
}

/// Writes what a call has come to into its entry. The result is what the caller is shown, and a copy of the reply.
pub(crate) fn write_outcome(entry: &mut Entry, advance: EngineStep) -> (Step, Option<Reply>)
    ensures shown { result.0 ≡ step_of advance }
    ensures copy { result.1 ≡ reply_in result.0 }
    ensures written { entry.old.end ≡ Waiting → CanTell advance entry.old
        → entry.new ≡ with_advance advance entry.old }
{
    match advance {
        EngineStep::Replied(reply) => {
            let (reply, copy, kept) = reply.into_three();
            entry.end = End::Replied(kept);
            (Step::Done(reply), Some(copy))
        }
        EngineStep::Asked(request) => (Step::Need(request), None),
        EngineStep::Told(notices) => {
            let (told, kept) = notices.into_lists();
            entry.told = kept;
            (Step::Need(Request::Tell(told)), None)
        }
    }
}

/// Writes into an entry that its call was given up. The result is the notices that are left.
pub(crate) fn write_given_up(entry: &mut Entry, left: Option<Notices>) -> Sequence<Notice>
    ensures left { result ≡ left_in left }
    ensures written { (IsSome left → entry.old.told ≡ [])
        → entry.new ≡ with_give_up left entry.old }
{
    entry.end = End::GivenUp;
    match left {
        Some(left) => {
            let (notices, kept) = left.into_lists();
            entry.told = kept;
            notices
        }
        None => Sequence::new(entry.told.empty()),
    }
}
