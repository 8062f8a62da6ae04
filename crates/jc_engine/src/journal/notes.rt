//! What is written into a transcript, and where it is found.
ghost use Rattle.std.specs.Prelude.{◌≡◌, ◌≤◌, ◌<◌, Some, IsSome, OnOk, OnErr, length, nat_eq};
ghost use Rattle.std.specs.HashMap.{get, spare};
ghost use Rattle.jc_engine.specs.RecordedSteps.{reply_in};
ghost use Rattle.jc_engine.specs.Managed.{step_of};
ghost use Rattle.jc_engine.specs.Recording.{blank_of, with_life};
ghost use Rattle.jc_engine.specs.Journals.{AnswersAt, AdvancesAt};
ghost use Rattle.jc_engine.specs.Sound.{Puts};

use super::change::Origin;
use crate::turn::EngineStep;
use jc_model::call::{Answer, Call, Reply, Request};
use jc_model::config::CacheConfig;
use jc_model::event::{CacheId, End, Entry, Life, Step};
use jc_model::list::Sequence;
use jc_model::share::Share;
use jc_model::{OutOfMemory, Transcript};
use std::alloc::Global;
use std::collections::HashMap;

/// The entry of a call that is about to begin.
pub fn blank(alloc: Global, origin: Origin, call: Call) -> Entry
    ensures { result ≡ blank_of origin call }
{
    Entry {
        session: origin.session,
        id: origin.id,
        at: origin.at,
        call,
        answers: Sequence::new(Vec::new(alloc)),
        told: Sequence::new(Vec::new(alloc)),
        end: End::Waiting,
    }
}

/// Adds a life to a transcript.
pub(crate) fn enter_life(
    transcript: &mut Transcript,
    id: CacheId,
    config: &CacheConfig,
) -> Result<(), OutOfMemory>
    ensures ok { OnOk result (transcript.new ≡ with_life id config.now transcript.old) }
    ensures err { OnErr result (transcript.new ≡ transcript.old) }
{
    let config = config.share()?;
    transcript.push_life(Life { id, config })
}

/// Puts a value of a cache into a map, where there is room for it.
pub(super) fn put_of<T: Drop>(map: &mut HashMap<u32, T>, id: CacheId, value: T)
    requires { 1 ≤ spare map.old }
    ensures { Puts (get nat_eq map.old) id (Some value) (get nat_eq map.new) }
{
    let number = id.number();
    if map.insert(number, value).is_err() {
        unreachable!()
    }
}

/// The place that is kept of a cache's last call.
pub(crate) fn kept_place(places: &HashMap<u32, usize>, id: CacheId) -> usize
    requires { IsSome (get nat_eq places.now id) }
    ensures { get nat_eq places.now id ≡ Some result }
{
    let number = id.number();
    match places.get(&number) {
        Some(place) => *place,
        None => unreachable!(),
    }
}

/// Adds an answer to the entry at a place.
pub(crate) fn enter_answer(
    transcript: &mut Transcript,
    place: usize,
    answer: &Answer,
) -> Result<(), OutOfMemory>
    requires { place < length transcript.old.entries }
    ensures ok { OnOk result (AnswersAt place answer.now transcript.old transcript.new) }
    ensures err { OnErr result (transcript.new ≡ transcript.old) }
{
    let answer = answer.share()?;
    transcript.push_answer(place, answer)
}

/// Writes what a call has come to into its entry. The result is what the caller is shown, and a copy of the reply.
pub(crate) fn note(
    transcript: &mut Transcript,
    place: usize,
    advance: EngineStep,
) -> (Step, Option<Reply>)
    requires { place < length transcript.old.entries }
    ensures shown { result.0 ≡ step_of advance }
    ensures copy { result.1 ≡ reply_in result.0 }
    ensures noted { AdvancesAt place advance transcript.old transcript.new }
{
    match advance {
        EngineStep::Replied(reply) => {
            let (reply, copy, kept) = reply.into_three();
            transcript.set_end(place, End::Replied(kept));
            (Step::Done(reply), Some(copy))
        }
        EngineStep::Asked(request) => (Step::Need(request), None),
        EngineStep::Told(notices) => {
            let (told, kept) = notices.into_lists();
            transcript.set_told(place, kept);
            (Step::Need(Request::Tell(told)), None)
        }
    }
}
