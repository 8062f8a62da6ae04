//! A journal that keeps the entries of all calls.
ghost use Rattle.std.specs.Prelude.{◌≡◌, ◌≤◌, ◌<◌, length, nat_eq};
ghost use Rattle.std.specs.HashMap.{get, spare};
ghost use Rattle.jc_engine.specs.Recording.{left_in, with_entry};
ghost use Rattle.jc_engine.specs.Journals.{GivesUpAt};

use super::Journal;
use super::change::{CallHeader, Origin};
use super::notes::{blank, enter_answer, enter_life, kept_place, note, put_of};
use crate::turn::EngineStep;
use jc_model::call::{Answer, Call, Notice, Reply};
use jc_model::config::CacheConfig;
use jc_model::event::{CacheId, End, Entry, Step};
use jc_model::list::Sequence;
use jc_model::{OutOfMemory, Transcript};
use jc_ops::notices::Notices;
use std::alloc::Global;
use std::collections::HashMap;

/// The transcript, and where the open calls stand in it.
#[derive(Drop)]
pub struct AllCalls {
    alloc: Global,
    pub(crate) transcript: Transcript,
    /// By cache, the place of the last call that has waited.
    places: HashMap<u32, usize>,
}

impl AllCalls {
    /// Writes into an entry that its call was given up. The result is the notices that are left.
    fn note_given_up(&mut self, place: usize, left: Option<Notices>) -> Sequence<Notice>
        requires { place < length self.old.transcript.entries }
        ensures left { result ≡ left_in left }
        ensures noted { GivesUpAt place left self.old.transcript self.new.transcript }
        ensures places { self.new.places ≡ self.old.places }
    {
        match left {
            Some(left) => {
                let (notices, kept) = left.into_lists();
                self.transcript.set_told(place, kept);
                self.transcript.set_end(place, End::GivenUp);
                notices
            }
            None => {
                self.transcript.set_end(place, End::GivenUp);
                Sequence::new(Vec::new(self.alloc))
            }
        }
    }
}

impl Journal for AllCalls {
    ghost history = { λ j. j.transcript };

    ghost places = { λ j. get nat_eq j.places };

    type Held = ();

    ghost Enters = { λ h j held e. (j.transcript ≡ with_entry e h) × (1 ≤ spare j.places) };

    ghost Notes = { λ j. ⊥ };

    fn new(alloc: Global) -> AllCalls {
        AllCalls {
            alloc,
            transcript: Transcript::new(alloc),
            places: HashMap::new(alloc),
        }
    }

    fn open_entry(&self, id: CacheId) -> Option<&Entry> {
        let number = id.number();
        let place = self.places.get(&number)?;
        self.transcript.entries().get(*place)
    }

    fn notes(&self) -> bool {
        false
    }

    fn note(&mut self, _begun: CallHeader, _reply: &Reply) -> bool {
        false
    }

    fn enter(&mut self, alloc: Global, origin: Origin, call: Call) -> Result<(), Call> {
        if self.places.reserve(1).is_err() {
            return Err(call);
        }
        match self.transcript.push(blank(alloc, origin, call)) {
            Ok(()) => Ok(()),
            Err(entry) => Err(entry.call),
        }
    }

    fn call<'a>(&'a self, _held: &'a ()) -> &'a Call {
        match self.transcript.last() {
            Some(entry) => &entry.call,
            None => unreachable!(),
        }
    }

    fn take_back(&mut self, _held: ()) -> Call {
        match self.transcript.pop() {
            Some(entry) => entry.call,
            None => unreachable!(),
        }
    }

    fn begin(&mut self, _held: (), advance: EngineStep) -> (Step, Option<Reply>) {
        let entries = self.transcript.entries();
        let place = entries.len() - 1;
        let id = entries[place].id;
        let replied = advance.is_replied();
        let shown = note(&mut self.transcript, place, advance);
        if !replied {
            put_of(&mut self.places, id, place);
        }
        shown
    }

    fn answer(&mut self, id: CacheId, answer: &Answer) -> Result<(), OutOfMemory> {
        let place = kept_place(&self.places, id);
        enter_answer(&mut self.transcript, place, answer)
    }

    fn take_answer(&mut self, id: CacheId) {
        let place = kept_place(&self.places, id);
        self.transcript.pop_answer(place);
    }

    fn go_on(&mut self, id: CacheId, advance: EngineStep) -> (Step, Option<Reply>) {
        let place = kept_place(&self.places, id);
        note(&mut self.transcript, place, advance)
    }

    fn give_up(&mut self, id: CacheId, left: Option<Notices>) -> Sequence<Notice> {
        let place = kept_place(&self.places, id);
        self.note_given_up(place, left)
    }

    fn create(&mut self, id: CacheId, config: &CacheConfig) -> Result<(), OutOfMemory> {
        enter_life(&mut self.transcript, id, config)
    }

    fn take_life(&mut self) {
        self.transcript.pop_life();
    }

    fn destroy(&mut self, id: CacheId) {
        let number = id.number();
        self.places.remove(&number);
    }
}
