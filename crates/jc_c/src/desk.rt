//! The manager as bytes and numbers ask it, and its answers in the caller's places.
ghost use Rattle.std.specs.Prelude.{◌≡◌, Result, length};
ghost use Rattle.jc_model.specs.declared.call.Answer.{Answer as SomeAnswer};
ghost use Rattle.jc_model.specs.declared.call.Call.{Call as SomeCall};
ghost use Rattle.jc_c.specs.declared.ffi_settings.NewCache.{NewCache as SomeCache};
ghost use Rattle.jc_c.specs.declared.status.Fault.{Fault as SomeFault};
ghost use Rattle.jc_c.specs.Calls.{call_with_key};
ghost use Rattle.jc_c.specs.Items.{buffer_after, length_told};
ghost use Rattle.jc_c.specs.Parts.{part_shown, part_status, count_shown, count_status, or_before};
ghost use Rattle.jc_c.specs.Parts.{number_shown, number_status, cache_found, find_status};
ghost use Rattle.jc_c.specs.Reading.{IsRead, key_said};
ghost use Rattle.jc_c.specs.Seated.{BeginsCall, BeginsCallOr, Creates, CreatesOr, ResumesCall};
ghost use Rattle.jc_c.specs.Seated.{ResumesCallOr, shown_of};

use crate::ffi_manager::FfiManager;
use crate::ffi_settings::NewCache;
use crate::items::{self, ItemPart};
use crate::reading::read_key;
use crate::status::{Fault, Status};
use jc_model::call::{Answer, Call};
use jc_model::event::CacheId;

impl FfiManager {
    /// Begins the call that bytes say, if they say one and its values are taken at the cache's
    /// desk.
    pub fn call(&mut self, id: u32, now: u64, said: &Result<Call, Fault>) -> Status
        ensures called { BeginsCall self.old id now said.now result self.new }
        ensures or_memory { (what : Result SomeCall SomeFault) → IsRead what said.now
            → BeginsCallOr self.old id now what result self.new }
    {
        let id = CacheId::new(id);
        match said {
            Ok(call) if self.takes_call(id, call) => self.begin(id, now, call),
            Ok(_) => Status::of_fault(Fault::BadValue),
            Err(fault) => Status::of_fault(*fault),
        }
    }

    /// Begins the call that asks whether there is a row of the key that bytes say.
    pub fn contains_key(&mut self, id: u32, now: u64, key: &[u8]) -> Status
        ensures { BeginsCall self.old id now (call_with_key Call.Contains key.now) result self.new }
    {
        match read_key(key) {
            Ok(key) => self.contains(CacheId::new(id), now, &key),
            Err(fault) => Status::of_fault(fault),
        }
    }

    /// Answers the open call's request as bytes say, if they say an answer and its value is taken
    /// at the cache's desk.
    pub fn answer(&mut self, id: u32, said: Result<Answer, Fault>) -> Status
        ensures called { ResumesCall self.old id said result self.new }
        ensures or_memory { (what : Result SomeAnswer SomeFault) → IsRead what said
            → ResumesCallOr self.old id what result self.new }
    {
        let id = CacheId::new(id);
        match said {
            Ok(answer) => {
                if self.takes_answer(id, &answer) {
                    return self.resume(id, answer);
                }
                drop(answer);
                Status::of_fault(Fault::BadValue)
            }
            Err(fault) => Status::of_fault(fault),
        }
    }

    /// Creates the cache that bytes say, if they say one, and tells its id.
    pub fn create_cache(&mut self, said: Result<NewCache, Fault>, id: &mut u32) -> Status
        ensures called { Creates self.old said result id.old id.new self.new }
        ensures or_memory { (what : Result SomeCache SomeFault) → IsRead what said
            → CreatesOr self.old what result id.old id.new self.new }
    {
        match said {
            Ok(asked) => match self.create(asked) {
                Ok(given) => {
                    *id = given.number();
                    Status::Done
                }
                Err(status) => status,
            },
            Err(fault) => Status::of_fault(fault),
        }
    }

    /// Tells the id of the live cache with this name.
    pub fn find_cache(&self, name: &[u8], id: &mut u32) -> Status
        ensures status { result ≡ find_status (key_said name.now) self.now.caches }
        ensures id { id.new ≡ or_before id.old (cache_found (key_said name.now) self.now.caches) }
    {
        match read_key(name) {
            Ok(name) => match self.find(&name) {
                Some(given) => {
                    *id = given.number();
                    Status::Done
                }
                None => Status::NoSuchCache,
            },
            Err(fault) => Status::of_fault(fault),
        }
    }

    /// Tells how many items a cache shows.
    pub fn count_items(&self, id: u32, count: &mut usize) -> Status
        ensures status { result ≡ count_status (shown_of id self.now) }
        ensures count { count.new ≡ count_shown count.old (shown_of id self.now) }
    {
        match self.desk(CacheId::new(id)) {
            Some(desk) => {
                *count = items::count(&desk.shown);
                Status::Done
            }
            None => Status::NoSuchCache,
        }
    }

    /// Copies the first bytes of a part of an item into a buffer, as many as it takes, and tells
    /// how many there are.
    #[inline(always)]
    pub fn copy_part(&self, of: ItemPart, out: &mut [u8], len: &mut usize) -> Status
        ensures status { result
            ≡ part_status of.part of.place (length out.old) (shown_of of.id self.now) }
        ensures out { out.new
            ≡ buffer_after (part_shown of.part of.place (shown_of of.id self.now)) out.old }
        ensures len { len.new
            ≡ length_told (part_shown of.part of.place (shown_of of.id self.now)) len.old }
    {
        match self.desk(CacheId::new(of.id)) {
            Some(desk) => items::copy(items::part_at(&desk.shown, of.place, of.part), out, len),
            None => Status::NoSuchCache,
        }
    }

    /// Tells a number that a cache shows.
    pub fn tell_number(&self, id: u32, place: usize, number: &mut u64) -> Status
        ensures status { result ≡ number_status place (shown_of id self.now) }
        ensures number { number.new
            ≡ or_before number.old (number_shown place (shown_of id self.now)) }
    {
        let Some(desk) = self.desk(CacheId::new(id)) else {
            return Status::NoSuchCache;
        };
        match items::number(&desk.shown, place) {
            Some(shown) => {
                *number = shown;
                Status::Done
            }
            None => Status::NoItem,
        }
    }
}
