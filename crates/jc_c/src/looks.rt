//! Looks at caches, which change nothing, in the caller's places; and a get that hands its value
//! over at once.
ghost use Rattle.std.specs.Prelude.{◌≡◌, length};
ghost use Rattle.jc_model.specs.Places.{at_place};
ghost use Rattle.jc_engine.specs.Caches.{count_in};
ghost use Rattle.jc_c.specs.Asked.{asked_at, asked_status, settings_told, wants_told};
ghost use Rattle.jc_c.specs.Calls.{call_with_key};
ghost use Rattle.jc_c.specs.Items.{buffer_after, length_told};
ghost use Rattle.jc_c.specs.Looks.{moment_of, moment_peeked, peek_status, row_peeked, rows_status};
ghost use Rattle.jc_c.specs.Looks.{value_found, value_peeked};
ghost use Rattle.jc_c.specs.Parts.{or_before};
ghost use Rattle.jc_c.specs.Reading.{key_said};
ghost use Rattle.jc_c.specs.Seated.{BeginsCall};
ghost use Rattle.jc_c.specs.Status.{status_number};

use crate::calls;
use crate::ffi_manager::FfiManager;
use crate::ffi_settings::FfiSettings;
use crate::items::{ItemPart, Part, copy_first};
use crate::put::{put_flags, tell_length};
use crate::reading::read_key;
use crate::status::Status;
use jc_model::call::Call;
use jc_model::config::Expiry;
use jc_model::event::CacheId;

/// The moment at which a row expires, in milliseconds; the last moment of all where it never does.
pub(crate) fn moment_of(expiry: Expiry) -> u64
    ensures { result ≡ moment_of expiry }
{
    match expiry {
        Expiry::Never => u64::MAX,
        Expiry::At(moment) => moment,
    }
}

impl FfiManager {
    /// Begins a get. Where it finds a value at once, it copies the first bytes of it into a buffer,
    /// as many as that takes, and tells how many there are.
    pub fn get_into(
        &mut self,
        id: u32,
        now: u64,
        key: &[u8],
        out: &mut [u8],
        len: &mut usize,
    ) -> Status
        ensures called { BeginsCall self.old id now (call_with_key Call.Get key.now)
            result self.new }
        ensures out { out.new
            ≡ buffer_after (value_found id (status_number result) self.new) out.old }
        ensures len { len.new
            ≡ length_told (value_found id (status_number result) self.new) len.old }
    {
        let said = calls::get(key);
        let status = self.call(id, now, &said);
        drop(said);
        self.copy_found(id, status.number(), out, len);
        status
    }

    /// Copies the value that is shown, if this is the number of the status of a call that found it.
    fn copy_found(&self, id: u32, number: u32, out: &mut [u8], len: &mut usize)
        ensures out { out.new ≡ buffer_after (value_found id number self.now) out.old }
        ensures len { len.new ≡ length_told (value_found id number self.now) len.old }
    {
        if number != Status::Found.number() {
            return;
        }
        let value = ItemPart {
            id,
            place: 0,
            part: Part::Value,
        };
        let _copied = self.copy_part(value, out, len);
    }

    /// Copies the first bytes of the value of a key's live row, as many as a buffer takes, and
    /// tells how many there are and when the row expires.
    pub fn peek(
        &self,
        id: u32,
        now: u64,
        key: &[u8],
        expires: &mut u64,
        out: &mut [u8],
        len: &mut usize,
    ) -> Status
        ensures status { result
            ≡ peek_status now (key_said key.now) (at_place self.now.caches id) }
        ensures expires { expires.new ≡ or_before expires.old
            (moment_peeked (row_peeked now (key_said key.now) (at_place self.now.caches id))) }
        ensures out { out.new ≡ buffer_after
            (value_peeked (row_peeked now (key_said key.now) (at_place self.now.caches id)))
            out.old }
        ensures len { len.new ≡ length_told
            (value_peeked (row_peeked now (key_said key.now) (at_place self.now.caches id)))
            len.old }
    {
        let key = match read_key(key) {
            Ok(key) => key,
            Err(fault) => return Status::of_fault(fault),
        };
        let id = CacheId::new(id);
        match self.engine.peek(id, &key, now) {
            Some(row) => {
                *expires = moment_of(row.expiry);
                copy_first(row.value.first().bytes(), out, len);
                Status::Found
            }
            None if self.engine.is_live(id) => Status::Nothing,
            None => Status::NoSuchCache,
        }
    }

    /// Tells how many rows a cache has, expired ones among them.
    pub fn count_rows(&self, id: u32, rows: &mut usize) -> Status
        ensures status { result ≡ rows_status (at_place self.now.caches id) }
        ensures rows { rows.new ≡ or_before rows.old (count_in (at_place self.now.caches id)) }
    {
        match self.engine.count(CacheId::new(id)) {
            Some(count) => {
                *rows = count as usize;
                Status::Done
            }
            None => Status::NoSuchCache,
        }
    }

    /// Tells what a live cache was created with, and how many processors it has. Of each of them it
    /// writes whether it wants the value, as many as there is room for.
    #[tactic(auto, using(crate::proofs::Putting::put_first))]
    pub fn settings_of(
        &self,
        id: u32,
        settings: &mut FfiSettings,
        wants: &mut [u8],
        len: &mut usize,
    ) -> Status
        ensures status { result ≡ asked_status (asked_at id self.now) (length wants.old) }
        ensures settings { settings.new ≡ settings_told (asked_at id self.now) settings.old }
        ensures wants { wants.new ≡ buffer_after (wants_told (asked_at id self.now)) wants.old }
        ensures len { len.new ≡ length_told (wants_told (asked_at id self.now)) len.old }
    {
        let id = CacheId::new(id);
        let Some(config) = self.engine.config(id) else {
            return Status::NoSuchCache;
        };
        let Some(desk) = self.desk(id) else {
            return Status::NoSuchCache;
        };
        *settings = FfiSettings::of(config, desk.max_value);
        let room = wants.len();
        let count = put_flags(wants, config.processors.items());
        tell_length(count, room, len)
    }
}
