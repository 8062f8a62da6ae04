//! Caches that are saved as bytes in the caller's buffer, and restored from such bytes.
ghost use Rattle.std.specs.Prelude.{◌≡◌, ℕ, List, Result, None, Some, IfSome, length, ltb};
ghost use Rattle.std.specs.List.{list_any};
ghost use Rattle.jc_model.specs.Places.{at_place};
ghost use Rattle.jc_save.specs.Restoring.{restored};
ghost use Rattle.jc_c.specs.declared.status.Fault.{Fault as SomeFault};
ghost use Rattle.jc_c.specs.Items.{buffer_after, length_told};
ghost use Rattle.jc_c.specs.Reading.{bound_said, key_said};
ghost use Rattle.jc_c.specs.Saved.{because, flaw_status, for_fault, for_refusal, save_status};
ghost use Rattle.jc_c.specs.Saved.{saved_told};
ghost use Rattle.jc_c.specs.Saved.{IsReadRefusal, IsSavedRead, LacksLonger, RestoresTold};

use crate::ffi_manager::FfiManager;
use crate::ffi_settings::bound_of;
use crate::put::tell_length;
use crate::reading::read_key;
use crate::status::Status;
use jc_engine::restoring::RestoreRefusal;
use jc_model::event::CacheId;
use jc_model::key::Key;
use jc_model::limits::VALUE_BYTES;
use jc_save::{Flaw, SaveFault, SavedRow, restore};
use std::alloc::Global;

/// A cache that is to be restored: its name, and the most bytes of a value.
#[derive(Clone, Copy)]
pub struct RestoreAs {
    pub name: Key,
    pub max_value: u32,
}

/// Why no cache is restored: a status, and of flawed bytes how many stand before the first flaw.
#[derive(Clone, Copy)]
pub struct Unrestored {
    pub status: Status,
    pub place: Option<usize>,
}

impl Unrestored {
    /// For this alone.
    pub fn because(status: Status) -> Unrestored
        ensures { result ≡ because status }
    {
        Unrestored {
            status,
            place: None,
        }
    }

    /// For the first flaw of bytes.
    fn at_flaw(flaw: Flaw, place: usize) -> Unrestored
        ensures { result ≡ record { status = flaw_status flaw; place = Some place } }
    {
        let status = match flaw {
            Flaw::OtherVersion => Status::OtherVersion,
            _ => Status::BadSave,
        };
        Unrestored {
            status,
            place: Some(place),
        }
    }

    fn of_fault(fault: SaveFault) -> Unrestored
        ensures { result ≡ for_fault fault }
    {
        match fault {
            SaveFault::Damaged { flaw, place } => Unrestored::at_flaw(flaw, place),
            SaveFault::OutOfMemory => Unrestored::because(Status::OutOfMemory),
        }
    }

    pub fn of_refusal(refusal: RestoreRefusal) -> Unrestored
        ensures { result ≡ for_refusal refusal }
    {
        match refusal {
            RestoreRefusal::Damaged { flaw, place } => Unrestored::at_flaw(flaw, place),
            RestoreRefusal::NotCreated(refusal) => {
                Unrestored::because(Status::of_refusal(refusal))
            }
        }
    }
}

/// Whether a row's value has more bytes than this.
fn has_longer(rows: &[SavedRow], most: u32) -> bool
    ensures { result ≡ list_any (λ row. ltb most (length row.value)) rows.now }
{
    rows.iter()
        .any(|row| row.value.bytes().len() > most as usize)
}

/// Why bytes are not restored where values have at most so many bytes, if that, too, is not left to
/// the manager.
fn refusal_by_values(alloc: Global, name: Key, bytes: &[u8], most: u32) -> Option<Unrestored>
    ensures refused { IfSome result (IsReadRefusal most (restored name bytes.now)) }
    ensures within { result ≡ None → LacksLonger most (restored name bytes.now) }
{
    if most as usize >= VALUE_BYTES {
        return None;
    }
    match restore(alloc, name, bytes) {
        Ok(saved) => {
            let is_longer = has_longer(saved.rows.items(), most);
            drop(saved);
            if is_longer {
                Some(Unrestored::because(Status::BadValue))
            } else {
                None
            }
        }
        Err(fault) => Some(Unrestored::of_fault(fault)),
    }
}

/// The name that bytes say, of a cache that other bytes are and whose values have at most so many;
/// 0 stands for no bound of the cache's own.
pub fn read_saved(
    alloc: Global,
    name: &[u8],
    bytes: &[u8],
    max_value: u32,
) -> Result<RestoreAs, Unrestored>
    ensures { IsSavedRead (key_said name.now) bytes.now (bound_said max_value) result }
{
    let name = match read_key(name) {
        Ok(name) => name,
        Err(fault) => return Err(Unrestored::because(Status::of_fault(fault))),
    };
    let max_value = bound_of(max_value);
    match refusal_by_values(alloc, name, bytes, max_value) {
        Some(why) => Err(why),
        None => Ok(RestoreAs { name, max_value }),
    }
}

impl FfiManager {
    /// Writes the first bytes of an idle cache into a buffer, as many as that takes, and tells how
    /// many there are.
    pub fn save_cache(&self, id: u32, out: &mut [u8], len: &mut usize) -> Status
        ensures status { result ≡ save_status (at_place self.now.caches id) (length out.old) }
        ensures out { out.new ≡ buffer_after (saved_told (at_place self.now.caches id)) out.old }
        ensures len { len.new ≡ length_told (saved_told (at_place self.now.caches id)) len.old }
    {
        let room = out.len();
        match self.engine.save(CacheId::new(id), out) {
            Ok(length) => tell_length(length, room, len),
            Err(cause) => Status::of_cause(cause),
        }
    }

    /// Restores the cache that bytes are, if a name was read for it and its values are taken, and
    /// tells its id; or how many bytes stand before their first flaw.
    pub fn restore_cache(
        &mut self,
        said: Result<RestoreAs, Unrestored>,
        bytes: &[u8],
        id: &mut u32,
        place: &mut usize,
    ) -> Status
        ensures { (name : Result (List ℕ) SomeFault) (most : ℕ) → IsSavedRead name bytes.now most said
            → RestoresTold self.old name bytes.now most result id.old id.new place.old place.new
            self.new }
    {
        let restored = match said {
            Ok(asked) => self.restore(asked, bytes),
            Err(why) => Err(why),
        };
        match restored {
            Ok(given) => {
                *id = given.number();
                Status::Done
            }
            Err(why) => {
                if let Some(flawed) = why.place {
                    *place = flawed;
                }
                why.status
            }
        }
    }
}
