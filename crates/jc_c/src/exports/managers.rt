//! Managers, and caches that are created and destroyed.
ghost use Rattle.std.specs.Prelude.{◌≡◌, None};
ghost use Rattle.jc_model.specs.declared.event.Event.TheVariants.{Destroy};
ghost use Rattle.jc_c.specs.Parts.{or_before, find_status, cache_found};
ghost use Rattle.jc_c.specs.Placing.{secret_placer};
ghost use Rattle.jc_c.specs.Reading.{cache_said, key_said};
ghost use Rattle.jc_c.specs.Status.{status_number};
ghost use Rattle.jc_c.specs.Held.{OpensManager, SeatAnswers, SeatCreatesOr, SeatTells, caches_held};
ghost use Rattle.jc_c.specs.Held.{closing};

use crate::exports::handle::Handle;
use crate::ffi_manager::FfiManager;
use crate::ffi_settings::{FfiSettings, read_cache};
use crate::placer::FfiPlacer;
use crate::status::Status;
use jc_model::event::CacheId;
use std::alloc::Global;

/// Makes a manager with this placer behind a handle that is empty.
fn open(alloc: Global, h: &mut Handle, placer: FfiPlacer) -> u32
    ensures { OpensManager placer h.old.held result h.new.held }
{
    if let Some(seat) = h.take(alloc) {
        h.put_in(seat);
        return Status::InUse.number();
    }
    let Some(seat) = FfiManager::open(alloc, &placer) else {
        return Status::OutOfMemory.number();
    };
    match Box::new(alloc, seat) {
        Ok(seat) => {
            h.put_in(seat);
            Status::Done.number()
        }
        Err(_) => Status::OutOfMemory.number(),
    }
}

#[unsafe(no_mangle)]
pub extern "C" fn jc_open(alloc: Global, h: &mut Handle, seed: u64) -> u32
    ensures { OpensManager (FfiPlacer.Seeded seed) h.old.held result h.new.held }
{
    open(alloc, h, FfiPlacer::seeded(seed))
}

#[unsafe(no_mangle)]
pub extern "C" fn jc_open_secret(alloc: Global, h: &mut Handle, secret: &[u8; 16]) -> u32
    ensures { OpensManager (secret_placer secret.now) h.old.held result h.new.held }
{
    open(alloc, h, FfiPlacer::secret(secret))
}

#[unsafe(no_mangle)]
pub extern "C" fn jc_close(alloc: Global, h: &mut Handle) -> u32
    ensures empty { h.new.held ≡ None }
    ensures status { result ≡ status_number (closing h.old.held) }
{
    match h.take(alloc) {
        Some(seat) => {
            drop(seat);
            Status::Done.number()
        }
        None => Status::Closed.number(),
    }
}

#[unsafe(no_mangle)]
pub extern "C" fn jc_create(
    alloc: Global,
    h: &mut Handle,
    name: &[u8],
    settings: &FfiSettings,
    wants: &[u8],
    id: &mut u32,
) -> u32
    ensures created { SeatCreatesOr (cache_said name.now settings.now wants.now) id.old id.new
        h.old result h.new }
    ensures closed { h.old.held ≡ None → id.new ≡ id.old }
{
    let Some(mut seat) = h.take(alloc) else {
        return Status::Closed.number();
    };
    let status = seat.create_cache(read_cache(alloc, name, settings, wants), id);
    h.put_in(seat);
    status.number()
}

#[unsafe(no_mangle)]
pub extern "C" fn jc_destroy(alloc: Global, h: &mut Handle, id: u32) -> u32
    ensures { SeatAnswers (Destroy id) h.old result h.new }
{
    let Some(mut seat) = h.take(alloc) else {
        return Status::Closed.number();
    };
    let status = seat.destroy(CacheId::new(id));
    h.put_in(seat);
    status.number()
}

#[unsafe(no_mangle)]
pub extern "C" fn jc_find(alloc: Global, h: &mut Handle, name: &[u8], id: &mut u32) -> u32
    ensures same { h.new.held ≡ h.old.held }
    ensures status { SeatTells (λ old. find_status (key_said name.now) old.caches)
        h.old result h.new }
    ensures id { id.new
        ≡ or_before id.old (cache_found (key_said name.now) (caches_held h.old.held)) }
{
    let Some(seat) = h.take(alloc) else {
        return Status::Closed.number();
    };
    let status = seat.find_cache(name, id);
    h.put_in(seat);
    status.number()
}
