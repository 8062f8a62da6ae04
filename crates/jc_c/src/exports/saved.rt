//! Caches that are saved and restored.
ghost use Rattle.std.specs.Prelude.{◌≡◌, None, length};
ghost use Rattle.jc_c.specs.Items.{buffer_after, length_told};
ghost use Rattle.jc_c.specs.Reading.{bound_said, key_said};
ghost use Rattle.jc_c.specs.Saved.{save_status, saved_told};
ghost use Rattle.jc_c.specs.Held.{SeatRestores, SeatTellsAt, cache_held};

use crate::exports::handle::Handle;
use crate::saved::read_saved;
use crate::status::Status;
use std::alloc::Global;

#[unsafe(no_mangle)]
pub extern "C" fn jc_save(
    alloc: Global,
    h: &mut Handle,
    id: u32,
    out: &mut [u8],
    len: &mut usize,
) -> u32
    ensures same { h.new.held ≡ h.old.held }
    ensures status { SeatTellsAt id (λ cache. save_status cache (length out.old))
        h.old result h.new }
    ensures out { out.new ≡ buffer_after (saved_told (cache_held id h.old.held)) out.old }
    ensures len { len.new ≡ length_told (saved_told (cache_held id h.old.held)) len.old }
{
    let Some(seat) = h.take(alloc) else {
        return Status::Closed.number();
    };
    let status = seat.save_cache(id, out, len);
    h.put_in(seat);
    status.number()
}

#[unsafe(no_mangle)]
pub extern "C" fn jc_restore(
    alloc: Global,
    h: &mut Handle,
    name: &[u8],
    bytes: &[u8],
    max_value: u32,
    id: &mut u32,
    place: &mut usize,
) -> u32
    ensures restored { SeatRestores (key_said name.now) bytes.now (bound_said max_value)
        id.old id.new place.old place.new h.old result h.new }
    ensures closed { h.old.held ≡ None → (id.new ≡ id.old) × (place.new ≡ place.old) }
{
    let Some(mut seat) = h.take(alloc) else {
        return Status::Closed.number();
    };
    let status = seat.restore_cache(read_saved(alloc, name, bytes, max_value), bytes, id, place);
    h.put_in(seat);
    status.number()
}
