//! Looks at caches, which change nothing, and a get that copies its value out.
ghost use Rattle.std.specs.Prelude.{◌≡◌, Some, length};
ghost use Rattle.jc_model.specs.Places.{at_place};
ghost use Rattle.jc_engine.specs.Caches.{count_in};
ghost use Rattle.jc_c.specs.Asked.{asked_at, asked_status, settings_told, wants_told};
ghost use Rattle.jc_c.specs.Bytes.{bytes_in};
ghost use Rattle.jc_c.specs.Calls.{call_with_key};
ghost use Rattle.jc_c.specs.Items.{buffer_after, copy_status, length_told};
ghost use Rattle.jc_c.specs.Looks.{moment_peeked, peek_status, row_peeked, rows_status};
ghost use Rattle.jc_c.specs.Looks.{value_peeked};
ghost use Rattle.jc_c.specs.Names.{names_told};
ghost use Rattle.jc_c.specs.Parts.{or_before};
ghost use Rattle.jc_c.specs.Reading.{key_said};
ghost use Rattle.jc_c.specs.Walk.{bytes_walked, laid_over, length_walked, number_walked};
ghost use Rattle.jc_c.specs.Walk.{walk_status, walked};
ghost use Rattle.jc_c.specs.Held.{SeatBegins, SeatTells, SeatTellsAt, asked_held, cache_held};
ghost use Rattle.jc_c.specs.Held.{names_held, value_found_in};

use crate::exports::handle::Handle;
use crate::ffi_settings::FfiSettings;
use crate::status::Status;
use jc_model::call::Call;
use std::alloc::Global;

/// The version that the header names: 10,000 times the first number, 100 times the second, and the
/// third.
const VERSION: u32 = 100;

#[unsafe(no_mangle)]
pub extern "C" fn jc_version() -> u32
    ensures { result ≡ 100 }
{
    VERSION
}

#[unsafe(no_mangle)]
pub extern "C" fn jc_get_into(
    alloc: Global,
    h: &mut Handle,
    id: u32,
    now: u64,
    key: &[u8],
    out: &mut [u8],
    len: &mut usize,
) -> u32
    ensures called { SeatBegins id now (call_with_key Call.Get key.now) h.old result h.new }
    ensures out { out.new ≡ buffer_after (value_found_in id result h.new.held) out.old }
    ensures len { len.new ≡ length_told (value_found_in id result h.new.held) len.old }
{
    let Some(mut seat) = h.take(alloc) else {
        return Status::Closed.number();
    };
    let status = seat.get_into(id, now, key, out, len);
    h.put_in(seat);
    status.number()
}

#[unsafe(no_mangle)]
pub extern "C" fn jc_peek(
    alloc: Global,
    h: &mut Handle,
    id: u32,
    now: u64,
    key: &[u8],
    expires: &mut u64,
    out: &mut [u8],
    len: &mut usize,
) -> u32
    ensures same { h.new.held ≡ h.old.held }
    ensures status { SeatTellsAt id (peek_status now (key_said key.now)) h.old result h.new }
    ensures expires { expires.new ≡ or_before expires.old
        (moment_peeked (row_peeked now (key_said key.now) (cache_held id h.old.held))) }
    ensures out { out.new ≡ buffer_after
        (value_peeked (row_peeked now (key_said key.now) (cache_held id h.old.held))) out.old }
    ensures len { len.new ≡ length_told
        (value_peeked (row_peeked now (key_said key.now) (cache_held id h.old.held))) len.old }
{
    let Some(seat) = h.take(alloc) else {
        return Status::Closed.number();
    };
    let status = seat.peek(id, now, key, expires, out, len);
    h.put_in(seat);
    status.number()
}

#[unsafe(no_mangle)]
pub extern "C" fn jc_rows(alloc: Global, h: &mut Handle, id: u32, rows: &mut usize) -> u32
    ensures same { h.new.held ≡ h.old.held }
    ensures status { SeatTellsAt id rows_status h.old result h.new }
    ensures rows { rows.new ≡ or_before rows.old (count_in (cache_held id h.old.held)) }
{
    let Some(seat) = h.take(alloc) else {
        return Status::Closed.number();
    };
    let status = seat.count_rows(id, rows);
    h.put_in(seat);
    status.number()
}

#[unsafe(no_mangle)]
pub extern "C" fn jc_bytes(alloc: Global, h: &mut Handle, id: u32, bytes: &mut u64) -> u32
    ensures same { h.new.held ≡ h.old.held }
    ensures status { SeatTellsAt id rows_status h.old result h.new }
    ensures bytes { bytes.new ≡ or_before bytes.old (bytes_in (cache_held id h.old.held)) }
{
    let Some(seat) = h.take(alloc) else {
        return Status::Closed.number();
    };
    let status = seat.count_bytes(id, bytes);
    h.put_in(seat);
    status.number()
}

#[unsafe(no_mangle)]
pub extern "C" fn jc_walk(
    alloc: Global,
    h: &mut Handle,
    id: u32,
    from: u32,
    out: &mut [u8],
    len: &mut usize,
    next: &mut u32,
) -> u32
    ensures same { h.new.held ≡ h.old.held }
    ensures status { SeatTellsAt id (λ cache. walk_status (walked (length out.old) cache from))
        h.old result h.new }
    ensures out { out.new ≡ laid_over
        (bytes_walked (walked (length out.old) (cache_held id h.old.held) from)) out.old }
    ensures len { len.new ≡ length_walked
        (walked (length out.old) (cache_held id h.old.held) from) len.old }
    ensures next { next.new ≡ number_walked
        (walked (length out.old) (cache_held id h.old.held) from) from next.old }
{
    let Some(seat) = h.take(alloc) else {
        return Status::Closed.number();
    };
    let status = seat.walk(id, from, out, len, next);
    h.put_in(seat);
    status.number()
}

#[unsafe(no_mangle)]
pub extern "C" fn jc_settings_of(
    alloc: Global,
    h: &mut Handle,
    id: u32,
    settings: &mut FfiSettings,
    wants: &mut [u8],
    len: &mut usize,
) -> u32
    ensures same { h.new.held ≡ h.old.held }
    ensures status { SeatTells (λ old. asked_status (asked_at id old) (length wants.old))
        h.old result h.new }
    ensures settings { settings.new ≡ settings_told (asked_held id h.old.held) settings.old }
    ensures wants { wants.new ≡ buffer_after (wants_told (asked_held id h.old.held)) wants.old }
    ensures len { len.new ≡ length_told (wants_told (asked_held id h.old.held)) len.old }
{
    let Some(seat) = h.take(alloc) else {
        return Status::Closed.number();
    };
    let status = seat.settings_of(id, settings, wants, len);
    h.put_in(seat);
    status.number()
}

#[unsafe(no_mangle)]
pub extern "C" fn jc_names(alloc: Global, h: &mut Handle, out: &mut [u8], len: &mut usize) -> u32
    ensures same { h.new.held ≡ h.old.held }
    ensures status { SeatTells (λ old. copy_status (Some (names_told old.caches)) (length out.old))
        h.old result h.new }
    ensures out { out.new ≡ buffer_after (names_held h.old.held) out.old }
    ensures len { len.new ≡ length_told (names_held h.old.held) len.old }
{
    let Some(seat) = h.take(alloc) else {
        return Status::Closed.number();
    };
    let status = seat.list_names(out, len);
    h.put_in(seat);
    status.number()
}
