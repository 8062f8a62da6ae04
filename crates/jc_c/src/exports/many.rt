//! Calls on many keys, and on a whole cache.
ghost use Rattle.std.specs.Prelude.{Ok};
ghost use Rattle.jc_c.specs.Calls.{call_with_keys, put_all, load_all, invoke_all};
ghost use Rattle.jc_c.specs.Held.{SeatBegins, SeatBeginsOr};

use crate::calls;
use crate::exports::calls::begin;
use crate::exports::handle::Handle;
use crate::reading::PairLengths;
use jc_model::call::Call;
use std::alloc::Global;

#[unsafe(no_mangle)]
pub extern "C" fn jc_get_all(
    alloc: Global,
    h: &mut Handle,
    id: u32,
    now: u64,
    lengths: &[u32],
    keys: &[u8],
) -> u32
    ensures { SeatBeginsOr id now (call_with_keys Call.GetAll lengths.now keys.now)
        h.old result h.new }
{
    begin(alloc, h, id, now, calls::get_all(alloc, lengths, keys))
}

#[unsafe(no_mangle)]
pub extern "C" fn jc_put_all(
    alloc: Global,
    h: &mut Handle,
    id: u32,
    now: u64,
    lengths: &[PairLengths],
    pairs: &[u8],
) -> u32
    ensures { SeatBeginsOr id now (put_all lengths.now pairs.now) h.old result h.new }
{
    begin(alloc, h, id, now, calls::put_all(alloc, lengths, pairs))
}

#[unsafe(no_mangle)]
pub extern "C" fn jc_remove_keys(
    alloc: Global,
    h: &mut Handle,
    id: u32,
    now: u64,
    lengths: &[u32],
    keys: &[u8],
) -> u32
    ensures { SeatBeginsOr id now (call_with_keys Call.RemoveKeys lengths.now keys.now)
        h.old result h.new }
{
    begin(alloc, h, id, now, calls::remove_keys(alloc, lengths, keys))
}

#[unsafe(no_mangle)]
pub extern "C" fn jc_load_all(
    alloc: Global,
    h: &mut Handle,
    id: u32,
    now: u64,
    lengths: &[u32],
    keys: &[u8],
    replace: u32,
) -> u32
    ensures { SeatBeginsOr id now (load_all lengths.now keys.now replace) h.old result h.new }
{
    begin(
        alloc,
        h,
        id,
        now,
        calls::load_all(alloc, lengths, keys, replace),
    )
}

#[unsafe(no_mangle)]
pub extern "C" fn jc_invoke_all(
    alloc: Global,
    h: &mut Handle,
    id: u32,
    now: u64,
    lengths: &[u32],
    keys: &[u8],
    processor: u8,
    argument: &[u8],
) -> u32
    ensures { SeatBeginsOr id now (invoke_all lengths.now keys.now processor argument.now)
        h.old result h.new }
{
    begin(
        alloc,
        h,
        id,
        now,
        calls::invoke_all(alloc, lengths, keys, processor, argument),
    )
}

#[unsafe(no_mangle)]
pub extern "C" fn jc_remove_all(alloc: Global, h: &mut Handle, id: u32, now: u64) -> u32
    ensures { SeatBegins id now (Ok Call.RemoveAll) h.old result h.new }
{
    begin(alloc, h, id, now, Ok(Call::RemoveAll))
}

#[unsafe(no_mangle)]
pub extern "C" fn jc_clear(alloc: Global, h: &mut Handle, id: u32, now: u64) -> u32
    ensures { SeatBegins id now (Ok Call.Clear) h.old result h.new }
{
    begin(alloc, h, id, now, Ok(Call::Clear))
}

#[unsafe(no_mangle)]
pub extern "C" fn jc_entries(alloc: Global, h: &mut Handle, id: u32, now: u64) -> u32
    ensures { SeatBegins id now (Ok Call.Entries) h.old result h.new }
{
    begin(alloc, h, id, now, Ok(Call::Entries))
}

#[unsafe(no_mangle)]
pub extern "C" fn jc_stats(alloc: Global, h: &mut Handle, id: u32, now: u64) -> u32
    ensures { SeatBegins id now (Ok Call.Stats) h.old result h.new }
{
    begin(alloc, h, id, now, Ok(Call::Stats))
}

#[unsafe(no_mangle)]
pub extern "C" fn jc_clear_stats(alloc: Global, h: &mut Handle, id: u32, now: u64) -> u32
    ensures { SeatBegins id now (Ok Call.ClearStats) h.old result h.new }
{
    begin(alloc, h, id, now, Ok(Call::ClearStats))
}
