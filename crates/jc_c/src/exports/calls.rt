//! Calls on one key.
ghost use Rattle.std.specs.Prelude.{Result};
ghost use Rattle.jc_model.specs.declared.call.Call.{Call as SomeCall};
ghost use Rattle.jc_c.specs.declared.status.Fault.{Fault as SomeFault};
ghost use Rattle.jc_c.specs.Calls.{call_with_key, call_with_value, replace_if, remove_if, invoke};
ghost use Rattle.jc_c.specs.Reading.{IsRead};
ghost use Rattle.jc_c.specs.Held.{SeatBegins, SeatBeginsOr};

use crate::calls;
use crate::exports::handle::Handle;
use crate::status::{Fault, Status};
use jc_model::call::Call;
use std::alloc::Global;

/// Takes the manager out, begins the call that the bytes say, and puts it back.
pub(crate) fn begin(
    alloc: Global,
    h: &mut Handle,
    id: u32,
    now: u64,
    said: Result<Call, Fault>,
) -> u32
    ensures called { SeatBegins id now said h.old result h.new }
    ensures or_memory { (what : Result SomeCall SomeFault) → IsRead what said
        → SeatBeginsOr id now what h.old result h.new }
{
    let Some(mut seat) = h.take(alloc) else {
        drop(said);
        return Status::Closed.number();
    };
    let status = seat.call(id, now, &said);
    drop(said);
    h.put_in(seat);
    status.number()
}

#[unsafe(no_mangle)]
pub extern "C" fn jc_get(alloc: Global, h: &mut Handle, id: u32, now: u64, key: &[u8]) -> u32
    ensures { SeatBegins id now (call_with_key Call.Get key.now) h.old result h.new }
{
    begin(alloc, h, id, now, calls::get(key))
}

#[unsafe(no_mangle)]
pub extern "C" fn jc_contains(alloc: Global, h: &mut Handle, id: u32, now: u64, key: &[u8]) -> u32
    ensures { SeatBegins id now (call_with_key Call.Contains key.now) h.old result h.new }
{
    let Some(mut seat) = h.take(alloc) else {
        return Status::Closed.number();
    };
    let status = seat.contains_key(id, now, key);
    h.put_in(seat);
    status.number()
}

#[unsafe(no_mangle)]
pub extern "C" fn jc_put(
    alloc: Global,
    h: &mut Handle,
    id: u32,
    now: u64,
    key: &[u8],
    value: &[u8],
) -> u32
    ensures { SeatBeginsOr id now (call_with_value Call.Put key.now value.now) h.old result h.new }
{
    begin(alloc, h, id, now, calls::put(alloc, key, value))
}

#[unsafe(no_mangle)]
pub extern "C" fn jc_get_and_put(
    alloc: Global,
    h: &mut Handle,
    id: u32,
    now: u64,
    key: &[u8],
    value: &[u8],
) -> u32
    ensures { SeatBeginsOr id now (call_with_value Call.GetAndPut key.now value.now)
        h.old result h.new }
{
    begin(alloc, h, id, now, calls::get_and_put(alloc, key, value))
}

#[unsafe(no_mangle)]
pub extern "C" fn jc_put_if_absent(
    alloc: Global,
    h: &mut Handle,
    id: u32,
    now: u64,
    key: &[u8],
    value: &[u8],
) -> u32
    ensures { SeatBeginsOr id now (call_with_value Call.PutIfAbsent key.now value.now)
        h.old result h.new }
{
    begin(alloc, h, id, now, calls::put_if_absent(alloc, key, value))
}

#[unsafe(no_mangle)]
pub extern "C" fn jc_replace(
    alloc: Global,
    h: &mut Handle,
    id: u32,
    now: u64,
    key: &[u8],
    value: &[u8],
) -> u32
    ensures { SeatBeginsOr id now (call_with_value Call.Replace key.now value.now)
        h.old result h.new }
{
    begin(alloc, h, id, now, calls::replace(alloc, key, value))
}

#[unsafe(no_mangle)]
pub extern "C" fn jc_replace_if(
    alloc: Global,
    h: &mut Handle,
    id: u32,
    now: u64,
    key: &[u8],
    expected: &[u8],
    value: &[u8],
) -> u32
    ensures { SeatBeginsOr id now (replace_if key.now expected.now value.now) h.old result h.new }
{
    begin(
        alloc,
        h,
        id,
        now,
        calls::replace_if(alloc, key, expected, value),
    )
}

#[unsafe(no_mangle)]
pub extern "C" fn jc_get_and_replace(
    alloc: Global,
    h: &mut Handle,
    id: u32,
    now: u64,
    key: &[u8],
    value: &[u8],
) -> u32
    ensures { SeatBeginsOr id now (call_with_value Call.GetAndReplace key.now value.now)
        h.old result h.new }
{
    begin(alloc, h, id, now, calls::get_and_replace(alloc, key, value))
}

#[unsafe(no_mangle)]
pub extern "C" fn jc_remove(alloc: Global, h: &mut Handle, id: u32, now: u64, key: &[u8]) -> u32
    ensures { SeatBegins id now (call_with_key Call.Remove key.now) h.old result h.new }
{
    begin(alloc, h, id, now, calls::remove(key))
}

#[unsafe(no_mangle)]
pub extern "C" fn jc_remove_if(
    alloc: Global,
    h: &mut Handle,
    id: u32,
    now: u64,
    key: &[u8],
    expected: &[u8],
) -> u32
    ensures { SeatBeginsOr id now (remove_if key.now expected.now) h.old result h.new }
{
    begin(alloc, h, id, now, calls::remove_if(alloc, key, expected))
}

#[unsafe(no_mangle)]
pub extern "C" fn jc_get_and_remove(
    alloc: Global,
    h: &mut Handle,
    id: u32,
    now: u64,
    key: &[u8],
) -> u32
    ensures { SeatBegins id now (call_with_key Call.GetAndRemove key.now) h.old result h.new }
{
    begin(alloc, h, id, now, calls::get_and_remove(key))
}

#[unsafe(no_mangle)]
pub extern "C" fn jc_invoke(
    alloc: Global,
    h: &mut Handle,
    id: u32,
    now: u64,
    key: &[u8],
    processor: u8,
    argument: &[u8],
) -> u32
    ensures { SeatBeginsOr id now (invoke key.now processor argument.now) h.old result h.new }
{
    begin(
        alloc,
        h,
        id,
        now,
        calls::invoke(alloc, key, processor, argument),
    )
}
