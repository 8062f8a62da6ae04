//! What was shown last of a cache, copied into the caller's places.
ghost use Rattle.std.specs.Prelude.{◌≡◌, length};
ghost use Rattle.jc_c.specs.Items.{buffer_after, length_told};
ghost use Rattle.jc_c.specs.Parts.{count_shown, count_status, or_before, number_status};
ghost use Rattle.jc_c.specs.Held.{SeatTellsOf, SeatTellsPart, number_shown_in, part_shown_in};
ghost use Rattle.jc_c.specs.Held.{shown_in};

use crate::exports::handle::Handle;
use crate::items::{ItemPart, Part};
use crate::status::Status;
use std::alloc::Global;

#[unsafe(no_mangle)]
pub extern "C" fn jc_items(alloc: Global, h: &mut Handle, id: u32, count: &mut usize) -> u32
    ensures same { h.new.held ≡ h.old.held }
    ensures status { SeatTellsOf id count_status h.old result h.new }
    ensures count { count.new ≡ count_shown count.old (shown_in id h.old.held) }
{
    let Some(seat) = h.take(alloc) else {
        return Status::Closed.number();
    };
    let status = seat.count_items(id, count);
    h.put_in(seat);
    status.number()
}

#[unsafe(no_mangle)]
pub extern "C" fn jc_number(
    alloc: Global,
    h: &mut Handle,
    id: u32,
    place: usize,
    number: &mut u64,
) -> u32
    ensures same { h.new.held ≡ h.old.held }
    ensures status { SeatTellsOf id (number_status place) h.old result h.new }
    ensures number { number.new ≡ or_before number.old (number_shown_in place id h.old.held) }
{
    let Some(seat) = h.take(alloc) else {
        return Status::Closed.number();
    };
    let status = seat.tell_number(id, place, number);
    h.put_in(seat);
    status.number()
}

/// Copies a part of an item.
#[inline(always)]
fn copy(alloc: Global, h: &mut Handle, of: ItemPart, out: &mut [u8], len: &mut usize) -> u32
    ensures same { h.new.held ≡ h.old.held }
    ensures status { SeatTellsPart of.part of.place of.id (length out.old) h.old result h.new }
    ensures out { out.new ≡ buffer_after (part_shown_in of.part of.place of.id h.old.held) out.old }
    ensures len { len.new ≡ length_told (part_shown_in of.part of.place of.id h.old.held) len.old }
{
    let Some(seat) = h.take(alloc) else {
        return Status::Closed.number();
    };
    let status = seat.copy_part(of, out, len);
    h.put_in(seat);
    status.number()
}

#[unsafe(no_mangle)]
pub extern "C" fn jc_key(
    alloc: Global,
    h: &mut Handle,
    id: u32,
    item: usize,
    out: &mut [u8],
    len: &mut usize,
) -> u32
    ensures same { h.new.held ≡ h.old.held }
    ensures status { SeatTellsPart Part.Key item id (length out.old) h.old result h.new }
    ensures out { out.new ≡ buffer_after (part_shown_in Part.Key item id h.old.held) out.old }
    ensures len { len.new ≡ length_told (part_shown_in Part.Key item id h.old.held) len.old }
{
    let of = ItemPart {
        id,
        place: item,
        part: Part::Key,
    };
    copy(alloc, h, of, out, len)
}

#[unsafe(no_mangle)]
pub extern "C" fn jc_value(
    alloc: Global,
    h: &mut Handle,
    id: u32,
    item: usize,
    out: &mut [u8],
    len: &mut usize,
) -> u32
    ensures same { h.new.held ≡ h.old.held }
    ensures status { SeatTellsPart Part.Value item id (length out.old) h.old result h.new }
    ensures out { out.new ≡ buffer_after (part_shown_in Part.Value item id h.old.held) out.old }
    ensures len { len.new ≡ length_told (part_shown_in Part.Value item id h.old.held) len.old }
{
    let of = ItemPart {
        id,
        place: item,
        part: Part::Value,
    };
    copy(alloc, h, of, out, len)
}

#[unsafe(no_mangle)]
pub extern "C" fn jc_before(
    alloc: Global,
    h: &mut Handle,
    id: u32,
    item: usize,
    out: &mut [u8],
    len: &mut usize,
) -> u32
    ensures same { h.new.held ≡ h.old.held }
    ensures status { SeatTellsPart Part.Before item id (length out.old) h.old result h.new }
    ensures out { out.new ≡ buffer_after (part_shown_in Part.Before item id h.old.held) out.old }
    ensures len { len.new ≡ length_told (part_shown_in Part.Before item id h.old.held) len.old }
{
    let of = ItemPart {
        id,
        place: item,
        part: Part::Before,
    };
    copy(alloc, h, of, out, len)
}

#[unsafe(no_mangle)]
pub extern "C" fn jc_argument(
    alloc: Global,
    h: &mut Handle,
    id: u32,
    item: usize,
    out: &mut [u8],
    len: &mut usize,
) -> u32
    ensures same { h.new.held ≡ h.old.held }
    ensures status { SeatTellsPart Part.Argument item id (length out.old) h.old result h.new }
    ensures out { out.new ≡ buffer_after (part_shown_in Part.Argument item id h.old.held) out.old }
    ensures len { len.new ≡ length_told (part_shown_in Part.Argument item id h.old.held) len.old }
{
    let of = ItemPart {
        id,
        place: item,
        part: Part::Argument,
    };
    copy(alloc, h, of, out, len)
}
