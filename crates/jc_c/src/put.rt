//! Bytes that are written one behind the other into the caller's buffer, the first of them, as many
//! as it takes.
ghost use Rattle.std.specs.Prelude.{◌≡◌, ◌+◌, ◌<◌, ◌^◌, length, map, if◌then◌else◌, ltb};
ghost use Rattle.jc_save.specs.Placing.{put_at};
ghost use Rattle.jc_save.specs.Spelling.{flag};
ghost use Rattle.jc_c.specs.declared.status.Status.TheVariants.{Done, ShortBuffer};

use crate::ffi_settings::byte_of;
use crate::status::Status;

/// Writes bytes from a place on, as many as there is room for, and tells the place behind the last.
pub fn put(out: &mut [u8], at: usize, bytes: &[u8]) -> usize
    requires { at + length bytes.now < 2 ^ 64 }
    ensures place { result ≡ at + length bytes.now }
    ensures out { out.new ≡ put_at at bytes.now out.old }
{
    let end = at + bytes.len();
    let room = out.len();
    if end <= room {
        out[at..end].copy_from_slice(bytes);
    } else if at < room {
        out[at..].copy_from_slice(&bytes[..room - at]);
    }
    end
}

/// Writes 1 for each flag that is set, else 0, from the first place on. Tells how many flags there
/// are.
pub fn put_flags(out: &mut [u8], flags: &[bool]) -> usize
    ensures count { result ≡ length flags.now }
    ensures out { out.new ≡ put_at 0 (map flag flags.now) out.old }
{
    let mut at = 0;
    for is_set in flags {
        at = put(out, at, &[byte_of(*is_set)]);
    }
    at
}

/// Tells how many bytes there are, and whether there was room for all of them.
pub fn tell_length(length: usize, room: usize, len: &mut usize) -> Status
    ensures status { result ≡ (if ltb room length then ShortBuffer else Done) }
    ensures len { len.new ≡ length }
{
    *len = length;
    if room < length {
        Status::ShortBuffer
    } else {
        Status::Done
    }
}
