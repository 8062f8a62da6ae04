//! Steps of a walk over a cache's rows, in order of their numbers, as bytes in the caller's buffer.
ghost use Rattle.std.specs.Prelude.{◌≡◌, ◌<◌, ◌≤◌, ◌+◌, ◌^◌, ◌-◌, ◌++◌, length};
ghost use Rattle.jc_model.specs.Places.{at_place};
ghost use Rattle.jc_engine.specs.Caches.{row_in};
ghost use Rattle.jc_c.specs.Walk.{Gives, head_bytes, row_bytes, row_length, written_at};
ghost use Rattle.jc_c.specs.Walk.{length_at_end, number_at_end, status_at_end};
ghost use Rattle.jc_c.specs.Walk.{WalkTells, rows_from, walked_by};
ghost use Rattle.jc_c.specs.Walk.{bytes_walked, laid_over, length_walked, number_walked};
ghost use Rattle.jc_c.specs.Walk.{walk_status, walked};

use crate::ffi_manager::FfiManager;
use crate::looks::moment_of;
use crate::status::Status;
use jc_model::event::CacheId;
use jc_ops::slots::Record;

/// How many bytes of a row stand before its key.
const HEAD: usize = 11;

/// How far a step has come: how many bytes it has written, and the number to go on from.
#[derive(Clone, Copy)]
pub struct Way {
    pub place: usize,
    pub next: u32,
}

impl Way {
    /// What the step tells where it stops: the next row takes so many bytes and does not fit, or
    /// there is none.
    fn stop(self, wanted: Option<usize>, len: &mut usize, next: &mut u32) -> Status
        ensures status { result ≡ status_at_end self wanted }
        ensures len { len.new ≡ length_at_end self wanted len.old }
        ensures next { next.new ≡ number_at_end self next.old }
    {
        if self.place > 0 {
            *len = self.place;
            *next = self.next;
            return Status::Listed;
        }
        match wanted {
            Some(wanted) => {
                *len = wanted;
                Status::ShortBuffer
            }
            None => Status::Nothing,
        }
    }
}

/// How many bytes a row takes.
fn length_of(row: &Record) -> usize
    ensures { result ≡ row_length row.now }
{
    HEAD + (row.key.text().len() + row.value.first().bytes().len())
}

/// The first bytes of a row: when it expires, and how many bytes its key and its value have.
fn head_of(row: &Record) -> [u8; HEAD]
    ensures { result ≡ head_bytes row.now }
{
    let moment = moment_of(row.expiry).to_le_bytes();
    let key = row.key.text().len() as u8;
    let value = (row.value.first().bytes().len() as u16).to_le_bytes();
    [
        moment[0], moment[1], moment[2], moment[3], moment[4], moment[5], moment[6], moment[7],
        key, value[0], value[1],
    ]
}

/// Writes bytes in the place of others.
fn write(out: &mut [u8], place: usize, bytes: &[u8])
    requires { place + length bytes.now ≤ length out.old }
    ensures { out.new ≡ written_at place bytes.now out.old }
{
    out[place..place + bytes.len()].copy_from_slice(bytes);
}

/// Writes a row's parts, one behind the other, in the place of other bytes.
fn write_parts(out: &mut [u8], place: usize, head: &[u8], key: &[u8], value: &[u8])
    requires { place + (length head.now + (length key.now + length value.now)) ≤ length out.old }
    ensures { out.new ≡ written_at place (head.now ++ (key.now ++ value.now)) out.old }
{
    write(out, place, head);
    write(out, place + head.len(), key);
    write(out, place + head.len() + key.len(), value);
}

/// Writes a row in the place of other bytes.
fn write_row(out: &mut [u8], place: usize, row: &Record)
    requires { place + row_length row.now ≤ length out.old }
    ensures { out.new ≡ written_at place (row_bytes row.now) out.old }
{
    let head = head_of(row);
    let key = row.key.text().as_bytes();
    let value = row.value.first().bytes();
    write_parts(out, place, &head, key, value);
}

impl FfiManager {
    /// Gives the row of a number, if there is one, behind what was given before. Where it does not
    /// fit there, how many bytes it takes.
    fn give(&self, id: CacheId, number: u32, out: &mut [u8], way: Way) -> Result<Way, usize>
        requires below { number < 2 ^ 32 - 1 }
        requires within { way.place ≤ length out.old }
        ensures { Gives (row_in number (at_place self.now.caches id)) number way out.old
            result out.new }
    {
        let Some(row) = self.engine.row(id, number) else {
            return Ok(way);
        };
        let wanted = length_of(row);
        if out.len() - way.place < wanted {
            return Err(wanted);
        }
        write_row(out, way.place, row);
        Ok(Way {
            place: way.place + wanted,
            next: number + 1,
        })
    }

    /// Gives the rows of a cache of this capacity from a number on.
    fn walk_rows(
        &self,
        id: CacheId,
        capacity: u32,
        from: u32,
        out: &mut [u8],
        len: &mut usize,
        next: &mut u32,
    ) -> Status
        ensures { WalkTells (walked_by (length out.old)
            (rows_from (at_place self.now.caches id) from (capacity - from)))
            from out.old len.old next.old result out.new len.new next.new }
    {
        let mut way = Way {
            place: 0,
            next: from,
        };
        for number in from..capacity {
            match self.give(id, number, out, way) {
                Ok(further) => way = further,
                Err(wanted) => return way.stop(Some(wanted), len, next),
            }
        }
        way.stop(None, len, next)
    }

    /// Gives the rows of a cache from a number on, expired ones among them: as many whole ones as
    /// fit, in order of their numbers, how many bytes they are, and the number to go on from. Where
    /// the first does not fit, it tells how many bytes that takes.
    pub fn walk(
        &self,
        id: u32,
        from: u32,
        out: &mut [u8],
        len: &mut usize,
        next: &mut u32,
    ) -> Status
        ensures status { result
            ≡ walk_status (walked (length out.old) (at_place self.now.caches id) from) }
        ensures out { out.new ≡ laid_over
            (bytes_walked (walked (length out.old) (at_place self.now.caches id) from)) out.old }
        ensures len { len.new ≡ length_walked
            (walked (length out.old) (at_place self.now.caches id) from) len.old }
        ensures next { next.new ≡ number_walked
            (walked (length out.old) (at_place self.now.caches id) from) from next.old }
    {
        let id = CacheId::new(id);
        match self.engine.config(id) {
            Some(config) => self.walk_rows(id, config.capacity, from, out, len, next),
            None => Status::NoSuchCache,
        }
    }
}
