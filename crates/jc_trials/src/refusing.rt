//! Mirrors and a table that find no memory when a test says so, or note what they are told.
ghost use Rattle.std.specs.Prelude.{min};

use crate::log::{Log, Text};
use jc_cuckoo::held::Held;
use jc_cuckoo::mirror::Mirror;
use jc_model::OutOfMemory;
use jc_model::config::Expiry;
use jc_model::event::CacheId;
use jc_model::key::Key;
use jc_rows::rows::Rows;
use std::alloc::AllocError;

/// It takes no larger table so many times, as if memory were refused.
#[derive(Clone, Copy, Debug, Drop)]
pub struct RefusingMirror {
    pub refusals: u32,
}

impl Mirror for RefusingMirror {
    ghost use Rattle.std.specs.Prelude.{None};

    ghost images = { λ mirror. None };

    ghost placing = { λ mirror id key. record { first = 0; tag = 1 } };

    fn commit(&mut self, _writes: &[(u32, Option<Held>)], _stash: u32) {}

    fn grow(&mut self, _slots: &[Option<Held>], _stash: u32) -> Result<(), OutOfMemory> {
        if self.refusals == 0 {
            return Ok(());
        }
        self.refusals -= 1;
        Err(AllocError)
    }
}

/// The last two digits of a number.
fn digits(number: u32) -> [u8; 2] {
    let (tens, ones) = (number / 10 % 10, number % 10);
    [b'0' + tens as u8, b'0' + ones as u8]
}

/// It notes each image that it is told: the slots that are emptied, as `07-`, and those that are filled, as `07k`.
#[derive(Drop)]
pub struct NotedMirror {
    pub log: Log,
}

impl Mirror for NotedMirror {
    ghost use Rattle.std.specs.Prelude.{None};

    ghost images = { λ mirror. None };

    ghost placing = { λ mirror id key. record { first = 0; tag = 1 } };

    fn commit(&mut self, writes: &[(u32, Option<Held>)], _stash: u32) {
        let mut text = Text::of(b"");
        for (slot, held) in writes {
            if held.is_none() {
                text = text.and(&digits(*slot)).and(b"-");
            }
        }
        for (slot, held) in writes {
            if let Some(held) = held {
                text = text.and(&digits(*slot)).and(held.key.text().as_bytes());
            }
        }
        self.log.note(text);
    }

    fn grow(&mut self, _slots: &[Option<Held>], _stash: u32) -> Result<(), OutOfMemory> {
        self.log.note(Text::of(b"grows"));
        Ok(())
    }
}

/// Another table, which refuses room that it has not made, and makes it when it is asked again.
#[derive(Drop)]
pub struct RefusingRows<R> {
    rows: R,
    room: usize,
    /// Whether it refused when it was last asked for more.
    has_refused: bool,
    refusals: u32,
}

impl<R: Rows> RefusingRows<R> {
    ghost use Rattle.std.specs.Prelude.{◌≡◌};

    /// A table that has made no room yet.
    pub fn new(rows: R) -> RefusingRows<R>
        ensures { R.contents result.rows ≡ R.contents rows }
    {
        RefusingRows {
            rows,
            room: 0,
            has_refused: false,
            refusals: 0,
        }
    }

    /// How often it has refused.
    pub fn refusals(&self) -> u32 {
        self.refusals
    }
}

impl<R: Rows> Rows for RefusingRows<R> {
    ghost use Rattle.std.specs.Prelude.{min};

    ghost contents = { λ t. R.contents t.rows };

    ghost spare = { λ t. min t.room (R.spare t.rows) };

    fn len(&self) -> usize {
        self.rows.len()
    }

    fn make_room(&mut self, n: usize) -> Result<(), OutOfMemory> {
        let more = n.saturating_sub(self.rows.len());
        if more > self.room && !self.has_refused {
            self.has_refused = true;
            self.refusals = self.refusals.saturating_add(1);
            return Err(AllocError);
        }
        self.rows.make_room(n)?;
        self.has_refused = false;
        self.room = self.room.max(more);
        Ok(())
    }

    fn find(&self, id: CacheId, key: &Key) -> Option<u32> {
        self.rows.find(id, key)
    }

    fn put(&mut self, id: CacheId, key: Key, row: u32, expiry: Expiry) {
        self.rows.put(id, key, row, expiry);
        self.room -= 1;
    }

    fn remove(&mut self, id: CacheId, key: &Key) -> Option<u32> {
        self.rows.remove(id, key)
    }

    fn set_expiry(&mut self, id: CacheId, key: &Key, expiry: Expiry) {
        self.rows.set_expiry(id, key, expiry)
    }
}
