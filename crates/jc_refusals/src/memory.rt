//! All memory that the machine has, held in blocks so that allocations are refused, and let go by little from the end of
//! one. Blocks are taken and not touched, so that they cost addresses alone.
//!
//! The C library gives memory from what was given back of this very size, or else from the least piece that is large
//! enough. So where a single piece is let go, and ever more of it, each allocation of a call is the first that is refused,
//! but for those that fit where the call itself has given memory back, or that come behind room which an earlier try has
//! made and kept.

use crate::trouble::Trouble;
use std::alloc::Global;
use std::mem;

/// How many blocks can be held.
const MOST_BLOCKS: usize = 200_000;

/// The first block that is asked for has so many bytes, a half of what processes can address.
const LARGEST: usize = 1 << 46;

/// Spare blocks, of which ends are let go: how many, and of how many bytes each.
const SPARES: usize = 1024;

const SPARE: usize = 1 << 16;

/// So much of a spare block is never let go: where so little is free, it is kept for its size alone.
const REST: usize = 1 << 12;

/// No more is let go at once.
pub const MOST_LEFT: usize = SPARE / 2;

/// So much is let go for what is not to be refused.
const ENOUGH: usize = SPARE / 4;

/// By how many bytes more is let go each time: no allocation takes less.
pub const STEP: usize = 32;

/// Sizes of which no block is there where all memory is taken.
static PROBES: [usize; 5] = [1, 40, 1000, 10_000, 1 << 20];

/// Memory that is held in blocks.
#[derive(Drop)]
pub struct Memory {
    alloc: Global,
    /// Whether all memory is held. Else others refuse allocations, or nobody does.
    holds_all: bool,
    blocks: Vec<Vec<u8>>,
    /// So many of the blocks are never given back.
    kept: usize,
    spares: Vec<Vec<u8>>,
    /// The spare block whose end is let go next.
    spare: Vec<u8>,
}

impl Memory {
    /// Holds all memory but for the spare blocks.
    ///
    /// `Memory` where too little is there at first, `NotTaken` where some is left when these are held too.
    pub fn new(alloc: Global) -> Result<Memory, Trouble> {
        let mut memory = Memory {
            alloc,
            holds_all: true,
            blocks: Vec::with_capacity(alloc, MOST_BLOCKS)?,
            kept: 0,
            spares: Vec::with_capacity(alloc, SPARES)?,
            spare: Vec::new(alloc),
        };
        memory.take_spares();
        memory.take(LARGEST);
        if memory.is_left() {
            return Err(Trouble::NotTaken);
        }
        memory.kept = memory.blocks.len();
        memory.give_back();
        Ok(memory)
    }

    /// Holds nothing, and takes and lets go nothing.
    pub fn none(alloc: Global) -> Memory {
        Memory {
            alloc,
            holds_all: false,
            blocks: Vec::new(alloc),
            kept: 0,
            spares: Vec::new(alloc),
            spare: Vec::new(alloc),
        }
    }

    /// How often something is tried: until `MOST_LEFT` has been let go for it; twice, where it is others who refuse.
    pub fn most_tries(&self) -> usize {
        if self.holds_all { MOST_LEFT / STEP } else { 2 }
    }

    /// Sees that something was refused at least so often, where all memory is held.
    pub fn see_refused(&self, refusals: u32, least: u32) -> Result<(), Trouble> {
        if self.holds_all && refusals < least {
            Err(Trouble::NotRefused)
        } else {
            Ok(())
        }
    }

    /// Gives back what was taken since it is there.
    pub fn give_back(&mut self) {
        self.spare = Vec::new(self.alloc);
        self.spares.clear();
        self.blocks.truncate(self.kept);
    }

    /// Takes all that is left. `NotTaken` where it does not get it.
    pub fn take_all(&mut self) -> Result<(), Trouble> {
        if !self.holds_all {
            return Ok(());
        }
        self.take_spares();
        self.take(2 * SPARE);
        if self.is_left() {
            Err(Trouble::NotTaken)
        } else {
            Ok(())
        }
    }

    /// Whether there is memory for one more block.
    fn is_left(&self) -> bool {
        let alloc = self.alloc;
        PROBES
            .iter()
            .any(|size| Vec::<u8>::with_capacity(alloc, *size).is_ok())
    }

    /// Takes the spare blocks, as many as there are.
    fn take_spares(&mut self) {
        for _ in 0..SPARES {
            let Ok(block) = Vec::with_capacity(self.alloc, SPARE) else {
                return;
            };
            if self.spares.len() < self.spares.capacity() {
                self.spares.push_reserved(block);
            }
        }
    }

    /// How many blocks more can be held.
    fn places(&self) -> usize {
        self.blocks.capacity().saturating_sub(self.blocks.len())
    }

    /// Holds a block, where there is a place for it.
    fn hold(&mut self, block: Vec<u8>) {
        if self.blocks.len() < self.blocks.capacity() {
            self.blocks.push_reserved(block);
        }
    }

    /// Takes blocks of this size while there are any.
    fn take_blocks(&mut self, size: usize) {
        for _ in 0..self.places() {
            let Ok(block) = Vec::with_capacity(self.alloc, size) else {
                return;
            };
            self.hold(block);
        }
    }

    /// Takes what is left in blocks of this size, then of the half of it, and so on.
    fn take_halves(&mut self, largest: usize) {
        for halvings in 0..usize::BITS {
            let size = largest.wrapping_shr(halvings);
            if size < 32 {
                return;
            }
            self.take_blocks(size);
        }
    }

    /// Takes all that is left, in blocks of at most this size. Small memory that was given back is kept for its size
    /// alone, so blocks of each small size are asked for too.
    fn take(&mut self, largest: usize) {
        self.take_halves(largest);
        for size in (24..largest.min(1064)).step_by(16) {
            self.take_blocks(size);
        }
    }

    /// Begins with the next spare block.
    fn next_spare(&mut self) -> Result<(), Trouble> {
        let Some(next) = self.spares.pop() else {
            return Err(Trouble::NoSpare);
        };
        let last = mem::replace(&mut self.spare, next);
        self.hold(last);
        Ok(())
    }

    /// Lets so many bytes go, in one piece.
    fn let_go(&mut self, bytes: usize) -> Result<(), Trouble> {
        if bytes > MOST_LEFT {
            return Err(Trouble::NoSpare);
        }
        if self.spare.capacity() < REST + bytes {
            self.next_spare()?;
        }
        let rest = self.spare.capacity().saturating_sub(bytes);
        self.spare = Vec::new(self.alloc);
        self.spare = Vec::with_capacity(self.alloc, rest)?;
        Ok(())
    }

    /// Takes all that is left, and then lets go what is enough for anything that is done for a row.
    pub fn leave_enough(&mut self) -> Result<(), Trouble> {
        if !self.holds_all {
            return Ok(());
        }
        self.take(2 * SPARE);
        self.let_go(ENOUGH)
    }

    /// Takes all that is left, and then lets so many bytes go, at most `MOST_LEFT`. They are a few more than were let go
    /// last, where something was refused which has given all back that it took; or none.
    pub fn leave(&mut self, bytes: usize) -> Result<(), Trouble> {
        if !self.holds_all {
            return Ok(());
        }
        if bytes == 0 {
            self.take(2 * SPARE);
            return Ok(());
        }
        self.take(bytes.saturating_mul(2));
        self.let_go(bytes)
    }
}
