//! A few bytes that are made before they are written.
ghost use Rattle.std.specs.Prelude.{◌≡◌, ◌≤◌, ◌<◌, ◌+◌, ◌^◌, ◌++◌, ◌∷◌, [], length, map};
ghost use Rattle.jc_save.specs.Placing.{put_at, piece_bytes};
ghost use Rattle.jc_save.specs.Spelling.{flag};

use std::marker::Model;

/// The most bytes of a piece.
const PIECE_BYTES: usize = 96;

/// At most 96 bytes, which take no memory.
#[derive(Drop)]
pub struct Piece {
    bytes: [u8; PIECE_BYTES],
    length: usize,
}

impl Model for Piece {
    ghost use Rattle.std.specs.Prelude.{List, ℕ, ◌≤◌, take};
    ghost use Rattle.jc_save.specs.Placing.{piece_bytes};

    ghost Value = { List ℕ };

    ghost view = { λ p. take p.length p.bytes };

    ghost invariant = { λ p. p.length ≤ piece_bytes };
}

impl Piece {
    /// No bytes.
    pub fn new() -> Piece
        ensures { result ≡ [] }
    {
        Piece {
            bytes: [0; PIECE_BYTES],
            length: 0,
        }
    }

    /// Adds bytes at the end.
    pub fn push(&mut self, bytes: &[u8])
        requires { length self.old + length bytes.now ≤ piece_bytes }
        ensures bytes { self.new ≡ self.old ++ bytes.now }
        ensures length { length self.new ≡ length self.old + length bytes.now }
    {
        let end = self.length + bytes.len();
        self.bytes[self.length..end].copy_from_slice(bytes);
        self.length = end;
    }

    /// Adds 1, or 0.
    pub fn push_flag(&mut self, b: bool)
        requires { length self.old + 1 ≤ piece_bytes }
        ensures bytes { self.new ≡ self.old ++ flag b ∷ [] }
        ensures length { length self.new ≡ length self.old + 1 }
    {
        if b {
            self.push(&[1]);
        } else {
            self.push(&[0]);
        }
    }

    /// The bytes.
    pub fn bytes(&self) -> &[u8]
        ensures same { result.now ≡ self.now }
        ensures few { length self.now ≤ piece_bytes }
    {
        &self.bytes[..self.length]
    }
}

/// Writes bytes into `out` from a place on, as many as there is room for, and tells the place behind the last.
pub fn put(out: &mut [u8], at: usize, bytes: &[u8]) -> usize
    requires { at + length bytes.now < 2 ^ 64 }
    ensures place { result ≡ at + length bytes.now }
    ensures out { out.new ≡ put_at at bytes.now out.old }
{
    let end = at + bytes.len();
    let room = out.len();
    if end <= room {
        out[at..end].copy_from_slice(bytes);
    } else if at < room {
        out[at..].copy_from_slice(&bytes[..room - at]);
    }
    end
}
