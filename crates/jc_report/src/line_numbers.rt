//! The lines of a script, each with its number, and what it asks for.
ghost use Rattle.std.specs.Prelude.{◌≡◌, IfOk, map};
ghost use Rattle.jc_report.specs.Outline.{asked_of_line, piece_numbers_from, numbered_lines, outline_of};

use jc_model::event::CacheId;
use jc_script::{Line, is_blank, pieces};
use std::alloc::{AllocError, Global};

/// What a line of a script asks for.
#[derive(Clone, Copy, Debug, PartialEq, Eq)]
pub enum Asked {
    /// A call by a session on the cache with this id.
    Call { session: u32, id: CacheId },
    /// A cache more.
    Create,
    /// The end of the cache with this id.
    Destroy { id: CacheId },
}

/// A line, with its number in the script, from 1.
#[derive(Clone, Copy, Debug, PartialEq, Eq)]
pub struct NumberedLine {
    pub number: usize,
    pub asked: Asked,
}

fn asked_by(line: &Line) -> Asked
    ensures { result ≡ asked_of_line line.now }
{
    match line {
        Line::Call(call) => Asked::Call {
            session: call.session,
            id: call.id,
        },
        Line::Create { .. } => Asked::Create,
        Line::Destroy { id, .. } => Asked::Destroy { id: *id },
    }
}

/// The numbers of the pieces that are not blank, from 1.
fn numbers(alloc: Global, pieces: &[&[u8]]) -> Result<Vec<usize>, AllocError>
    ensures { IfOk result (λ v. v.items
        ≡ piece_numbers_from 1 (map (λ piece. piece.now) pieces.now)) }
{
    let mut numbers = Vec::new(alloc);
    for (i, piece) in pieces.iter().enumerate() {
        if !is_blank(piece) {
            numbers.push(i + 1)?;
        }
    }
    Ok(numbers)
}

/// Each line with its number; as many as there are of both.
fn number_lines(
    alloc: Global,
    numbers: &[usize],
    lines: &[Line],
) -> Result<Vec<NumberedLine>, AllocError>
    ensures { IfOk result (λ v. v.items ≡ numbered_lines numbers.now lines.now) }
{
    let mut all = Vec::new(alloc);
    for (i, line) in lines.iter().enumerate() {
        if i >= numbers.len() {
            return Ok(all);
        }
        all.push(NumberedLine {
            number: numbers[i],
            asked: asked_by(line),
        })?;
    }
    Ok(all)
}

/// The lines of a script with these bytes, each with its number. Lines are counted as they are where faults are told:
/// from 1, blank ones among them.
#[tactic(auto, unfolding(crate::specs::Outline::outline_of))]
pub fn outline(alloc: Global, bytes: &[u8], lines: &[Line]) -> Result<Vec<NumberedLine>, AllocError>
    ensures { IfOk result (λ v. v.items ≡ outline_of bytes.now lines.now) }
{
    let pieces = pieces(alloc, bytes)?;
    let numbers = numbers(alloc, pieces.as_slice())?;
    number_lines(alloc, numbers.as_slice(), lines)
}
