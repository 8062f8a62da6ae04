//! Fields of a few bytes, from the front of what is left.
ghost use Rattle.std.specs.Prelude.{◌≡◌, length, IfOk};
ghost use Rattle.std.specs.Int.{w16, w32, w64};
ghost use Rattle.jc_save.specs.Reading.{byte_at, number_at, text_at, flag_at};
ghost use Rattle.jc_save.specs.Restoring.{Gives};

use crate::fault::{Flaw, Stop, flawed};

#[tactic(auto, unfolding(crate::specs::Reading::byte_at))]
pub fn byte_at(bytes: &[u8]) -> Result<(u8, &[u8]), Stop>
    ensures { Gives (λ x. (x.0, x.1.now)) result (byte_at bytes.now) }
{
    match bytes {
        [] => Err(flawed(Flaw::Cut, bytes)),
        [byte, rest @ ..] => Ok((*byte, rest)),
    }
}

#[tactic(auto, unfolding(crate::specs::Reading::number_at))]
pub fn u16_at(bytes: &[u8]) -> Result<(u16, &[u8]), Stop>
    ensures { Gives (λ x. (x.0, x.1.now)) result (number_at w16 bytes.now) }
{
    if bytes.len() < 2 {
        return Err(flawed(Flaw::Cut, bytes));
    }
    let (front, rest) = bytes.split_at(2);
    let number = u16::from_le_bytes([front[0], front[1]]);
    Ok((number, rest))
}

#[tactic(auto, unfolding(crate::specs::Reading::number_at))]
pub fn u32_at(bytes: &[u8]) -> Result<(u32, &[u8]), Stop>
    ensures { Gives (λ x. (x.0, x.1.now)) result (number_at w32 bytes.now) }
{
    if bytes.len() < 4 {
        return Err(flawed(Flaw::Cut, bytes));
    }
    let (front, rest) = bytes.split_at(4);
    let number = u32::from_le_bytes([front[0], front[1], front[2], front[3]]);
    Ok((number, rest))
}

#[tactic(auto, unfolding(crate::specs::Reading::number_at))]
pub fn u64_at(bytes: &[u8]) -> Result<(u64, &[u8]), Stop>
    ensures { Gives (λ x. (x.0, x.1.now)) result (number_at w64 bytes.now) }
{
    if bytes.len() < 8 {
        return Err(flawed(Flaw::Cut, bytes));
    }
    let (front, rest) = bytes.split_at(8);
    let number = u64::from_le_bytes([
        front[0], front[1], front[2], front[3], front[4], front[5], front[6], front[7],
    ]);
    Ok((number, rest))
}

/// So many bytes, and those behind them.
#[tactic(auto, unfolding(crate::specs::Reading::text_at))]
pub fn text_at(count: usize, bytes: &[u8]) -> Result<(&[u8], &[u8]), Stop>
    ensures read { Gives (λ x. (x.0.now, x.1.now)) result (text_at count bytes.now) }
    ensures length { IfOk result (λ x. length x.0.now ≡ count) }
{
    if bytes.len() < count {
        return Err(flawed(Flaw::Cut, bytes));
    }
    Ok(bytes.split_at(count))
}

#[tactic(auto, unfolding(crate::specs::Reading::flag_at))]
pub fn flag_at(bytes: &[u8]) -> Result<(bool, &[u8]), Stop>
    ensures { Gives (λ x. (x.0, x.1.now)) result (flag_at bytes.now) }
{
    match bytes {
        [] => Err(flawed(Flaw::Cut, bytes)),
        [0, rest @ ..] => Ok((false, rest)),
        [1, rest @ ..] => Ok((true, rest)),
        [_, ..] => Err(flawed(Flaw::Flag, bytes)),
    }
}
