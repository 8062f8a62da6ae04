//! The table of a replay as text.
ghost use Rattle.std.specs.Prelude.{◌≡◌, ◌++◌, IfOk, OnOk, string_bytes, decimal};
ghost use Rattle.jc_replay.specs.Table.{number_cell, hundredths, percent_text, line_text, table_text};

use crate::ratio::HitRatio;
use std::alloc::{AllocError, Global};

fn push_number(alloc: Global, text: &mut String, number: u64) -> Result<(), AllocError>
    ensures { OnOk result (string_bytes text.new ≡ string_bytes text.old ++ decimal number) }
{
    text.push_str(number.to_string(alloc)?.as_str())
}

/// Adds a number, and a space behind it.
fn push_spaced(alloc: Global, text: &mut String, number: u32) -> Result<(), AllocError>
    ensures { OnOk result (string_bytes text.new ≡ string_bytes text.old ++ number_cell number) }
{
    push_number(alloc, text, u64::from(number))?;
    text.push_str(" ")
}

/// Hundredths of a percent, rounded down; of no lookups 0.
pub(crate) fn hundredths(ratio: &HitRatio) -> u64
    ensures { result ≡ hundredths ratio.now }
{
    let lookups = u64::from(ratio.lookups);
    u64::from(ratio.hits) * 10_000 / lookups.max(1)
}

/// Adds so many hundredths of a percent as percent.
fn push_percent(alloc: Global, text: &mut String, number: u64) -> Result<(), AllocError>
    ensures { OnOk result (string_bytes text.new ≡ string_bytes text.old ++ percent_text number) }
{
    push_number(alloc, text, number / 100)?;
    text.push_str(".")?;
    push_number(alloc, text, number / 10 % 10)?;
    push_number(alloc, text, number % 10)
}

fn push_line(alloc: Global, text: &mut String, ratio: &HitRatio) -> Result<(), AllocError>
    ensures { OnOk result (string_bytes text.new ≡ string_bytes text.old ++ line_text ratio.now) }
{
    push_spaced(alloc, text, ratio.capacity)?;
    push_spaced(alloc, text, ratio.lookups)?;
    push_spaced(alloc, text, ratio.hits)?;
    push_percent(alloc, text, hundredths(ratio))?;
    text.push_str("\n")
}

/// A line for each, below a line that names the columns: capacity, lookups, hits, and these in percent of the lookups,
/// with two decimals, rounded down (`0.00` where there were no lookups).
pub fn table_text(alloc: Global, ratios: &[HitRatio]) -> Result<String, AllocError>
    ensures { IfOk result (λ text. string_bytes text ≡ table_text ratios.now) }
{
    let mut text = String::new(alloc);
    text.push_str("capacity lookups hits percent\n")?;
    for ratio in ratios {
        push_line(alloc, &mut text, ratio)?;
    }
    Ok(text)
}
