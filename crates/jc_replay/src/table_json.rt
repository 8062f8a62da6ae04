//! The table of a replay as JSON.
ghost use Rattle.std.specs.Prelude.{◌≡◌, IfOk, string_bytes};
ghost use Rattle.jc_replay.specs.TableJson.{ratio_text, in_braces, row_text, json_line, json_table};

use crate::ratio::HitRatio;
use crate::table::hundredths;
use std::alloc::{AllocError, Global};

/// Hits by lookups with four decimals, rounded down; `null` where there were no lookups.
fn ratio_text(alloc: Global, ratio: &HitRatio) -> Result<String, AllocError>
    ensures { IfOk result (λ s. string_bytes s ≡ ratio_text ratio.now) }
{
    if ratio.lookups == 0 {
        return String::from_str(alloc, "null");
    }
    let parts = hundredths(ratio);
    format!(in alloc;
        "{}.{}{}{}{}",
        parts / 10_000,
        parts / 1000 % 10,
        parts / 100 % 10,
        parts / 10 % 10,
        parts % 10
    )
}

fn in_braces(alloc: Global, row: &str) -> Result<String, AllocError>
    ensures { IfOk result (λ s. string_bytes s ≡ in_braces row.now) }
{
    let (open, close) = ("{", "}");
    format!(in alloc; "{open}{row}{close}\n")
}

fn row_text(
    alloc: Global,
    ratio: &HitRatio,
    misses: u32,
    hit_ratio: &str,
) -> Result<String, AllocError>
    ensures { IfOk result (λ s. string_bytes s ≡ row_text ratio.now misses hit_ratio.now) }
{
    let HitRatio {
        capacity,
        lookups,
        hits,
    } = *ratio;
    format!(in alloc;
        "\"capacity\":{capacity},\"lookups\":{lookups},\"hits\":{hits},\"misses\":{misses},\"hit_ratio\":{hit_ratio}"
    )
}

fn json_line(alloc: Global, ratio: &HitRatio) -> Result<String, AllocError>
    ensures { IfOk result (λ s. string_bytes s ≡ json_line ratio.now) }
{
    let hit_ratio = ratio_text(alloc, ratio)?;
    let misses = ratio.lookups.saturating_sub(ratio.hits);
    let row = row_text(alloc, ratio, misses, hit_ratio.as_str())?;
    in_braces(alloc, row.as_str())
}

/// An object a line for each: capacity, lookups, hits, misses, and hits by lookups with four decimals, rounded down
/// (`null` where there were no lookups).
pub fn json_table(alloc: Global, ratios: &[HitRatio]) -> Result<String, AllocError>
    ensures { IfOk result (λ text. string_bytes text ≡ json_table ratios.now) }
{
    let mut text = String::new(alloc);
    for ratio in ratios {
        text.push_str(json_line(alloc, ratio)?.as_str())?;
    }
    Ok(text)
}
