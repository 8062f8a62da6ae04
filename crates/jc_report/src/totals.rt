//! The objects of lives.
ghost use Rattle.std.specs.Prelude.{◌≡◌, ◌∷◌, [], ◌/◌, ◌*◌, ◌+◌, ◌<◌, None, option_copied, OnOk};
ghost use Rattle.jc_engine.specs.Opening.{open_refusal};
ghost use Rattle.jc_model.specs.Legal.{IsLegalFrom};
ghost use Rattle.jc_model.specs.Runs.{fresh};
ghost use Rattle.jc_report.specs.Report.{Appends, group};
ghost use Rattle.jc_report.specs.Totals.{four_digits, fraction_json, ratio_json, life_json, total_json, lives_json, entries_lent, CanBeMadeAgain};

use crate::counters::counts_after;
use crate::replies::push_other_counters;
use crate::values::{push_first, push_next, push_number_member, push_text};
use crate::{grouped, push_number};
use jc_model::call::Counts;
use jc_model::event::{Entry, Life};
use std::alloc::{AllocError, Global};

fn push_digits(text: &mut String, number: u64) -> Result<(), AllocError>
    ensures { OnOk result (Appends (four_digits number) text.old text.new) }
{
    push_number(text, number / 1_000 % 10)?;
    push_number(text, number / 100 % 10)?;
    push_number(text, number / 10 % 10)?;
    push_number(text, number % 10)
}

/// Adds so many ten-thousandths.
fn push_fraction(text: &mut String, number: u64) -> Result<(), AllocError>
    ensures { OnOk result (Appends (fraction_json number) text.old text.new) }
{
    push_number(text, number / 10_000)?;
    text.push_str(".")?;
    push_digits(text, number)
}

/// Ten-thousandths that the hits are of what was looked up, rounded down.
fn ten_thousandths(hits: u64, misses: u64) -> u64
    requires { 0 < hits + misses }
    ensures { result ≡ hits * 10000 / (hits + misses) }
{
    let lookups = u128::from(hits) + u128::from(misses);
    (u128::from(hits) * 10_000 / lookups) as u64
}

/// Adds the hits in what was looked up.
#[tactic(auto, unfolding(crate::specs::Totals::ratio_json))]
fn push_ratio(text: &mut String, hits: u64, misses: u64) -> Result<(), AllocError>
    ensures { OnOk result (Appends (ratio_json hits misses) text.old text.new) }
{
    if hits == 0 && misses == 0 {
        return text.push_str("null");
    }
    push_fraction(text, ten_thousandths(hits, misses))
}

/// Adds the object of a life with these counters.
#[tactic(auto, unfolding(crate::specs::Totals::life_json))]
fn push_life(
    alloc: Global,
    text: &mut String,
    life: &Life,
    counts: &Counts,
) -> Result<(), AllocError>
    ensures { OnOk result (Appends (life_json life.now counts.now) text.old text.new) }
{
    push_first(text, "cache")?;
    push_text(alloc, text, life.config.name.text())?;
    push_number_member(text, "id", u64::from(life.id.number()))?;
    push_number_member(text, "hits", counts.hits)?;
    push_other_counters(text, counts)?;
    push_next(text, "hit_ratio")?;
    push_ratio(text, counts.hits, counts.misses)?;
    text.push_str("}\n")
}

/// Adds the object of a life with these calls.
fn push_total(
    alloc: Global,
    seed: u64,
    text: &mut String,
    life: &Life,
    entries: &[&Entry],
) -> Result<(), AllocError>
    requires opens { open_refusal (life.now.config ∷ []) ≡ None }
    requires legal { IsLegalFrom life.now.config fresh (entries_lent entries.now) }
    ensures { OnOk result (Appends (total_json life.now (entries_lent entries.now))
        text.old text.new) }
{
    let counts = counts_after(alloc, seed, &life.config, entries)?;
    push_life(alloc, text, life, &counts)
}

/// The same, where the calls are grouped; a life that is in no group has none.
fn push_grouped(
    alloc: Global,
    seed: u64,
    text: &mut String,
    life: &Life,
    entries: Option<&Vec<&Entry>>,
) -> Result<(), AllocError>
    requires opens { open_refusal (life.now.config ∷ []) ≡ None }
    requires legal { IsLegalFrom life.now.config fresh (group (option_copied entries)) }
    ensures { OnOk result (Appends (total_json life.now (group (option_copied entries.entry)))
        text.old text.new) }
{
    match entries {
        Some(group) => push_total(alloc, seed, text, life, group.as_slice()),
        None => push_total(alloc, seed, text, life, &[]),
    }
}

/// Adds the objects of all lives, in order of id. The seed picks places in tables, and changes nothing of the text.
pub fn push_lives(
    alloc: Global,
    seed: u64,
    text: &mut String,
    lives: &[Life],
    entries: &[Entry],
) -> Result<(), AllocError>
    requires { CanBeMadeAgain lives.now entries.now }
    ensures { OnOk result (Appends (lives_json lives.now entries.now) text.old text.new) }
{
    let groups = grouped(alloc, entries)?;
    for life in lives {
        let id = life.id.number() as usize;
        push_grouped(alloc, seed, text, life, groups.get(&id))?;
    }
    Ok(())
}
