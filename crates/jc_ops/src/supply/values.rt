//! The values of one step, each an owner of its bytes, made before any change.
ghost use Rattle.std.specs.Prelude.{◌≡◌, ℕ, List, true, Some, option_map, IfOk};
ghost use Rattle.jc_model.specs.State.{Item};
ghost use Rattle.jc_ops.specs.Shelf.{has_row};
ghost use Rattle.jc_ops.specs.Kept.{key_row, FoundRow};
ghost use Rattle.jc_ops.specs.Lines.{takes_value};
ghost use Rattle.jc_ops.specs.Supply.{CoversIn, CoversLoaded, CoversVerdict, CoversAnswerIn};

use crate::step::KeyStep;
use crate::stored::Stored;
use crate::supply::needs::{handed, handed_by, is_invoke, shows, stored_by, stored_now};
use crate::visit::Visit;
use jc_model::OutOfMemory;
use jc_model::call::{Answer, KeyCall, Op, Verdict};
use jc_model::config::CacheConfig;
use jc_model::owners::Owners;
use jc_model::table::{Replied, absent_line};
use jc_model::value::Value;
use jc_ring::ring::Ring;
use jc_rows::rows::Rows;

/// The values of one step.
#[derive(Default, Drop)]
pub struct Values {
    /// What the step stores.
    pub stored: Option<Stored>,
    /// What the step replies.
    pub shown: Option<Owners<Value>>,
    /// What the writer is given, or the processor as its argument.
    pub copy: Option<Value>,
    /// What the processor is given as the value of its entry.
    pub entry: Option<Value>,
}

/// Owners of what is replied, if a value is.
fn to_show(value: Option<&Value>) -> Result<Option<Owners<Value>>, OutOfMemory>
    ensures { IfOk result (λ shown. shown ≡ option_map (λ v. v.now) value.entry) }
{
    match value {
        None => Ok(None),
        Some(value) => {
            let shown = Owners::of(value)?;
            Ok(Some(shown))
        }
    }
}

/// A copy of what a hook is given, if it is given a value.
fn to_hand(value: Option<&Value>) -> Result<Option<Value>, OutOfMemory>
    ensures { IfOk result (λ copy. copy ≡ option_map (λ v. v.now) value.entry) }
{
    match value {
        None => Ok(None),
        Some(value) => {
            let copy = value.share()?;
            Ok(Some(copy))
        }
    }
}

/// The value of a key's row, where it is wanted.
fn value_if<'a, R: Rows, G: Ring>(
    visit: &'a Visit<R, G>,
    row: Option<u32>,
    wanted: bool,
) -> Option<&'a Value>
    requires there { wanted ≡ true → (r : ℕ) → row ≡ Some r →
        has_row r visit.now.cache.cells ≡ true }
    ensures { wanted ≡ true → (key : List ℕ) (x : Item) → FoundRow key visit.now.cache row →
        key_row visit.now.cache key ≡ Some x → option_map (λ v. v.now) result ≡ Some x.value }
{
    if !wanted {
        return None;
    }
    match row {
        None => None,
        Some(row) => Some(visit.value(row).first()),
    }
}

impl Values {
    /// The values of a step that stores at once, or that asks its writer first: then the writer alone is given a copy.
    /// The key's row is wanted only where a value of it is taken.
    pub fn for_call<R: Rows, G: Ring>(
        visit: &Visit<R, G>,
        row: Option<u32>,
        call: &KeyCall,
        writer: bool,
    ) -> Result<Values, OutOfMemory>
        requires row { takes_value call.now.op ≡ true →
            FoundRow call.now.key visit.now.cache row }
        ensures { IfOk result (λ s. CoversIn writer visit.now call.now s) }
    {
        let copy = to_hand(handed(&call.op, writer))?;
        let entry = to_hand(value_if(visit, row, is_invoke(&call.op)))?;
        let shown = to_show(value_if(visit, row, shows(&call.op)))?;
        let stored = Stored::of_any(visit.config(), stored_now(&call.op, writer))?;
        Ok(Values {
            stored,
            shown,
            copy,
            entry,
        })
    }

    /// The values for a loader's answer: to store and reply for a line that loads, to hand on for a processor's step.
    fn loaded(config: &CacheConfig, op: &Op, loaded: Option<&Value>) -> Result<Values, OutOfMemory>
        ensures { IfOk result (λ s.
            CoversLoaded config.now op.now (option_map (λ v. v.now) loaded.entry) s) }
    {
        if is_invoke(op) {
            let entry = to_hand(loaded)?;
            let copy = to_hand(handed(op, false))?;
            return Ok(Values {
                stored: None,
                shown: None,
                copy,
                entry,
            });
        }
        let shown = matches!(absent_line(op).reply, Replied::Shown);
        let shown = to_show(if shown { loaded } else { None })?;
        let stored = Stored::of_any(config, loaded)?;
        Ok(Values {
            stored,
            shown,
            copy: None,
            entry: None,
        })
    }

    /// The values for a verdict, where the loader gave `loaded`. Where the writer is asked first, it alone is given a
    /// copy.
    fn judged(
        config: &CacheConfig,
        loaded: Option<&Value>,
        verdict: &Verdict,
        writer: bool,
    ) -> Result<Values, OutOfMemory>
        ensures { IfOk result (λ s.
            CoversVerdict writer config.now (option_map (λ v. v.now) loaded.entry) verdict.now s) }
    {
        let copy = to_hand(handed_by(&verdict.action, writer))?;
        let shown = to_show(verdict.answer.as_ref())?;
        let stored = Stored::of_any(config, stored_by(&verdict.action, loaded, writer))?;
        Ok(Values {
            stored,
            shown,
            copy,
            entry: None,
        })
    }

    /// The values for the answer to a step that waits, where its key has this row.
    pub(super) fn at<R: Rows, G: Ring>(
        visit: &Visit<R, G>,
        row: Option<u32>,
        step: &KeyStep,
        answer: &Answer,
    ) -> Result<Values, OutOfMemory>
        requires row { FoundRow step.now.call.key visit.now.cache row }
        ensures { IfOk result (λ s. CoversAnswerIn visit.now step.entry.now answer.now s) }
    {
        let config = visit.config();
        let loaded = step.loaded();
        match answer {
            Answer::Written => match step.verdict() {
                None => Values::for_call(visit, row, step.call(), false),
                Some(verdict) => Values::judged(config, loaded, verdict, false),
            },
            Answer::Loaded(value) => Values::loaded(config, &step.call().op, value.as_ref()),
            Answer::Processed(Ok(verdict)) => {
                Values::judged(config, loaded, verdict, config.writer)
            }
            _ => Ok(Values::default()),
        }
    }
}
