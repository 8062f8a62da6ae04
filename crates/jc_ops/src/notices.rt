//! The notices of one call, in places that were made before any change.
ghost use Rattle.std.specs.Prelude.{◌≡◌, ◌+◌, ◌≤◌, [], length, eqb, OnOk, OnErr, IsOk};
ghost use Rattle.jc_ops.specs.Noted.{HasPlaces, LacksPlaces, notice_of, told_after};

use jc_model::OutOfMemory;
use jc_model::call::{Kind, Notice};
use jc_model::config::CacheConfig;
use jc_model::key::Key;
use jc_model::list::Sequence;
use jc_model::owners::Owners;
use jc_model::value::Value;
use std::alloc::Global;
use std::marker::Model;

/// What happened to a row, with its value after and before.
#[derive(Drop)]
pub(crate) struct Happening {
    pub(crate) kind: Kind,
    pub(crate) key: Key,
    pub(crate) value: Option<Owners<Value>>,
    pub(crate) before: Option<Owners<Value>>,
}

/// The notices so far, kept twice: one list is told to the listeners, the other goes into the transcript.
#[derive(Drop)]
pub struct Notices {
    told: Vec<Notice>,
    kept: Vec<Notice>,
}

impl Model for Notices {
    ghost use Rattle.std.specs.Prelude.{◌≡◌, ◌-◌, min};
    ghost use Rattle.std.specs.Vec.{vec_len, vec_capacity};
    ghost use Rattle.jc_ops.specs.Noted.{Noted};

    ghost Value = { Noted };

    ghost view = { λ n. record {
      told = n.told.items;
      spare = min (vec_capacity n.told) (vec_capacity n.kept) - vec_len n.told;
    } };

    ghost invariant = { λ n. n.kept.items ≡ n.told.items };
}

impl Notices {
    /// No notices, and no place for any. This takes no memory.
    pub fn none(alloc: Global) -> Notices
        ensures { result.told ≡ [] }
    {
        Notices {
            told: Vec::new(alloc),
            kept: Vec::new(alloc),
        }
    }

    /// Makes places for so many more where the cache has listeners. Where memory runs out, the notices and their places
    /// stay, and the places are fewer than that.
    pub fn reserve_for(&mut self, config: &CacheConfig, more: usize) -> Result<(), OutOfMemory>
        ensures told { self.new.told ≡ self.old.told }
        ensures places { OnOk result (HasPlaces config.now more self.new) }
        ensures refused { OnErr result (LacksPlaces config.now more self.new) }
        ensures kept { self.old.spare ≤ self.new.spare }
        ensures succeeds { HasPlaces config.now more self.old → IsOk result }
    {
        if config.listeners == 0 {
            return Ok(());
        }
        self.told.reserve(more)?;
        self.kept.reserve(more)?;
        Ok(())
    }

    /// Whether there are none.
    pub fn is_empty(&self) -> bool
        ensures { result ≡ eqb (length self.now.told) 0 }
    {
        self.told.is_empty()
    }

    /// Adds the notice of what happened where the cache has listeners. It needs a place, and takes no memory.
    pub(crate) fn note_for(&mut self, config: &CacheConfig, happening: Happening)
        requires { HasPlaces config.now 1 self.old }
        ensures told { self.new.told ≡ told_after config.now
            (notice_of happening.kind happening.key happening.value happening.before)
            self.old.told }
        ensures spare { self.old.spare ≤ self.new.spare + 1 }
    {
        if config.listeners > 0 {
            let (value, kept_value) = two(happening.value);
            let (before, kept_before) = two(happening.before);
            self.told.push_reserved(Notice {
                kind: happening.kind,
                key: happening.key,
                value,
                before,
            });
            self.kept.push_reserved(Notice {
                kind: happening.kind,
                key: happening.key,
                value: kept_value,
                before: kept_before,
            });
        }
    }

    /// The notices, twice.
    pub fn into_lists(self) -> (Sequence<Notice>, Sequence<Notice>)
        ensures told { result.0 ≡ self.told }
        ensures kept { result.1 ≡ self.told }
    {
        let Notices { told, kept } = self;
        (Sequence::new(told), Sequence::new(kept))
    }
}

/// Two of a value's copies, where there is one.
fn two(value: Option<Owners<Value>>) -> (Option<Value>, Option<Value>)
    ensures first { result.0 ≡ value }
    ensures second { result.1 ≡ value }
{
    let Some(value) = value else {
        return (None, None);
    };
    let (first, second, _) = value.into_three();
    (Some(first), Some(second))
}
