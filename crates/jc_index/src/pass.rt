//! A reader of the index.
ghost use Rattle.std.specs.Prelude.{◌≡◌, suc, Bool, true, false, Some, IfOk, IfErr};
ghost use mathlib.Core.List.{IsPrefix};
ghost use Rattle.jc_index.specs.Stripes.{AreReadAtRest};
ghost use Rattle.jc_index.specs.declared.lookup.Lookup.TheVariants.{Sure, Unsure};
ghost use Rattle.jc_index.specs.Indexes.{HasMetIndex, HasSameMeeting};
ghost use Rattle.jc_index.specs.Lookups.{MayBeUnsure, ReadsStripes, found_by};

use crate::lookup::{Lookup, look_up};
use crate::member::Member;
use crate::naming::Naming;
use crate::placed::Placed;
use crate::sought::Sought;
use crate::words::Words;
use jc_model::OutOfMemory;
use jc_model::event::CacheId;
use jc_model::key::Key;
use jc_place::place::Placer;
use std::marker::{Model, PhantomData};

/// What a reader has seen of the index.
#[derive(Drop)]
pub struct Pass<N: Naming, P: Placer + Drop> {
    pub(crate) member: Member<Placed<P>>,
    pub(crate) placer: P,
    pub(crate) buckets: u32,
    pub(crate) met: bool,
    pub(crate) name: PhantomData<N>,
}

impl<N: Naming, P: Placer + Drop> Model for Pass<N, P> {
    ghost use Rattle.std.specs.Prelude.{◌≡◌};
    ghost use Rattle.jc_index.specs.Indexes.{Passing, IsPassing, passing_of};

    ghost Value = { Passing P };

    ghost view = { λ p. passing_of p.placer p.buckets p.met p.member };

    ghost invariant = { λ p. IsPassing p.placer p.buckets p.member
        × (p.member.follower.seat.table_id ≡ N.name) };
}

impl<N: Naming, P: Placer + Drop> Pass<N, P> {
    /// Whether a key is there and live, without waiting. It is sure only of the last image that it has seen.
    pub fn lookup(&mut self, id: CacheId, key: &Key, now: u64) -> Lookup
        ensures sure { (b : Bool) → result ≡ Sure b → found_by self.new id key.now now ≡ Some b }
        ensures stays { (b : Bool) → result ≡ Sure b → AreReadAtRest self.new.begun self.new.checked }
        ensures unmet { self.old.met ≡ false → (result ≡ Unsure) × (self.new ≡ self.old) }
        ensures unsure { result ≡ Unsure → MayBeUnsure self.old self.new id key.now now }
        ensures stripes { self.old.met ≡ true
            → ReadsStripes P.placing self.old self.new id key.now }
        ensures counted { self.old.met ≡ true → self.new.lookups ≡ suc self.old.lookups }
        ensures front { IsPrefix self.old.images self.new.images }
        ensures same { HasSameMeeting self.old self.new }
    {
        if !self.met {
            return Lookup::Unsure;
        }
        let sought = Sought::new(id, key, now);
        look_up(
            &mut self.member.reader,
            &self.placer,
            self.buckets,
            key,
            &sought,
        )
    }

    /// Sees all images of its words, and counts its lookups anew. Where it is refused, every lookup is unsure until it is
    /// not.
    pub fn meet(&mut self, words: &mut Words<N, P>) -> Result<(), OutOfMemory>
        ensures words { words.new ≡ words.old }
        ensures front { IsPrefix self.old.images self.new.images }
        ensures met { IfOk result (λ _. HasMetIndex words.old self.new) }
        ensures counted { IfOk result (λ _. self.new.lookups ≡ 0) }
        ensures refused { IfErr result (λ _. self.new ≡ record self.old { met = false }) }
    {
        self.met = false;
        words.lineage.meet(&mut self.member)?;
        self.placer = words.placer;
        self.buckets = words.buckets;
        self.met = true;
        Ok(())
    }
}
