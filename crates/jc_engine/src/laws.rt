//! What is true of caches that are moved, each law on the contract of a function without a body.
ghost use Rattle.std.specs.Prelude.{◌≡◌, ℕ, List, Option, [], ◌∷◌, ◌++◌, Some, None, length};
ghost use Rattle.jc_model.specs.declared.config.CacheConfig.{CacheConfig};
ghost use Rattle.jc_model.specs.Runs.{Standing};
ghost use Rattle.jc_model.specs.Solo.{PlayedCall, outcomes_from, standing_from};
ghost use Rattle.jc_model.specs.State.{State};
ghost use Rattle.jc_save.specs.Savable.{IsSavable};
ghost use Rattle.jc_save.specs.Spelling.{saved};
ghost use Rattle.jc_engine.specs.Caches.{Cache, lives_of};
ghost use Rattle.jc_engine.specs.Saving.{AddsSaved};
ghost use Rattle.jc_engine.specs.Moved.{standing_in, solo_from, renamed, Ran, status_first, seen_in, calls_in, IsMoved, GoesOn};

/// Calls in two parts, of which the second begins where the first ends, show what all of them show.
#[tactic(auto, using(crate::proofs::Moved::outcomes_parted, crate::proofs::Moved::standing_parted))]
pub fn calls_go_on()
    ensures outcomes { (c : CacheConfig) (standing : Standing) (xs ys : List PlayedCall) →
        outcomes_from c standing (xs ++ ys)
        ≡ outcomes_from c standing xs ++ outcomes_from c (standing_from c standing xs) ys }
    ensures standing { (c : CacheConfig) (standing : Standing) (xs ys : List PlayedCall) →
        standing_from c standing (xs ++ ys) ≡ standing_from c (standing_from c standing xs) ys }
{}

/// Each cache that begins a run in a state, with no open call, sees what whole calls give from there for its own
/// configuration and its own calls alone, however other caches come, go and use the table.
#[tactic(auto, using(crate::proofs::Moved::alone_from))]
pub fn each_cache_alone_from_its_state()
    ensures { (run : Ran) (id : ℕ) (c : CacheConfig) (s : State)
        → status_first id run ≡ Some (standing_in c s)
        → seen_in id run ≡ Some (solo_from c s (calls_in id run)) }
{}

/// A restored cache stands as the saved one, but for its name, and the other caches stand as they did.
#[tactic(auto, using(crate::proofs::Moved::stands_as_saved))]
pub fn restored_stands_as_saved()
    ensures { (k : Cache) (name : List ℕ) (old new : List (Option Cache))
        → IsSavable k.config k.progress.state
        → AddsSaved name (saved k.config k.progress.state) old new
        → lives_of new ≡ lives_of old ++ Some (renamed name k) ∷ [] }
{}

/// What is seen of a cache that makes some calls, is saved, is restored in any manager under any id, and makes further
/// calls, is what is seen of a cache that makes all of these calls where it was.
#[tactic(auto, using(crate::proofs::Moved::moved_goes_on))]
pub fn moved_cache_goes_on()
    ensures { (c : CacheConfig) (id : ℕ) (first : Ran) (k : Cache) (old new : List (Option Cache))
        (second : Ran) → IsMoved c id first k old new second → GoesOn c id first (length old) second }
{}
