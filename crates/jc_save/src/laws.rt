//! What is true of each saved cache, each law on the contract of a function without a body.
ghost use Rattle.std.specs.Prelude.{◌≡◌, ℕ, ◌≤◌, ◌+◌, List, [], ◌++◌, length, Ok};
ghost use Rattle.jc_model.specs.declared.config.CacheConfig.{CacheConfig};
ghost use Rattle.jc_model.specs.State.{Item, State};
ghost use Rattle.jc_save.specs.Spelling.{row, saved};
ghost use Rattle.jc_save.specs.Savable.{AreBytes, IsSavable, IsRestored};
ghost use Rattle.jc_save.specs.Restoring.{restored};

/// What was saved is read back exactly.
#[tactic(auto, using(crate::proofs::Whole::restored_again))]
pub fn reads_back()
    ensures { (c : CacheConfig) (s : State) → IsSavable c s → restored c.name (saved c s) ≡ Ok (c, s) }
{}

/// Bytes that are read are exactly what saving their cache gives, so no cache has two spellings. What is read keeps
/// all limits: the keys are distinct, and there are no more rows than the capacity.
pub fn no_other_spelling()
    ensures { (name bytes : List ℕ) (c : CacheConfig) (s : State) → AreBytes bytes
        → restored name bytes ≡ Ok (c, s) → IsRestored name bytes c s }
{}

/// No cache's bytes begin another's: each shorter front of what was saved is refused.
pub fn fronts_are_refused()
    ensures { (c d : CacheConfig) (s t : State) (name front rest : List ℕ) → IsSavable c s → AreBytes front
        → saved c s ≡ front ++ rest → restored name front ≡ Ok (d, t) → rest ≡ [] }
{}

/// Two caches with the same bytes are the same but for their names.
#[tactic(auto, using(crate::proofs::Whole::told_apart))]
pub fn bytes_tell_all()
    ensures { (c d : CacheConfig) (s t : State) → IsSavable c s → IsSavable d t → saved c s ≡ saved d t
        → (record c { name = d.name } ≡ d) × (s ≡ t) }
{}

/// A row takes at most 12 bytes beside its key and its value.
#[tactic(auto, using(crate::proofs::Written::row_length))]
pub fn rows_are_short()
    ensures { (x : Item) → length (row x) ≤ length x.key + length x.value + 12 }
{}
