//! Laws of the definitions, each on the contract of a function without a body.
ghost use Rattle.std.specs.Prelude.{◌≡◌, ◌≤◌, ◌<◌, ℕ, List, Option, Ok};
ghost use Rattle.jc_engine.specs.Caches.{Cache};
ghost use Rattle.jc_c.specs.declared.ffi_settings.NewCache.{NewCache};
ghost use Rattle.jc_c.specs.declared.status.Status.{Status};
ghost use Rattle.jc_c.specs.Asked.{settings_by, wants_by};
ghost use Rattle.jc_c.specs.Reading.{cache_said, key_said};
ghost use Rattle.jc_c.specs.Status.{status_number};
ghost use Rattle.jc_c.specs.Walk.{AlwaysThere, IsWalk, Numbered, WalkCovers, times_given, walked};

/// No two statuses have one number.
#[tactic(auto, using(crate::proofs::Numbers::numbers_differ))]
pub fn numbers_differ()
    ensures { (a b : Status) → status_number a ≡ status_number b → a ≡ b }
{}

/// A step of a walk gives each row of the numbers that it goes over once, and no other.
#[tactic(auto, using(crate::proofs::Walks::walk_covers))]
pub fn each_step_covers_its_numbers()
    ensures { (room : ℕ) (cache : Option Cache) (from : ℕ)
        → WalkCovers cache from (walked room cache from) }
{}

/// A walk gives a row of a number exactly once, if each of its steps finds one there.
#[tactic(auto, using(crate::proofs::Walks::given_once))]
pub fn walks_give_each_row_once()
    ensures { (from n : ℕ) (steps : List (ℕ × Cache)) (lists : List (List Numbered)) → from ≤ n
        → IsWalk from steps lists → AlwaysThere n steps → times_given n lists ≡ 1 }
{}

/// The settings that are told of a cache create the same one again.
#[tactic(auto, using(crate::proofs::Again::settings_again))]
pub fn settings_create_the_same()
    ensures { (asked : NewCache) → 0 < asked.max_value
        → key_said asked.config.name ≡ Ok asked.config.name
        → cache_said asked.config.name (settings_by asked.config asked.max_value)
        (wants_by asked.config) ≡ Ok asked }
{}
