//! Values from outside: what the policies answer, where counters stay, and how keys are ordered and laid in words.

use jc_expiry::counters::{with_eviction, with_hit, with_miss, with_put, with_removal};
use jc_expiry::expiry::{after_access, after_create, after_update};
use jc_model::call::Counts;
use jc_model::config::{Expiry, Policy};
use jc_trials::{Trouble, key};

const LAST: u64 = u64::MAX;

const PRESENT: Expiry = Expiry::At(3);

const SOON: Expiry = Expiry::At(15);

const NOW: Expiry = Expiry::At(5);

const NEVER: Expiry = Expiry::Never;

/// A policy and a moment, and the expiry after creation, access and update, the row's present expiry being at 3.
static ANSWERS: [(Policy, u64, Option<Expiry>, Expiry, Expiry); 15] = [
    (Policy::Eternal, 5, Some(NEVER), PRESENT, PRESENT),
    (Policy::Created(10), 5, Some(SOON), PRESENT, PRESENT),
    (Policy::Accessed(10), 5, Some(SOON), SOON, PRESENT),
    (Policy::Modified(10), 5, Some(SOON), PRESENT, SOON),
    (Policy::Touched(10), 5, Some(SOON), SOON, SOON),
    (Policy::Created(0), 5, None, PRESENT, PRESENT),
    (Policy::Accessed(0), 5, None, NOW, PRESENT),
    (Policy::Modified(0), 5, None, PRESENT, NOW),
    (Policy::Touched(0), 5, None, NOW, NOW),
    (Policy::Eternal, LAST, Some(NEVER), PRESENT, PRESENT),
    (Policy::Created(1), LAST, Some(NEVER), PRESENT, PRESENT),
    (Policy::Accessed(1), LAST, Some(NEVER), NEVER, PRESENT),
    (Policy::Modified(1), LAST, Some(NEVER), PRESENT, NEVER),
    (Policy::Touched(1), LAST, Some(NEVER), NEVER, NEVER),
    (
        Policy::Touched(1),
        LAST - 1,
        Some(Expiry::At(LAST)),
        Expiry::At(LAST),
        Expiry::At(LAST),
    ),
];

#[test]
fn policies_answer_by_their_table(rt: HostRuntime) {
    for (policy, now, created, accessed, updated) in &ANSWERS {
        assert!(rt; after_create(*policy, *now) == *created);
        assert!(rt; after_access(*policy, PRESENT, *now) == *accessed);
        assert!(rt; after_update(*policy, PRESENT, *now) == *updated);
    }
}

/// All five counters at this number.
fn all_at(n: u64) -> Counts {
    Counts {
        hits: n,
        misses: n,
        puts: n,
        removals: n,
        evictions: n,
    }
}

#[test]
fn counters_stay_at_the_greatest_number(rt: HostRuntime) {
    for n in [LAST - 1, LAST] {
        let hit = with_hit(all_at(n));
        let counted = with_eviction(with_removal(with_put(with_miss(hit))));
        assert!(rt; counted == all_at(LAST));
    }
}

/// Keys in their order, with their first word: the length, then the bytes.
static KEYS: [(&str, u64); 5] = [
    ("a", 0x6101),
    ("a2", 0x32_6102),
    ("abcdefgh", 0x6766_6564_6362_6108),
    ("aé", 0xa9c3_6103),
    ("b", 0x6201),
];

#[test]
fn keys_are_ordered_by_their_bytes(rt: HostRuntime) -> Result<(), Trouble> {
    let mut last = key("Z")?;
    for (text, word) in &KEYS {
        let next = key(text)?;
        assert_eq!(rt; next.words()[0], *word, "{text}");
        assert!(rt; last < next, "{text}");
        last = next;
    }
    Ok(())
}
