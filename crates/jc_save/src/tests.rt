use super::*;
use jc_model::call::Counts;
use jc_model::config::{CacheConfig, Expiry, Policy};
use jc_model::key::Key;
use jc_model::list::Sequence;
use jc_model::value::Value;
use std::alloc::Global;
use std::test::*;

/// Capacity 2, touched after 5 ms, a loader, no writer, 3 listeners, two processors; counters 1 to 5; "ab" with one
/// byte, used, until moment 300; "c" with no bytes, not used, forever.
const TWO_ROWS: [u8; 87] = [
    74, 67, 83, 49, 2, 0, 0, 0, 4, 5, 0, 0, 0, 0, 0, 0, 0, 1, 0, 3, 2, 1, 0, 1, 0, 0, 0, 0, 0, 0,
    0, 2, 0, 0, 0, 0, 0, 0, 0, 3, 0, 0, 0, 0, 0, 0, 0, 4, 0, 0, 0, 0, 0, 0, 0, 5, 0, 0, 0, 0, 0, 0,
    0, 2, 0, 0, 0, 3, 44, 1, 0, 0, 0, 0, 0, 0, 2, 97, 98, 1, 0, 7, 0, 1, 99, 0, 0,
];

/// Capacity 1, eternal, nothing else.
const EMPTY: [u8; 57] = [
    74, 67, 83, 49, 1, 0, 0, 0, 0, 0, 0, 0, 0, 0, 0, 0, 0, 0, 0, 0, 0, 0, 0, 0, 0, 0, 0, 0, 0, 0,
    0, 0, 0, 0, 0, 0, 0, 0, 0, 0, 0, 0, 0, 0, 0, 0, 0, 0, 0, 0, 0, 0, 0, 0, 0, 0, 0,
];

/// Capacity 1, eternal, and "k" with "v", used, forever.
const ONE_ROW: [u8; 63] = [
    74, 67, 83, 49, 1, 0, 0, 0, 0, 0, 0, 0, 0, 0, 0, 0, 0, 0, 0, 0, 0, 0, 0, 0, 0, 0, 0, 0, 0, 0,
    0, 0, 0, 0, 0, 0, 0, 0, 0, 0, 0, 0, 0, 0, 0, 0, 0, 0, 0, 0, 0, 0, 0, 1, 0, 0, 0, 1, 1, 107, 1,
    0, 118,
];

/// A capacity of 2, and two rows that both have the key "c".
const TWICE: [u8; 67] = [
    74, 67, 83, 49, 2, 0, 0, 0, 0, 0, 0, 0, 0, 0, 0, 0, 0, 0, 0, 0, 0, 0, 0, 0, 0, 0, 0, 0, 0, 0,
    0, 0, 0, 0, 0, 0, 0, 0, 0, 0, 0, 0, 0, 0, 0, 0, 0, 0, 0, 0, 0, 0, 0, 2, 0, 0, 0, 0, 1, 99, 0,
    0, 1, 1, 99, 0, 0,
];

fn restored(alloc: Global, bytes: &[u8]) -> Result<SavedCache, SaveFault> {
    let Ok(name) = Key::from_text("users") else {
        return Err(SaveFault::OutOfMemory);
    };
    restore(alloc, name, bytes)
}

/// Whether bytes are refused with this flaw at this place.
fn is_refused(alloc: Global, bytes: &[u8], flaw: Flaw, place: usize) -> bool {
    match restored(alloc, bytes) {
        Ok(_) => false,
        Err(fault) => fault == SaveFault::Damaged { flaw, place },
    }
}

/// The two rows with one byte changed.
fn changed(place: usize, byte: u8) -> [u8; 87] {
    let mut bytes = TWO_ROWS;
    if place < 87 {
        bytes[place] = byte;
    }
    bytes
}

#[test]
fn two_rows(rt: HostRuntime) -> Result<(), Fail> {
    let cache = restored(rt.alloc(), &TWO_ROWS).ok().ok_or("a cache")?;
    assert_eq!(rt; cache.config.name.text(), "users");
    assert_eq!(rt; cache.config.capacity, 2);
    assert_eq!(rt; cache.config.policy, Policy::Touched(5));
    assert!(rt; cache.config.loader && !cache.config.writer);
    assert_eq!(rt; cache.config.listeners, 3);
    assert_eq!(rt; cache.config.processors.items(), [true, false].as_slice());
    assert_eq!(rt; cache.counts.hits, 1);
    assert_eq!(rt; cache.counts.evictions, 5);
    assert_eq!(rt; cache.rows.items().len(), 2);
    if let Some(row) = cache.rows.items().first() {
        assert_eq!(rt; row.key.text(), "ab");
        assert_eq!(rt; row.value.bytes(), [7].as_slice());
        assert_eq!(rt; row.mark.expiry, Expiry::At(300));
        assert!(rt; row.mark.used);
    }
    Ok(())
}

#[test]
fn empty(rt: HostRuntime) -> Result<(), Fail> {
    let cache = restored(rt.alloc(), &EMPTY).ok().ok_or("a cache")?;
    assert_eq!(rt; cache.config.policy, Policy::Eternal);
    assert!(rt; cache.rows.items().is_empty());
    Ok(())
}

#[test]
fn one_row(rt: HostRuntime) -> Result<(), Fail> {
    let key = Key::from_text("k").ok().ok_or("a key")?;
    let value = Value::from_text(rt.alloc(), "v").ok().ok_or("a value")?;
    let mark = Mark {
        expiry: Expiry::Never,
        used: true,
    };
    let mut rows = Vec::new(rt.alloc());
    rows.push(SavedRow { key, value, mark })?;
    let counts = Counts {
        hits: 0,
        misses: 0,
        puts: 0,
        removals: 0,
        evictions: 0,
    };
    let cache = SavedCache {
        config: CacheConfig::new(rt.alloc(), key, 1),
        counts,
        rows: Sequence::new(rows),
    };
    let bytes = save(rt.alloc(), &cache).ok().ok_or("bytes")?;
    assert_eq!(rt; bytes.as_slice(), ONE_ROW.as_slice());
    Ok(())
}

fn has_policy(read: Result<SavedCache, SaveFault>, policy: Policy) -> bool {
    match read {
        Ok(cache) => cache.config.policy == policy,
        Err(_) => false,
    }
}

#[test]
fn policies(rt: HostRuntime) {
    let policies = [
        Policy::Created(5),
        Policy::Accessed(5),
        Policy::Modified(5),
        Policy::Touched(5),
    ];
    for (i, policy) in policies.iter().enumerate() {
        let read = restored(rt.alloc(), &changed(8, i as u8 + 1));
        assert!(rt; has_policy(read, *policy));
    }
}

#[test]
fn prefixes(rt: HostRuntime) {
    for length in 0..87 {
        let read = restored(rt.alloc(), &TWO_ROWS[..length]);
        assert!(rt;
            matches!(
                read,
                Err(SaveFault::Damaged {
                    flaw: Flaw::Cut,
                    ..
                })
            )
        );
    }
}

#[test]
fn flaws(rt: HostRuntime) {
    let flaws = [
        (0, 75, Flaw::NotSaved, 0),
        (3, 50, Flaw::OtherVersion, 3),
        (4, 0, Flaw::Capacity, 4),
        (6, 2, Flaw::Capacity, 4),
        (8, 5, Flaw::Policy, 8),
        (18, 2, Flaw::Flag, 18),
        (19, 9, Flaw::Listeners, 19),
        (20, 17, Flaw::Processors, 20),
        (22, 2, Flaw::Flag, 22),
        (63, 3, Flaw::Rows, 63),
        (67, 4, Flaw::Mark, 67),
        (76, 0, Flaw::KeyLength, 76),
        (76, 64, Flaw::KeyLength, 76),
        (77, 255, Flaw::KeyText, 77),
        (79, 90, Flaw::Cut, 81),
        (63, 1, Flaw::Trailing, 82),
    ];
    for (at, byte, flaw, place) in flaws {
        assert!(rt; is_refused(rt.alloc(), &changed(at, byte), flaw, place));
    }
    assert!(rt; is_refused(rt.alloc(), &TWICE, Flaw::DuplicateKey, 62));
}
