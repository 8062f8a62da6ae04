//! Places that were computed apart from the program: by the published walk of FNV-1a of 64 bits, and by the hash of
//! Rust's standard library with both keys zero.

use jc_model::event::CacheId;
use jc_place::place::{Place, Placer};
use jc_place::secret::SecretPlacer;
use jc_place::seeded::SeededPlacer;
use jc_trials::{Trouble, key};
use std::hash::{BuildHasherDefault, DefaultHasher};

/// A key of 63 bytes, the most that one has.
const LONGEST: &str = "abcdefghijklmnopqrstuvwxyz0123456789ABCDEFGHIJKLMNOPQRSTUVWXYZ-";

/// A cache's number, a key, and its place under a secret of zeros.
static SECRET: [(u32, &str, u32, u8); 6] = [
    (0, "a", 143556306, 13),
    (1, "a", 4213745189, 226),
    (0, "b", 2667640476, 185),
    (258, "é", 3381363348, 64),
    (16909060, "key-0001", 3382262434, 171),
    (4294967295, LONGEST, 953018782, 121),
];

/// A seed, a cache's number, a key, and its place: first and tag. The last two have the least and the greatest tag.
static KNOWN: [(u64, u32, &str, u32, u8); 26] = [
    (0, 0, "a", 623592572, 106),
    (0, 1, "a", 2816204159, 162),
    (0, 0, "b", 623593877, 109),
    (0, 258, "é", 2297694108, 46),
    (0, 16909060, "key-0001", 1081199072, 24),
    (0, 4294967295, LONGEST, 3400254273, 37),
    (1, 0, "a", 2816204159, 162),
    (1, 1, "a", 623592572, 106),
    (1, 0, "b", 2816204594, 163),
    (1, 258, "é", 2534184493, 106),
    (1, 16909060, "key-0001", 4243314697, 133),
    (1, 4294967295, LONGEST, 1247042722, 88),
    (9223372036854775807, 0, "a", 1568934625, 142),
    (9223372036854775807, 1, "a", 3671373854, 22),
    (9223372036854775807, 0, "b", 1568933320, 139),
    (9223372036854775807, 258, "é", 2348776171, 243),
    (9223372036854775807, 16909060, "key-0001", 1308164155, 153),
    (9223372036854775807, 4294967295, LONGEST, 3647698084, 136),
    (18446744073709551615, 0, "a", 1568934625, 14),
    (18446744073709551615, 1, "a", 3671373854, 149),
    (18446744073709551615, 0, "b", 1568933320, 11),
    (18446744073709551615, 258, "é", 2348776171, 116),
    (18446744073709551615, 16909060, "key-0001", 1308164155, 25),
    (18446744073709551615, 4294967295, LONGEST, 3647698084, 9),
    (0, 0, "k451", 76592756, 1),
    (0, 0, "k456", 76592321, 255),
];

#[test]
fn seeded_places_are_the_known_ones(rt: HostRuntime) -> Result<(), Trouble> {
    for (seed, id, name, first, tag) in &KNOWN {
        let place = SeededPlacer::new(*seed).place(CacheId::new(*id), &key(name)?);
        let known = Place {
            first: *first,
            tag: *tag,
        };
        assert_eq!(rt; place, known, "{seed} {id} {name}");
    }
    Ok(())
}

#[test]
fn secret_places_are_the_known_ones(rt: HostRuntime) -> Result<(), Trouble> {
    let placer = SecretPlacer::new(BuildHasherDefault::<DefaultHasher>::new());
    for (id, name, first, tag) in &SECRET {
        let place = placer.place(CacheId::new(*id), &key(name)?);
        let known = Place {
            first: *first,
            tag: *tag,
        };
        assert_eq!(rt; place, known, "{id} {name}");
    }
    Ok(())
}
