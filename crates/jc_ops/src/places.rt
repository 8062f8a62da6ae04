//! How many rows a cache has memory for, and how its ring comes to have more.
ghost use Rattle.std.specs.Prelude.{◌≡◌, ℕ, ◌+◌, ◌*◌, ◌<◌, ◌≤◌, Bool, [], ◌∷◌, ◌++◌};
ghost use Rattle.std.specs.Prelude.{length, true, false};
ghost use Rattle.jc_ring.specs.Ring.{on_ring, rows_apart};

use jc_ring::ring::Ring;

/// A cache's first rows are given memory for so many.
const FIRST_PLACES: u32 = 16;

/// For how many rows a cache has memory next, where it has `places` and needs `wanted`: twice as many, where it may have
/// so many rows.
pub(crate) fn next_places(places: u32, wanted: u32, capacity: u32) -> u32
    requires { wanted ≤ capacity }
    ensures wanted { wanted ≤ result }
    ensures within { result ≤ capacity }
{
    let doubled = if places > capacity / 2 {
        capacity
    } else {
        places * 2
    };
    wanted.max(doubled).max(FIRST_PLACES.min(capacity))
}

/// Puts a row last, with this bit.
fn push_with<G: Ring>(ring: &mut G, row: u32, used: bool)
    requires below { row < G.limit ring.old }
    requires room { length (G.list ring.old) < G.limit ring.old }
    requires absent { on_ring row (G.list ring.old) ≡ false }
    ensures pushed { G.list ring.new ≡ G.list ring.old ++ (row, used) ∷ [] }
    ensures limit { G.limit ring.new ≡ G.limit ring.old }
{
    ring.push(row);
    if used {
        ring.touch(row);
    }
}

/// Takes all rows of a ring to one with more places, in their order and with their bits.
pub(crate) fn move_rows<G: Ring>(from: &mut G, to: &mut G)
    requires apart { rows_apart (G.list from.old) ≡ true }
    requires below { (row : ℕ) → on_ring row (G.list from.old) ≡ true → row < G.limit to.old }
    requires room { length (G.list from.old) ≤ G.limit to.old }
    requires empty { G.list to.old ≡ [] }
    ensures moved { G.list to.new ≡ G.list from.old }
    ensures limit { G.limit to.new ≡ G.limit to.old }
{
    'rows: while let Some((row, used)) = from.head() {
        from.drop_one(row);
        push_with(to, row, used);
    }
}
