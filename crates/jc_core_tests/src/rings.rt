//! The hand's way over three rows, on each body of a ring.

use jc_model::OutOfMemory;
use jc_ring::link_ring::LinkRing;
use jc_ring::list_ring::ListRing;
use jc_ring::ring::Ring;
use std::alloc::Global;

/// What stands at the hand: at first, and after each of two turns.
type Heads = [Option<(u32, bool)>; 3];

/// Of three rows the second is touched and the first taken out. What stands at the hand then, and which rows come after
/// the two that are left.
#[tactic(auto, using(jc_ring::proofs::Laws::ring_laws))]
fn hands<G: Ring>(alloc: Global) -> Result<(Heads, [Option<u32>; 2]), OutOfMemory> {
    let mut ring = G::with_capacity(alloc, 3)?;
    ring.push(0);
    ring.push(1);
    ring.push(2);
    ring.touch(1);
    ring.drop_one(0);
    let after = [ring.after(1), ring.after(2)];
    let first = ring.head();
    ring.turn();
    let second = ring.head();
    ring.turn();
    Ok(([first, second, ring.head()], after))
}

#[test]
fn a_touched_row_is_spared_once(rt: HostRuntime) -> Result<(), OutOfMemory> {
    let heads = [Some((1, true)), Some((2, false)), Some((1, false))];
    let wanted = (heads, [Some(2), None]);
    assert_eq!(rt; hands::<ListRing>(rt.alloc())?, wanted);
    assert_eq!(rt; hands::<LinkRing>(rt.alloc())?, wanted);
    Ok(())
}
