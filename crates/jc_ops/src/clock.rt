//! The law of CLOCK, the replacement that the caches evict by.
ghost use Rattle.jc_ops.specs.Clock.{FirstUnusedGoes, ElseFirstGoes};

/// Room is made by the first row from the hand on that is expired or was not used since the hand last passed,
/// and by the first row where there is none.
#[tactic(auto, using(crate::proofs::ClockLaw::first_unused_goes, crate::proofs::ClockLaw::else_first_goes))]
pub fn room_goes_by_clock()
    ensures first_unused { FirstUnusedGoes }
    ensures else_first { ElseFirstGoes }
{}
