//! By cache, what was shown last, and how many bytes a value may have.
ghost use Rattle.std.specs.Prelude.{◌≡◌, ◌≤◌, Some, None, IsSome, nat_eq};
ghost use Rattle.std.specs.HashMap.{get, spare};
ghost use Rattle.jc_engine.specs.Sound.{Puts};
ghost use Rattle.jc_c.specs.Desks.{showing, showing_accepted, truth_at, truth_beside};
ghost use Rattle.jc_c.specs.Status.{outcome_status};
ghost use Rattle.jc_model.specs.Runs.{is_refused};
ghost use Rattle.std.specs.Prelude.{if◌then◌else◌};

use crate::status::Status;
use jc_model::call::Reply;
use jc_model::event::{CacheId, Outcome, Step};
use std::collections::HashMap;
use std::mem::replace;

/// A live cache's desk: what is shown there, the outcome of the last event that the cache accepted;
/// and the most bytes of a value that is handed in there.
#[derive(Drop)]
pub struct Desk {
    pub shown: Outcome,
    pub max_value: u32,
}

impl Desk {
    /// Shows whether there is a row, unless a call is open, and tells what it has come to.
    #[inline(always)]
    fn show_truth(&mut self, held: bool) -> Status
        ensures status { result ≡ outcome_status (truth_beside held self.old.shown) }
        ensures shown { self.new ≡ (if is_refused (truth_beside held self.old.shown) then self.old
            else record self.old { shown = truth_beside held self.old.shown }) }
    {
        if matches!(self.shown, Outcome::Step(Step::Need(_))) {
            return Status::Busy;
        }
        let shown = Outcome::Step(Step::Done(Reply::Truth(held)));
        drop(replace(&mut self.shown, shown));
        if held { Status::True } else { Status::False }
    }
}

/// Shows at a cache's desk whether it has a row, unless a call is open, and tells what that comes
/// to.
#[inline(always)]
pub(crate) fn show_truth(desks: &mut HashMap<u32, Desk>, id: CacheId, held: bool) -> Status
    ensures status { result ≡ outcome_status (truth_at held (get nat_eq desks.old id)) }
    ensures desks { Puts (get nat_eq desks.old) id
        (showing_accepted (truth_at held (get nat_eq desks.old id)) (get nat_eq desks.old id))
        (get nat_eq desks.new) }
{
    let number = id.number();
    match desks.get_mut(&number) {
        Some(desk) => desk.show_truth(held),
        None => Status::NoSuchCache,
    }
}

/// Shows an outcome in the place of the last one, and gives its status. It is written there once:
/// so it stands where it is made.
#[inline(always)]
pub(crate) fn show(desks: &mut HashMap<u32, Desk>, id: CacheId, outcome: Outcome) -> Status
    requires { IsSome (get nat_eq desks.old id) }
    ensures status { result ≡ outcome_status outcome }
    ensures desks { Puts (get nat_eq desks.old) id (showing outcome (get nat_eq desks.old id))
        (get nat_eq desks.new) }
{
    let status = Status::of_outcome(&outcome);
    let number = id.number();
    match desks.get_mut(&number) {
        Some(desk) => drop(replace(&mut desk.shown, outcome)),
        None => unreachable!(),
    }
    status
}

/// Adds the desk of a cache, for which there is room.
pub(crate) fn add(desks: &mut HashMap<u32, Desk>, id: CacheId, desk: Desk)
    requires { 1 ≤ spare desks.old }
    ensures { Puts (get nat_eq desks.old) id (Some desk) (get nat_eq desks.new) }
{
    let number = id.number();
    match desks.insert(number, desk) {
        Ok(last) => drop(last),
        Err(_) => unreachable!(),
    }
}

/// Takes a cache's desk away.
pub(crate) fn take_away(desks: &mut HashMap<u32, Desk>, id: CacheId)
    ensures { Puts (get nat_eq desks.old) id None (get nat_eq desks.new) }
{
    let number = id.number();
    drop(desks.remove(&number));
}
