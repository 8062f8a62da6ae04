//! The expiry policies of JSR 107 ("Expiry Policies"): what creation, access and update make of a row's expiry.
//! Moments and durations are in milliseconds.
ghost use Rattle.std.specs.Prelude.{◌≡◌};
ghost use Rattle.jc_model.specs.State.{later, live, after_create, after_access, after_update};

use jc_model::config::{Expiry, Policy};

/// The moment `duration` after `now`, or never where no `u64` is as late.
pub fn later(now: u64, duration: u64) -> Expiry
    ensures { result ≡ later now duration }
{
    match now.checked_add(duration) {
        Some(moment) => Expiry::At(moment),
        None => Expiry::Never,
    }
}

/// Whether a row is live at `now`: its moment of expiry is still to come.
pub fn live(now: u64, expiry: Expiry) -> bool
    ensures { result ≡ live now expiry }
{
    match expiry {
        Expiry::Never => true,
        Expiry::At(moment) => now < moment,
    }
}

/// The expiry of a new row, or `None` at duration zero: then it is not stored.
pub fn after_create(policy: Policy, now: u64) -> Option<Expiry>
    ensures { result ≡ after_create policy now }
{
    match policy {
        Policy::Eternal => Some(Expiry::Never),
        Policy::Created(duration)
        | Policy::Accessed(duration)
        | Policy::Modified(duration)
        | Policy::Touched(duration) => {
            if duration == 0 {
                None
            } else {
                Some(later(now, duration))
            }
        }
    }
}

/// The expiry of a row that was read. At duration zero it expires at once.
pub fn after_access(policy: Policy, present: Expiry, now: u64) -> Expiry
    ensures { result ≡ after_access policy present now }
{
    match policy {
        Policy::Accessed(duration) | Policy::Touched(duration) => later(now, duration),
        _ => present,
    }
}

/// The expiry of a row that was given another value. At duration zero it expires at once.
pub fn after_update(policy: Policy, present: Expiry, now: u64) -> Expiry
    ensures { result ≡ after_update policy present now }
{
    match policy {
        Policy::Modified(duration) | Policy::Touched(duration) => later(now, duration),
        _ => present,
    }
}
