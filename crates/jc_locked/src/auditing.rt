//! Comparing the transcript with what the sessions have kept of their own calls.
ghost use Rattle.std.specs.Prelude.{◌≡◌, ◌≢◌, ◌≤◌, ◌<◌, ◌↔◌, ℕ, List, [], ◌∷◌, ◌++◌, Some, IsTrue, OnOk, IfErr, MatchOption, map, length, slice_get};
ghost use Rattle.jc_model.specs.declared.event.End.TheVariants.{Waiting};
ghost use Rattle.jc_model.specs.declared.event.Entry.{Entry as Entries};
ghost use Rattle.std.specs.List.{All};
ghost use Rattle.jc_locked.specs.Accounts.{calls_of, times, own_of, IsLeastFrom, AreGiven, NoneWaits, AllAgree, PartAt, DiffersFirst, Accounts, IsAuditFault};

use crate::fault::CloseFault;
use crate::journal_policy::MOST_SESSIONS;
use jc_model::event::{End, Entry};
use jc_model::{Exact, Transcript};

/// What has a session's number, and the entries of its own calls.
pub trait Logged {
    ghost use Rattle.std.specs.Prelude.{◌≡◌};
    ghost use Rattle.jc_locked.specs.Sessions.{Own};

    ghost log: { Self → Own };

    fn log_number(&self) -> u32
        ensures { result ≡ (log self.now).number };

    fn log_calls(&self) -> &[Entry]
        ensures { result.now ≡ (log self.now).calls };
}

/// A session's number and its entries, as plain values.
#[derive(Drop)]
pub struct SessionLog {
    pub number: u32,
    pub own: Vec<Entry>,
}

impl Logged for SessionLog {
    ghost use Rattle.jc_locked.specs.Accounts.{own_log};

    ghost log = { own_log };

    fn log_number(&self) -> u32 {
        self.number
    }

    fn log_calls(&self) -> &[Entry] {
        self.own.as_slice()
    }
}

/// How many logs have this number.
fn count_of<S: Logged>(logs: &[S], number: u32) -> usize
    ensures { result ≡ times number (map S.log logs.now) }
{
    let mut count = 0;
    let mut left = logs;
    while let Some((log, rest)) = left.split_first() {
        if log.log_number() == number {
            count += 1;
        }
        left = rest;
    }
    count
}

/// Whether all numbers are below this one.
fn are_below<S: Logged>(logs: &[S], given: u32) -> bool
    ensures { IsTrue result ↔ All (λ o. o.number < given) (map S.log logs.now) }
{
    let mut left = logs;
    while let Some((log, rest)) = left.split_first() {
        if log.log_number() >= given {
            return false;
        }
        left = rest;
    }
    true
}

/// Whether each number below this one has one log.
fn are_once<S: Logged>(logs: &[S], given: u32) -> bool
    ensures { IsTrue result ↔
        ((number : ℕ) → number < given → times number (map S.log logs.now) ≡ 1) }
{
    for number in 0..given {
        if count_of(logs, number) != 1 {
            return false;
        }
    }
    true
}

/// The list of the first log with this number.
fn own_of<'a, S: Logged>(logs: &'a [S], number: u32) -> &'a [Entry]
    ensures { result.now ≡ own_of number (map S.log logs.now) }
{
    let mut left = logs;
    while let Some((log, rest)) = left.split_first() {
        if log.log_number() == number {
            return log.log_calls();
        }
        left = rest;
    }
    &[]
}

fn is_waiting(entry: &Entry) -> bool
    ensures { IsTrue result ↔ (entry.now.end ≡ Waiting) }
{
    matches!(entry.end, End::Waiting)
}

/// Whether no call is open.
fn none_waits(entries: &[Entry]) -> bool
    ensures { IsTrue result ↔ NoneWaits entries.now }
{
    let mut left = entries;
    while let Some((entry, rest)) = left.split_first() {
        if is_waiting(entry) {
            return false;
        }
        left = rest;
    }
    true
}

/// What is left of a list where it begins with this entry.
fn rest_behind<'a>(own: &'a [Entry], entry: &Entry) -> Option<&'a [Entry]>
    ensures { MatchOption result (slice_get own.now 0 ≢ Some entry.now)
        (λ rest. own.now ≡ entry.now ∷ rest.now) }
{
    let (first, rest) = own.split_first()?;
    if first.same(entry) { Some(rest) } else { None }
}

/// The first place at which a session's entries and this list part.
fn parting_place(entries: &[Entry], session: u32, own: &[Entry]) -> Option<usize>
    ensures { MatchOption result (calls_of session entries.now ≡ own.now)
        (λ place. PartAt (calls_of session entries.now) own.now place) }
{
    let mut left = entries;
    let mut rest = own;
    while let Some((entry, later)) = left.split_first() {
        if entry.session == session {
            match rest_behind(rest, entry) {
                Some(tail) => rest = tail,
                None => return Some(own.len() - rest.len()),
            }
        }
        left = later;
    }
    if rest.is_empty() {
        None
    } else {
        Some(own.len() - rest.len())
    }
}

/// The lesser of the least session so far and an entry's, where that is one from this number on.
fn lesser_session(least: Option<u32>, session: u32, given: u32) -> Option<u32>
    ensures { (done : List Entries) (e : Entries) → e.session ≡ session →
        IsLeastFrom given done least → IsLeastFrom given (done ++ e ∷ []) result }
{
    if session < given {
        return least;
    }
    match least {
        Some(found) => Some(found.min(session)),
        None => Some(session),
    }
}

/// The least session from this number on that has an entry.
fn least_from(entries: &[Entry], given: u32) -> Option<u32>
    ensures { IsLeastFrom given entries.now result }
{
    let mut least = None;
    for entry in entries {
        least = lesser_session(least, entry.session, given);
    }
    least
}

/// Whether each session's entries are its list, by one walk over the transcript. It also says no where more numbers were
/// given out than it has places for.
fn agree<S: Logged>(entries: &[Entry], logs: &[S], given: u32) -> bool
    requires { AreGiven given (map S.log logs.now) }
    ensures { IsTrue result → AllAgree entries.now (map S.log logs.now) }
{
    if given > MOST_SESSIONS {
        return false;
    }
    let mut rests: [&[Entry]; MOST_SESSIONS as usize] = [&[]; MOST_SESSIONS as usize];
    for number in 0..MOST_SESSIONS {
        rests[number as usize] = own_of(logs, number);
    }
    let mut left = entries;
    while let Some((entry, later)) = left.split_first() {
        if entry.session >= MOST_SESSIONS {
            return false;
        }
        match rest_behind(rests[entry.session as usize], entry) {
            Some(rest) => rests[entry.session as usize] = rest,
            None => return false,
        }
        left = later;
    }
    for session in 0..MOST_SESSIONS {
        if !rests[session as usize].is_empty() {
            return false;
        }
    }
    true
}

/// The least session whose entries are not its list, and the first place where they part.
fn first_difference<S: Logged>(entries: &[Entry], logs: &[S], given: u32) -> Option<(u32, usize)>
    requires { AreGiven given (map S.log logs.now) }
    ensures { MatchOption result (AllAgree entries.now (map S.log logs.now))
        (λ d. DiffersFirst entries.now (map S.log logs.now) d.0 d.1) }
{
    if agree(entries, logs, given) {
        return None;
    }
    for session in 0..given {
        if let Some(place) = parting_place(entries, session, own_of(logs, session)) {
            return Some((session, place));
        }
    }
    match least_from(entries, given) {
        Some(session) => Some((session, 0)),
        None => None,
    }
}

/// Compares a transcript with the logs of all sessions; `given` is how many numbers were given out, from 0 upward.
///
/// `Missing`, `StillOpen`, `Differs`, in this order. It takes no memory.
pub fn audit<S: Logged>(transcript: &Transcript, logs: &[S], given: u32) -> Result<(), CloseFault>
    ensures ok { OnOk result (Accounts given (map S.log logs.now) transcript.now.entries) }
    ensures fault { IfErr result (IsAuditFault given (map S.log logs.now) transcript.now.entries) }
{
    let entries = transcript.entries();
    if !are_below(logs, given) || !are_once(logs, given) {
        return Err(CloseFault::Missing);
    }
    if !none_waits(entries) {
        return Err(CloseFault::StillOpen);
    }
    match first_difference(entries, logs, given) {
        Some((session, place)) => Err(CloseFault::Differs { session, place }),
        None => Ok(()),
    }
}
