//! A session's draft of its call's entry, beside the entry that is kept under the lock.
ghost use Rattle.std.specs.Prelude.{◌≡◌, ◌⊎◌, ◌↔◌, [], ◌++◌, IsTrue};
ghost use Rattle.jc_locked.specs.Finding.{entry_ended_by, IsOfCall};

use jc_model::Exact;
use jc_model::call::{Answer, Notice, Reply};
use jc_model::event::{End, Entry};
use jc_model::list::Sequence;

/// Whether two lists are the same.
fn are_same<T: Exact>(left: &[T], right: &[T]) -> bool
    ensures { IsTrue result ↔ (left.now ≡ right.now) }
{
    let mut ours = left;
    let mut theirs = right;
    while let Some((first, rest)) = ours.split_first() {
        let Some((other, others)) = theirs.split_first() else {
            return false;
        };
        if !first.same(other) {
            return false;
        }
        ours = rest;
        theirs = others;
    }
    theirs.is_empty()
}

/// Whether an entry that waits is of the draft's call, which has been given these answers.
pub(super) fn is_of_call(entry: &Entry, draft: &Entry, answers: &[Answer]) -> bool
    ensures { IsTrue result ↔ IsOfCall entry.now draft.now answers.now }
{
    entry.session == draft.session
        && entry.at == draft.at
        && entry.call.same(&draft.call)
        && are_same(entry.answers.items(), answers)
        && are_same(entry.told.items(), draft.told.items())
}

pub(super) fn end_with(draft: &mut Entry, end: End)
    ensures { draft.new ≡ record draft.old { end = end } }
{
    draft.end = end;
}

/// Keeps the notices that a give-up hands out. Where the call has told its notices, none are left.
pub(super) fn keep_left(draft: &mut Entry, left: Sequence<Notice>)
    requires { (draft.old.told ≡ []) ⊎ (left ≡ []) }
    ensures { draft.new ≡ record draft.old { told = draft.old.told ++ left } }
{
    if draft.told.items().is_empty() {
        draft.told = left;
    }
}

/// An entry ends with its call's reply, if it has one.
pub(super) fn end_by(draft: &mut Entry, reply: Option<Reply>)
    ensures { draft.new ≡ entry_ended_by reply draft.old }
{
    if let Some(reply) = reply {
        end_with(draft, End::Replied(reply));
    }
}
