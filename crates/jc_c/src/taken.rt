//! Which values are taken at a cache's desk: those that are no longer than the cache has them.
ghost use Rattle.std.specs.Prelude.{◌≡◌, ltb, not, length};
ghost use Rattle.std.specs.List.{list_all};
ghost use Rattle.jc_c.specs.Desks.{is_taken, values_of_answer, values_of_call};
ghost use Rattle.jc_c.specs.Seated.{desk_of};

use crate::ffi_manager::FfiManager;
use jc_model::call::{Action, Answer, Call, Verdict};
use jc_model::event::CacheId;
use jc_model::key::Key;
use jc_model::value::Value;

/// Whether no value of these is longer than this.
fn all_within(pairs: &[(Key, Value)], most: usize) -> bool
    ensures { result ≡ list_all (λ p. not (ltb most (length p.1))) pairs.now }
{
    pairs.iter().all(|pair| pair.1.bytes().len() <= most)
}

impl FfiManager {
    /// Whether a value is taken. Where there is no such cache, any is.
    fn takes(&self, id: CacheId, value: &Value) -> bool
        ensures { result ≡ is_taken (desk_of id self.now) value.now }
    {
        match self.desk(id) {
            Some(desk) => value.bytes().len() <= desk.max_value as usize,
            None => true,
        }
    }

    /// Whether all values of these pairs are taken.
    fn takes_pairs(&self, id: CacheId, pairs: &[(Key, Value)]) -> bool
        ensures { result ≡ list_all (λ p. is_taken (desk_of id self.now) p.1) pairs.now }
    {
        match self.desk(id) {
            Some(desk) => all_within(pairs, desk.max_value as usize),
            None => true,
        }
    }

    /// Whether the values that a call may store are taken.
    pub(crate) fn takes_call(&self, id: CacheId, call: &Call) -> bool
        ensures { result ≡ list_all (is_taken (desk_of id self.now)) (values_of_call call.now) }
    {
        match call {
            Call::Put(_, value)
            | Call::GetAndPut(_, value)
            | Call::PutIfAbsent(_, value)
            | Call::Replace(_, value)
            | Call::GetAndReplace(_, value)
            | Call::ReplaceIf { value, .. } => self.takes(id, value),
            Call::PutAll(pairs) => self.takes_pairs(id, pairs.pairs()),
            _ => true,
        }
    }

    /// Whether the value that an answer may store is taken.
    pub(crate) fn takes_answer(&self, id: CacheId, answer: &Answer) -> bool
        ensures { result ≡ list_all (is_taken (desk_of id self.now)) (values_of_answer answer.now) }
    {
        match answer {
            Answer::Loaded(Some(value)) => self.takes(id, value),
            Answer::Processed(Ok(Verdict { action, .. })) => match action {
                Action::Set(value) => self.takes(id, value),
                _ => true,
            },
            _ => true,
        }
    }
}
