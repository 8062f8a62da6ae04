//! The steps of a call on many keys, in their order.
ghost use Rattle.std.specs.Prelude.{◌≡◌, ◌<◌, ◌^◌, true, length, map, IfOk};
ghost use Rattle.jc_model.specs.Bulk.{put_each};
ghost use Rattle.jc_model.specs.Lists.{distinct};
ghost use Rattle.jc_bulk.specs.Calls.{steps_for};
ghost use Rattle.jc_bulk.specs.Each.{op_on, each_of};
ghost use Rattle.jc_bulk.specs.Provided.{keys_in};

use jc_model::OutOfMemory;
use jc_model::call::{Call, KeyCall, Op};
use jc_model::key::Key;
use jc_model::value::Value;
use jc_ops::visit::Visit;
use jc_ring::ring::Ring;
use jc_rows::rows::Rows;
use std::alloc::Global;

/// What a call on many keys does on this one. Where all rows are removed, an expired one goes without the writer.
fn op_on<R: Rows, G: Ring>(visit: &Visit<R, G>, call: &Call, key: &Key) -> Result<Op, OutOfMemory>
    ensures { IfOk result (λ op. op ≡ op_on visit.now call.now key.now) }
{
    match call {
        Call::InvokeAll {
            processor,
            argument,
            ..
        } => Ok(Op::Invoke {
            processor: *processor,
            argument: argument.share()?,
        }),
        Call::RemoveKeys(_) => Ok(Op::Remove),
        Call::RemoveAll if visit.holds(key) => Ok(Op::Remove),
        Call::RemoveAll => Ok(Op::Expire),
        Call::LoadAll { replace, .. } => Ok(Op::Load { replace: *replace }),
        _ => Ok(Op::Get),
    }
}

/// What the call does, on each of these keys.
fn each_key<R: Rows, G: Ring>(
    visit: &Visit<R, G>,
    call: &Call,
    keys: &[Key],
) -> Result<Vec<KeyCall>, OutOfMemory>
    requires apart { distinct keys.now ≡ true }
    ensures steps { IfOk result (λ calls. calls.items ≡ each_of visit.now call.now keys.now) }
    ensures apart { IfOk result (λ calls. distinct (keys_in calls.items) ≡ true) }
{
    let mut calls = Vec::with_capacity(visit.alloc(), keys.len())?;
    for key in keys {
        let op = op_on(visit, call, key)?;
        calls.push(KeyCall { key: *key, op })?;
    }
    Ok(calls)
}

/// A put of each pair.
fn each_put(alloc: Global, pairs: &[(Key, Value)]) -> Result<Vec<KeyCall>, OutOfMemory>
    requires apart { distinct (map (λ p. p.0) pairs.now) ≡ true }
    ensures steps { IfOk result (λ calls. calls.items ≡ put_each pairs.now) }
    ensures apart { IfOk result (λ calls. distinct (keys_in calls.items) ≡ true) }
{
    let mut calls = Vec::with_capacity(alloc, pairs.len())?;
    for (key, value) in pairs {
        let op = Op::Put(value.share()?);
        calls.push(KeyCall { key: *key, op })?;
    }
    Ok(calls)
}

/// The steps of a call on many keys, no two on one key.
pub fn steps_of<R: Rows, G: Ring>(
    visit: &Visit<R, G>,
    call: &Call,
) -> Result<Vec<KeyCall>, OutOfMemory>
    ensures steps { IfOk result (λ calls. calls.items ≡ steps_for visit.now call.now) }
    ensures apart { IfOk result (λ calls. distinct (keys_in calls.items) ≡ true) }
    ensures few { IfOk result (λ calls. length calls.items < 2 ^ 32) }
{
    match call {
        Call::GetAll(keys)
        | Call::RemoveKeys(keys)
        | Call::InvokeAll { keys, .. }
        | Call::LoadAll { keys, .. } => each_key(visit, call, keys.keys()),
        Call::RemoveAll => {
            let keys = visit.keys()?;
            each_key(visit, call, keys.as_slice())
        }
        Call::PutAll(pairs) => each_put(visit.alloc(), pairs.pairs()),
        _ => Ok(Vec::new(visit.alloc())),
    }
}
