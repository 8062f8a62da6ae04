//! What an outcome shows: items with a key, a value, the value before and a processor's argument,
//! and numbers.
ghost use Rattle.std.specs.Prelude.{◌≡◌, Some, length, option_map, slice_get};
ghost use Rattle.jc_c.specs.Items.{items_shown, in_reply, in_request, item_of_key, item_of_pair};
ghost use Rattle.jc_c.specs.Items.{item_of_result, item_of_notice, numbers_of, kind_number};
ghost use Rattle.jc_c.specs.Items.{count_numbers, buffer_after, length_told, copy_status};
ghost use Rattle.jc_c.specs.Lent.{item_lent};
ghost use Rattle.jc_c.specs.Parts.{part_at};

use crate::status::Status;
use jc_model::call::{Counts, Kind, Notice, ProcessorFault, Reply, Request};
use jc_model::event::{Outcome, Step};
use jc_model::key::Key;
use jc_model::value::Value;

/// The parts of an item that are there, lent.
#[derive(Clone, Copy)]
pub struct Item<'a> {
    pub key: Option<&'a [u8]>,
    pub value: Option<&'a [u8]>,
    pub before: Option<&'a [u8]>,
    pub argument: Option<&'a [u8]>,
}

/// One of its parts.
#[derive(Clone, Copy, Debug, PartialEq, Eq)]
pub enum Part {
    Key,
    /// The row's value, as it is now.
    Value,
    /// The value before it was changed.
    Before,
    /// What a processor is given beside the value.
    Argument,
}

/// A part of an item that a cache shows, by the cache's id and the item's place.
#[derive(Clone, Copy)]
pub struct ItemPart {
    pub id: u32,
    pub place: usize,
    pub part: Part,
}

fn of_key(key: &Key) -> Item<'_>
    ensures { item_lent result ≡ item_of_key key.now }
{
    Item {
        key: Some(key.text().as_bytes()),
        value: None,
        before: None,
        argument: None,
    }
}

fn bytes_of(value: &Option<Value>) -> Option<&[u8]>
    ensures { option_map (λ bytes. bytes.now) result ≡ value.now }
{
    match value {
        Some(value) => Some(value.bytes()),
        None => None,
    }
}

fn of_pair(pair: &(Key, Value)) -> Item<'_>
    ensures { item_lent result ≡ item_of_pair pair.now }
{
    Item {
        key: Some(pair.0.text().as_bytes()),
        value: Some(pair.1.bytes()),
        before: None,
        argument: None,
    }
}

fn of_result(pair: &(Key, Result<Value, ProcessorFault>)) -> Item<'_>
    ensures { item_lent result ≡ item_of_result pair.now }
{
    let value = match &pair.1 {
        Ok(value) => Some(value.bytes()),
        Err(_) => None,
    };
    Item {
        key: Some(pair.0.text().as_bytes()),
        value,
        before: None,
        argument: None,
    }
}

fn of_notice(notice: &Notice) -> Item<'_>
    ensures { item_lent result ≡ item_of_notice notice.now }
{
    Item {
        key: Some(notice.key.text().as_bytes()),
        value: bytes_of(&notice.value),
        before: bytes_of(&notice.before),
        argument: None,
    }
}

fn in_notices(notices: &[Notice], place: usize) -> Option<Item<'_>>
    ensures { option_map item_lent result
        ≡ option_map item_of_notice (slice_get notices.now place) }
{
    match notices.get(place) {
        Some(notice) => Some(of_notice(notice)),
        None => None,
    }
}

#[inline(always)]
fn in_reply(reply: &Reply, place: usize) -> Option<Item<'_>>
    ensures { option_map item_lent result ≡ slice_get (in_reply reply.now) place }
{
    match reply {
        Reply::Found(Some(value)) if place == 0 => Some(Item {
            key: None,
            value: Some(value.bytes()),
            before: None,
            argument: None,
        }),
        Reply::Listed(pairs) => match pairs.items().get(place) {
            Some(pair) => Some(of_pair(pair)),
            None => None,
        },
        Reply::Results(results) => match results.items().get(place) {
            Some(pair) => Some(of_result(pair)),
            None => None,
        },
        _ => None,
    }
}

fn in_request(request: &Request, place: usize) -> Option<Item<'_>>
    ensures { option_map item_lent result ≡ slice_get (in_request request.now) place }
{
    match request {
        Request::Tell(notices) => in_notices(notices.items(), place),
        _ if place > 0 => None,
        Request::Load(key) | Request::Delete(key) => Some(of_key(key)),
        Request::Write(key, value) => Some(Item {
            key: Some(key.text().as_bytes()),
            value: Some(value.bytes()),
            before: None,
            argument: None,
        }),
        Request::Process {
            key,
            value,
            argument,
            ..
        } => Some(Item {
            key: Some(key.text().as_bytes()),
            value: bytes_of(value),
            before: None,
            argument: Some(argument.bytes()),
        }),
    }
}

/// The item at a place, from 0.
#[inline(always)]
pub fn item_at(outcome: &Outcome, place: usize) -> Option<Item<'_>>
    ensures { option_map item_lent result ≡ slice_get (items_shown outcome.now) place }
{
    match outcome {
        Outcome::Step(Step::Done(reply)) => in_reply(reply, place),
        Outcome::Step(Step::Need(request)) => in_request(request, place),
        Outcome::GivenUp(notices) => in_notices(notices.items(), place),
        _ => None,
    }
}

/// A part of the item at a place, if both are there.
#[inline(always)]
pub fn part_at(outcome: &Outcome, place: usize, part: Part) -> Option<&[u8]>
    ensures { option_map (λ bytes. bytes.now) result ≡ part_at part place outcome.now }
{
    let item = item_at(outcome, place)?;
    match part {
        Part::Key => item.key,
        Part::Value => item.value,
        Part::Before => item.before,
        Part::Argument => item.argument,
    }
}

fn count_in_reply(reply: &Reply) -> usize
    ensures { result ≡ length (in_reply reply.now) }
{
    match reply {
        Reply::Found(Some(_)) => 1,
        Reply::Listed(pairs) => pairs.items().len(),
        Reply::Results(results) => results.items().len(),
        _ => 0,
    }
}

/// How many items are shown.
pub fn count(outcome: &Outcome) -> usize
    ensures { result ≡ length (items_shown outcome.now) }
{
    match outcome {
        Outcome::Step(Step::Done(reply)) => count_in_reply(reply),
        Outcome::Step(Step::Need(Request::Tell(notices))) => notices.items().len(),
        Outcome::Step(Step::Need(_)) => 1,
        Outcome::GivenUp(notices) => notices.items().len(),
        _ => 0,
    }
}

fn of_kind(kind: Kind) -> u64
    ensures { result ≡ kind_number kind }
{
    match kind {
        Kind::Created => 0,
        Kind::Updated => 1,
        Kind::Removed => 2,
        Kind::Expired => 3,
    }
}

fn of_counts(counts: &Counts, place: usize) -> Option<u64>
    ensures { result ≡ slice_get (count_numbers counts.now) place }
{
    match place {
        0 => Some(counts.hits),
        1 => Some(counts.misses),
        2 => Some(counts.puts),
        3 => Some(counts.removals),
        4 => Some(counts.evictions),
        _ => None,
    }
}

fn kind_at(notices: &[Notice], place: usize) -> Option<u64>
    ensures { result ≡ option_map (λ n. kind_number n.kind) (slice_get notices.now place) }
{
    match notices.get(place) {
        Some(notice) => Some(of_kind(notice.kind)),
        None => None,
    }
}

/// The number at a place, from 0: of statistics hits, misses, puts, removals, evictions; of a fault
/// in a call on many keys how many were done before it; of a request to a processor which; of
/// notices their kinds (0 created, 1 updated, 2 removed, 3 expired).
pub fn number(outcome: &Outcome, place: usize) -> Option<u64>
    ensures { result ≡ slice_get (numbers_of outcome.now) place }
{
    match outcome {
        Outcome::Step(Step::Done(Reply::Counted(counts))) => of_counts(counts, place),
        Outcome::Step(
            Step::Done(
                Reply::Fault {
                    done: Some(done),
                    ..
                },
            ),
        ) if place == 0 => Some(u64::from(*done)),
        Outcome::Step(Step::Need(Request::Process { processor, .. })) if place == 0 => {
            Some(u64::from(*processor))
        }
        Outcome::Step(Step::Need(Request::Tell(notices))) => kind_at(notices.items(), place),
        Outcome::GivenUp(notices) => kind_at(notices.items(), place),
        _ => None,
    }
}

/// Copies the first bytes into a buffer, as many as it takes, and tells how many there are.
#[inline(always)]
pub fn copy_first(bytes: &[u8], out: &mut [u8], len: &mut usize)
    ensures out { out.new ≡ buffer_after (Some bytes.now) out.old }
    ensures len { len.new ≡ length bytes.now }
{
    *len = bytes.len();
    if out.len() < bytes.len() {
        let room = out.len();
        out.copy_from_slice(&bytes[..room]);
    } else {
        out[..bytes.len()].copy_from_slice(bytes);
    }
}

/// The same of bytes that may be missing, and whether all of them were copied.
#[inline(always)]
pub fn copy(bytes: Option<&[u8]>, out: &mut [u8], len: &mut usize) -> Status
    ensures status { result ≡ copy_status (option_map (λ b. b.now) bytes.entry) (length out.old) }
    ensures out { out.new ≡ buffer_after (option_map (λ b. b.now) bytes.entry) out.old }
    ensures len { len.new ≡ length_told (option_map (λ b. b.now) bytes.entry) len.old }
{
    let Some(bytes) = bytes else {
        return Status::NoItem;
    };
    let room = out.len();
    copy_first(bytes, out, len);
    if room < bytes.len() {
        Status::ShortBuffer
    } else {
        Status::Done
    }
}
