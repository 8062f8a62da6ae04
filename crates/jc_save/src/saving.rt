//! A cache's bytes, written into what is lent.
ghost use Rattle.std.specs.Prelude.{◌≡◌, ◌≤◌, ◌<◌, ◌+◌, ◌^◌, ◌++◌, ◌∷◌, length, map, IfOk, IfErr, Err};
ghost use Rattle.std.specs.Int.{w64, to_le_bytes};
ghost use Rattle.jc_model.specs.Limits.{most_processors, most_rows};
ghost use Rattle.jc_save.specs.Limits.{saved_bytes};
ghost use Rattle.jc_save.specs.Restoring.{state_of};
ghost use Rattle.jc_save.specs.Savable.{IsKeyText, HasDuration, AreCounters, IsRow};
ghost use Rattle.jc_save.specs.Placing.{put_at, piece_bytes, row_bytes, row_with};
ghost use Rattle.jc_save.specs.Spelling.{flag, policy, settings, counters, mark, row_front, row, head, saved};

use crate::cache::{Mark, SavedCache};
use crate::fault::SaveRefusal;
use crate::limits::{MAGIC, SAVED_BYTES, VERSION};
use crate::piece::{Piece, put};
use jc_model::call::Counts;
use jc_model::config::{CacheConfig, Expiry, Policy};
use jc_model::key::Key;
use jc_model::value::Value;
use std::alloc::Global;

#[tactic(auto, unfolding(crate::specs::Spelling::policy))]
fn push_policy(piece: &mut Piece, kept: Policy)
    requires { length piece.old + 9 ≤ piece_bytes }
    ensures bytes { piece.new ≡ piece.old ++ policy kept }
    ensures duration { HasDuration kept }
    ensures length { length piece.new ≤ length piece.old + 9 }
{
    match kept {
        Policy::Eternal => piece.push(&[0]),
        Policy::Created(duration) => push_timed(piece, 1, duration),
        Policy::Accessed(duration) => push_timed(piece, 2, duration),
        Policy::Modified(duration) => push_timed(piece, 3, duration),
        Policy::Touched(duration) => push_timed(piece, 4, duration),
    }
}

/// A number, and milliseconds.
fn push_timed(piece: &mut Piece, number: u8, milliseconds: u64)
    requires { length piece.old + 9 ≤ piece_bytes }
    ensures bytes { piece.new ≡ piece.old ++ number ∷ to_le_bytes w64 milliseconds }
    ensures length { length piece.new ≡ length piece.old + 9 }
{
    piece.push(&[number]);
    piece.push(&milliseconds.to_le_bytes());
}

fn push_flags(piece: &mut Piece, flags: &[bool])
    requires { length piece.old + length flags.now ≤ piece_bytes }
    ensures bytes { piece.new ≡ piece.old ++ map flag flags.now }
    ensures length { length piece.new ≡ length piece.old + length flags.now }
{
    for b in flags {
        piece.push_flag(*b);
    }
}

#[tactic(auto, unfolding(crate::specs::Spelling::settings))]
fn push_settings(piece: &mut Piece, config: &CacheConfig)
    requires processors { length config.now.processors ≤ most_processors }
    requires room { length piece.old ≤ 4 }
    ensures bytes { piece.new ≡ piece.old ++ settings config.now }
    ensures duration { HasDuration config.now.policy }
    ensures length { length piece.new ≤ length piece.old + 33 }
{
    piece.push(&config.capacity.to_le_bytes());
    push_policy(piece, config.policy);
    piece.push_flag(config.loader);
    piece.push_flag(config.writer);
    let processors = config.processors.items();
    piece.push(&[config.listeners, processors.len() as u8]);
    push_flags(piece, processors);
}

#[tactic(auto, unfolding(crate::specs::Spelling::counters))]
fn push_counters(piece: &mut Piece, counts: Counts)
    requires { length piece.old + 40 ≤ piece_bytes }
    ensures bytes { piece.new ≡ piece.old ++ counters counts }
    ensures words { AreCounters counts }
    ensures length { length piece.new ≡ length piece.old + 40 }
{
    piece.push(&counts.hits.to_le_bytes());
    piece.push(&counts.misses.to_le_bytes());
    piece.push(&counts.puts.to_le_bytes());
    piece.push(&counts.removals.to_le_bytes());
    piece.push(&counts.evictions.to_le_bytes());
}

/// All that stands before the rows.
#[tactic(auto, unfolding(crate::specs::Spelling::head))]
fn head_of(config: &CacheConfig, counts: &Counts, rows: u32) -> Piece
    requires { length config.now.processors ≤ most_processors }
    ensures head { result ≡ head config.now counts.now rows }
    ensures duration { HasDuration config.now.policy }
    ensures words { AreCounters counts.now }
{
    let mut piece = Piece::new();
    piece.push(&MAGIC);
    piece.push(&[VERSION]);
    push_settings(&mut piece, config);
    push_counters(&mut piece, *counts);
    piece.push(&rows.to_le_bytes());
    piece
}

#[tactic(auto, unfolding(crate::specs::Spelling::mark))]
fn push_mark(piece: &mut Piece, marked: Mark)
    requires { length piece.old ≡ 0 }
    ensures bytes { piece.new ≡ piece.old ++ mark marked.expiry marked.used }
    ensures length { length piece.new ≤ 9 }
{
    match marked.expiry {
        Expiry::Never => piece.push_flag(marked.used),
        Expiry::At(moment) => {
            let number = if marked.used { 3 } else { 2 };
            push_timed(piece, number, moment);
        }
    }
}

/// All of a row but its value's bytes, of which there are so many.
#[tactic(auto, unfolding(crate::specs::Spelling::row_front))]
fn row_front_of(key: &Key, marked: Mark, count: u16) -> Piece
    ensures front { result ≡ row_front marked.expiry marked.used key.now count }
    ensures key { IsKeyText key.now }
{
    let mut piece = Piece::new();
    push_mark(&mut piece, marked);
    let text = key.text().as_bytes();
    piece.push(&[text.len() as u8]);
    piece.push(text);
    piece.push(&count.to_le_bytes());
    piece
}

/// Writes all that stands before the rows, of which there are so many, as much as there is room for. Tells how many
/// bytes it is. What it writes keeps the limits of numbers.
pub fn put_head(out: &mut [u8], config: &CacheConfig, counts: &Counts, rows: u32) -> usize
    requires { length config.now.processors ≤ most_processors }
    ensures place { result ≡ length (head config.now counts.now rows) }
    ensures few { result ≤ piece_bytes }
    ensures out { out.new ≡ put_at 0 (head config.now counts.now rows) out.old }
    ensures duration { HasDuration config.now.policy }
    ensures counters { AreCounters counts.now }
{
    let head = head_of(config, counts, rows);
    put(out, 0, head.bytes())
}

/// Writes a row from a place on, as much as there is room for. Tells the place behind it. The row keeps all limits.
pub fn put_row(out: &mut [u8], at: usize, key: &Key, value: &Value, marked: Mark) -> usize
    requires { at < 2 ^ 48 }
    ensures place { result ≡ at + length (row (row_with key.now value.now marked)) }
    ensures few { result ≤ at + row_bytes }
    ensures out { out.new ≡ put_at at (row (row_with key.now value.now marked)) out.old }
    ensures limits { IsRow (row_with key.now value.now marked) }
{
    let bytes = value.bytes();
    let front = row_front_of(key, marked, bytes.len() as u16);
    let behind = put(out, at, front.bytes());
    put(out, behind, bytes)
}

/// Writes a cache's bytes, as many as there is room for. Tells how many they are.
pub fn save_into(out: &mut [u8], cache: &SavedCache) -> usize
    requires processors { length cache.now.config.processors ≤ most_processors }
    requires rows { length cache.now.rows ≤ most_rows }
    ensures length { result ≡ length (saved cache.now.config (state_of cache.now)) }
    ensures out { out.new ≡ put_at 0 (saved cache.now.config (state_of cache.now)) out.old }
{
    let rows = cache.rows.items();
    let mut at = put_head(out, &cache.config, &cache.counts, rows.len() as u32);
    for row in rows {
        at = put_row(out, at, &row.key, &row.value, row.mark);
    }
    at
}

/// A cache's bytes.
pub fn save(alloc: Global, cache: &SavedCache) -> Result<Vec<u8>, SaveRefusal>
    requires processors { length cache.now.config.processors ≤ most_processors }
    requires rows { length cache.now.rows ≤ most_rows }
    ensures made { IfOk result (λ v. v.items ≡ saved cache.now.config (state_of cache.now)) }
    ensures too_long { saved_bytes < length (saved cache.now.config (state_of cache.now))
        → result ≡ Err SaveRefusal.TooLong }
    ensures fits { length (saved cache.now.config (state_of cache.now)) ≤ saved_bytes
        → IfErr result (λ e. e ≡ SaveRefusal.OutOfMemory) }
{
    let length = save_into(&mut [], cache);
    if length > SAVED_BYTES {
        return Err(SaveRefusal::TooLong);
    }
    match vec![in alloc; 0; length] {
        Ok(mut bytes) => {
            save_into(&mut bytes, cache);
            Ok(bytes)
        }
        Err(_) => Err(SaveRefusal::OutOfMemory),
    }
}
