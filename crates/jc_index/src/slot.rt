//! A slot's words.
ghost use Rattle.std.specs.Prelude.{◌≡◌, ◌≤◌, [], ◌∷◌, ◌++◌, length, option_map, slice_index};
ghost use Rattle.jc_model.specs.Limits.{key_bytes};
ghost use Rattle.jc_model.specs.Key.{words_of};
ghost use Rattle.jc_cuckoo.specs.Images.{shown_row};
ghost use Rattle.jc_index.specs.Spelling.{IsCoded, bytes_in, key_of_words, words_of_slot};

use crate::layout::{MOMENT_PLACE, SLOT_WORDS};
use jc_cuckoo::held::Held;
use jc_model::config::Expiry;
use jc_model::key::Key;
use jc_model::limits::KEY_WORDS;

/// Above a cache's number: the row never expires.
pub(crate) const NEVER: u64 = 0x2_0000_0000;

/// The words of a text spell its bytes.
fn spelt(text: &[u8], words: [u64; KEY_WORDS]) -> [u64; KEY_WORDS]
    requires few { length text.now ≤ key_bytes }
    requires same { words ≡ words_of text.now }
    ensures same { result ≡ words_of text.now }
    ensures exact { key_of_words result ≡ text.now }
    ensures first { slice_index (bytes_in result) 0 ≡ length text.now }
{
    words
}

/// A key's words spell it.
pub(crate) fn words_of_key(key: &Key) -> [u64; KEY_WORDS]
    ensures same { result ≡ words_of key.now }
    ensures exact { key_of_words result ≡ key.now }
    ensures first { slice_index (bytes_in result) 0 ≡ length key.now }
{
    spelt(key.text().as_bytes(), key.words())
}

/// A word, then those of a key, then another word.
fn around(first: u64, key: &[u64; KEY_WORDS], last: u64) -> [u64; SLOT_WORDS]
    ensures { result ≡ first ∷ key.now ++ last ∷ [] }
{
    let mut words = [0; SLOT_WORDS];
    words[0] = first;
    words[1..=KEY_WORDS].copy_from_slice(key);
    words[MOMENT_PLACE] = last;
    words
}

/// The first word is 0 where the slot is empty, else the cache's number plus 1; then come the key's words and the
/// moment at which the row expires.
pub(crate) fn words_of_slot(slot: Option<Held>) -> [u64; SLOT_WORDS]
    ensures same { result ≡ words_of_slot (option_map shown_row slot) }
    ensures coded { IsCoded (option_map shown_row slot) }
{
    let Some(held) = slot else {
        return [0; SLOT_WORDS];
    };
    let key = words_of_key(&held.key);
    let number = u64::from(held.id.number()) + 1;
    match held.expiry {
        Expiry::Never => around(NEVER + number, &key, 0),
        Expiry::At(moment) => around(number, &key, moment),
    }
}
