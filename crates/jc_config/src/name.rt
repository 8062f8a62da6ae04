//! Names of caches.

ghost use Rattle.std.specs.Prelude.{◌≡◌};
ghost use Rattle.jc_config.specs.Kinds.{is_name_byte, is_name, name_in};
ghost use Rattle.std.specs.List.{list_all};

use jc_model::key::Key;
use jc_model::limits::KEY_BYTES;

fn is_name_byte(byte: u8) -> bool
    ensures { result ≡ is_name_byte byte }
{
    matches!(byte, b'a'..=b'z' | b'A'..=b'Z' | b'0'..=b'9' | b'-' | b'_')
}

/// Whether a text is a cache's name.
fn is_name(text: &str) -> bool
    ensures { result ≡ is_name text.now }
{
    let bytes = text.as_bytes();
    !bytes.is_empty() && bytes.len() <= KEY_BYTES && has_name_bytes(bytes)
}

fn has_name_bytes(bytes: &[u8]) -> bool
    ensures { result ≡ list_all is_name_byte bytes.now }
{
    bytes.iter().all(|byte| is_name_byte(*byte))
}

/// The name that a text is, if it is one: 1 to 63 of the ASCII letters, digits, `-` and `_`.
pub fn name_in(text: &str) -> Option<Key>
    ensures { result ≡ name_in text.now }
{
    if is_name(text) {
        Key::from_text(text).ok()
    } else {
        None
    }
}
