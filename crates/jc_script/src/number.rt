//! The numbers of a line, as serde_json takes them.
ghost use Rattle.std.specs.Prelude.{◌≡◌, ◌==◌, ◌<◌, true, false, IsTrue, length, slice_index, is_some, option_and_then};
ghost use Rattle.serde_json.specs.Find.{as_u64};
ghost use Rattle.serde_json.specs.Read.{number_of, number_from};
ghost use Rattle.jc_script.specs.Tree.{num_of};

use fast_float::Numeral;

/// Whether a number with this text has a minus.
fn has_minus(bytes: &[u8]) -> bool
    ensures value { result ≡ (slice_index bytes.now 0 == 45) }
    ensures some { IsTrue result → 0 < length bytes.now }
{
    !bytes.is_empty() && bytes[0] == b'-'
}

/// Whether the number of a numeral without a minus is in range.
fn has_unsigned(numeral: &Numeral<'_>) -> bool
    ensures { result ≡ is_some (number_from false numeral.now) }
{
    numeral.to_u64().is_some() || numeral.to_float::<f64>(false).is_finite()
}

/// Whether the number of a numeral after a minus is in range.
fn has_negative(numeral: &Numeral<'_>) -> bool
    ensures { result ≡ is_some (number_from true numeral.now) }
{
    match numeral.to_i64(true) {
        Some(n) if n < 0 => true,
        _ => numeral.to_float::<f64>(true).is_finite(),
    }
}

/// Whether a number with this text is in range.
pub fn is_number(text: &str) -> bool
    ensures { result ≡ is_some (number_of text.now) }
{
    let bytes = text.as_bytes();
    if has_minus(bytes) {
        has_negative(&Numeral::scan(&bytes[1..]))
    } else {
        has_unsigned(&Numeral::scan(bytes))
    }
}

/// The whole number of 64 bits that a numeral without a minus is, if it is one.
fn whole_from(numeral: &Numeral<'_>) -> Option<u64>
    ensures { result ≡ option_and_then as_u64 (number_from false numeral.now) }
{
    numeral.to_u64()
}

/// The whole number of 64 bits with this text, if it is one.
pub fn whole_of(text: &str) -> Option<u64>
    ensures { result ≡ as_u64 (num_of text.now) }
{
    let bytes = text.as_bytes();
    if has_minus(bytes) {
        None
    } else {
        whole_from(&Numeral::scan(bytes))
    }
}
