//! Where in a text something is.
ghost use Rattle.std.specs.Prelude.{◌≡◌, ◌≤◌, ◌<◌, ◌^◌, take, length};
ghost use Rattle.jc_explain.specs.Place.{line_number, column_of};

/// The line and the column after these bytes, both from 1; a column counts bytes.
#[derive(Clone, Copy, Debug, PartialEq, Eq)]
pub struct Place {
    pub line: usize,
    pub column: usize,
}

/// The place after the first so many bytes of a text.
pub fn place_of(text: &[u8], at: usize) -> Place
    requires short { length text.now < 2 ^ 63 }
    requires within { at ≤ length text.now }
    ensures { result ≡
        record { line = line_number (take at text.now); column = column_of (take at text.now) } }
{
    let mut line = 1;
    let mut column = 1;
    for byte in &text[..at] {
        if *byte == b'\n' {
            line += 1;
            column = 1;
        } else {
            column += 1;
        }
    }
    Place { line, column }
}
