//! The quotes of a text of CSV.
ghost use Rattle.std.specs.Prelude.{◌≡◌, IsTrue, OnOk, IfErr, true, false};
ghost use Rattle.mst_commands.specs.Malformed.{EndsForRecord};
ghost use Rattle.mst_commands.specs.Quotes.{behind_bom as text_behind_bom, is_quoted, next_place as place_behind};

use crate::fault::Fault;

/// Where a byte of a text of CSV stands.
#[derive(Clone, Copy, Debug, PartialEq, Eq)]
enum Place {
    /// At the start of a field.
    Start,
    /// In a field that has no quote.
    Plain,
    /// In a field between quotes.
    Quoted,
    /// After a quote in such a field, which ends it, unless another quote follows.
    Closed,
}

/// What begins a text that says that it is in UTF-8.
const BOM: [u8; 3] = [239, 187, 191];

/// Where the byte after this one stands, or none where this one can't stand there.
fn next_place(place: Place, byte: u8) -> Option<Place>
    ensures { result ≡ place_behind place byte }
{
    let is_end = byte == b',' || byte == b'\n' || byte == b'\r';
    match place {
        Place::Start if byte == b'"' => Some(Place::Quoted),
        Place::Quoted if byte == b'"' => Some(Place::Closed),
        Place::Quoted => Some(Place::Quoted),
        Place::Closed if byte == b'"' => Some(Place::Quoted),
        Place::Plain if byte == b'"' => None,
        _ if is_end => Some(Place::Start),
        Place::Closed => None,
        _ => Some(Place::Plain),
    }
}

/// Why no byte like this can stand there.
fn why_not(place: Place) -> &'static str {
    match place {
        Place::Closed => "a field goes on after its closing quote",
        _ => "a quote is inside an unquoted field",
    }
}

/// The line at which the last quote opened a field.
fn opened_at(place: Place, byte: u8, line: u64, opened: u64) -> u64 {
    if place == Place::Start && byte == b'"' {
        line
    } else {
        opened
    }
}

/// The line of the byte after this one.
fn line_behind(byte: u8, line: u64) -> u64 {
    if byte == b'\n' {
        line.saturating_add(1)
    } else {
        line
    }
}

/// A text without what says that it is in UTF-8.
fn behind_bom(text: &[u8]) -> &[u8]
    ensures { result.now ≡ text_behind_bom text.now }
{
    if text.starts_with(&BOM) {
        &text[3..]
    } else {
        text
    }
}

/// Refuses a text of CSV in which a quote is open at the end, stands within a field that begins with none, or has text after it.
///
/// # Errors
///
/// [`Fault::BadLine`] with the line of the quote that is open, or of the byte that is wrong.
pub fn expect_quotes(text: &[u8]) -> Result<(), Fault>
    ensures quoted { OnOk result (is_quoted text.now ≡ true) }
    ensures wrong { IfErr result (EndsForRecord (is_quoted text.now ≡ false)) }
{
    let text = behind_bom(text);
    let mut place = Place::Start;
    let mut line = 1u64;
    let mut opened = 1u64;
    'bytes: for byte in text {
        let Some(next) = next_place(place, *byte) else {
            return Err(Fault::BadLine(line, why_not(place)));
        };
        opened = opened_at(place, *byte, line, opened);
        line = line_behind(*byte, line);
        place = next;
    }
    if place == Place::Quoted {
        return Err(Fault::BadLine(opened, "a quoted field isn't closed"));
    }
    Ok(())
}
