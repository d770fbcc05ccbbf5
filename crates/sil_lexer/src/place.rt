//! Lines and columns: the place of an offset, and of what follows a place.

ghost use Rattle.std.specs.Prelude.{◌≡◌, ◌+◌, ◌<◌, ◌≤◌, ◌^◌, length};
ghost use Rattle.sil_lexer.specs.Places.{ahead_of, place_of, IsInLimit, IsPlaceIn};

use sil_ast::Place;

pub(crate) const START: Place = Place {
    offset: 0,
    line: 1,
    column: 1,
};

/// The place of an offset, found by one pass over the bytes before it.
pub fn place_at(text: &[u8], offset: usize) -> Place
    requires limit { IsInLimit text.now }
    requires inside { offset ≤ length text.now }
    ensures { result ≡ place_of text.now offset }
{
    let mut at = START;
    while (at.offset as usize) < offset {
        at = next_place(text, at);
    }
    at
}

/// The place behind the last byte.
pub fn end_place(text: &[u8]) -> Place
    requires { IsInLimit text.now }
    ensures { result ≡ place_of text.now (length text.now) }
{
    place_at(text, text.len())
}

/// The place behind the byte at a place.
pub(crate) fn next_place(text: &[u8], at: Place) -> Place
    requires limit { IsInLimit text.now }
    requires placed { IsPlaceIn text.now at }
    requires some_byte { at.offset < length text.now }
    ensures placed { IsPlaceIn text.now result }
    ensures next { result.offset ≡ at.offset + 1 }
{
    if text[at.offset as usize] == b'\n' {
        Place {
            offset: at.offset + 1,
            line: at.line + 1,
            column: 1,
        }
    } else {
        ahead(at, 1)
    }
}

/// The place that many bytes on in the same line.
pub(crate) fn ahead(at: Place, count: u32) -> Place
    requires offset { at.offset + count < 2 ^ 32 }
    requires column { at.column + count < 2 ^ 32 }
    ensures { result ≡ ahead_of at count }
{
    Place {
        offset: at.offset + count,
        line: at.line,
        column: at.column + count,
    }
}
