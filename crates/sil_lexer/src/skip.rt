//! The way over blanks and comments.

ghost use Rattle.std.specs.Prelude.{◌≡◌, ◌+◌, ◌≤◌, length, drop, IsFalse, IsTrue};
ghost use Rattle.sil_ast.specs.TextBytes.Bytes as byte;
ghost use Rattle.sil_lexer.specs.Spelling.{begins_with};
ghost use Rattle.sil_lexer.specs.Places.{IsInLimit, IsPlaceIn};
ghost use Rattle.sil_lexer.specs.Lexes.{begins_comment, Skips};
ghost use Rattle.sil_lexer.specs.inner.Scan.{SkipsOne, SkipsTo};

use crate::bytes::line_length;
use crate::place::{ahead, next_place};
use sil_ast::Place;

/// The first place from `start` on where neither a blank nor a comment stands.
#[inline(always)]
pub(crate) fn skip(text: &[u8], start: Place) -> Place
    requires limit { IsInLimit text.now }
    requires placed { IsPlaceIn text.now start }
    ensures { SkipsTo text.now start result }
{
    let mut at = skip_blanks(text, start);
    while is_comment_at(text, at) {
        at = skip_blanks(text, skip_comment(text, at));
    }
    at
}

/// The first place from `start` on where no blank stands.
fn skip_blanks(text: &[u8], start: Place) -> Place
    requires limit { IsInLimit text.now }
    requires placed { IsPlaceIn text.now start }
    ensures placed { IsPlaceIn text.now result }
    ensures forward { start.offset ≤ result.offset }
    ensures skipped { Skips (drop start.offset text.now) (drop result.offset text.now) }
    ensures no_blank { IsFalse (begins_with byte.is_blank (drop result.offset text.now)) }
{
    let mut at = start;
    while (at.offset as usize) < text.len() {
        match text[at.offset as usize] {
            b' ' | b'\t' | b'\r' => at = ahead(at, 1),
            b'\n' => at = next_place(text, at),
            _ => return at,
        }
    }
    at
}

fn is_comment_at(text: &[u8], at: Place) -> bool
    requires limit { IsInLimit text.now }
    requires placed { IsPlaceIn text.now at }
    ensures comment { result ≡ begins_comment (drop at.offset text.now) }
    ensures room { IsTrue result → at.offset + 2 ≤ length text.now }
{
    let offset = at.offset as usize;
    if offset == text.len() || text[offset] != b'/' {
        return false;
    }
    offset + 1 < text.len() && text[offset + 1] == b'/'
}

/// The place behind the comment at a place and its line feed.
fn skip_comment(text: &[u8], at: Place) -> Place
    requires limit { IsInLimit text.now }
    requires placed { IsPlaceIn text.now at }
    requires room { at.offset + 2 ≤ length text.now }
    requires comment { IsTrue (begins_comment (drop at.offset text.now)) }
    ensures { SkipsOne text.now at result }
{
    let line = &text[at.offset as usize + 2..];
    let end = ahead(at, 2 + line_length(line) as u32);
    if (end.offset as usize) < text.len() {
        next_place(text, end)
    } else {
        end
    }
}
