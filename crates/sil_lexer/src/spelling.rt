//! What a spelling says, without the bytes that tell its kind.

ghost use Rattle.std.specs.Prelude.{◌≡◌};
ghost use Rattle.sil_lexer.specs.Spelling as spelled;

/// A name without its sigil: `main` of `@main`.
pub fn without_sigil(spelling: &[u8]) -> &[u8]
    ensures { result.now ≡ spelled.without_sigil spelling.now }
{
    if spelling.is_empty() {
        spelling
    } else {
        &spelling[1..]
    }
}

/// A text without its quotes.
pub fn without_quotes(spelling: &[u8]) -> &[u8]
    ensures { result.now ≡ spelled.without_quotes spelling.now }
{
    if spelling.len() < 2 {
        &[]
    } else {
        &spelling[1..spelling.len() - 1]
    }
}
