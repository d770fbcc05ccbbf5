//! Cuts a text into tokens.

ghost use Rattle.std.specs.Prelude.{◌≡◌, [], ◌∷◌, ◌++◌, IfOk, OnOk};
ghost use Rattle.sil_lexer.specs.declared.lexer.LexStop.TheVariants.{Memory};
ghost use Rattle.sil_lexer.specs.Places.{IsInLimit};
ghost use Rattle.sil_lexer.specs.inner.Lexing.{IsLexingOf, IsLongestTaken};

use crate::place::{START, ahead};
use crate::scan::token_at;
use crate::skip::skip;
use crate::token::Token;
use crate::tokens::Tokens;
use sil_ast::Exhausted;
use std::alloc::Global;

/// Why a text was not cut into tokens.
#[derive(Clone, Copy, Debug, PartialEq, Eq)]
pub enum LexStop {
    Memory,
}

impl From<Exhausted> for LexStop {
    ghost from_gives = { λ _ e. e ≡ Memory };

    fn from(_exhausted: Exhausted) -> LexStop {
        LexStop::Memory
    }
}

/// The tokens of a text of at most 1,048,576 bytes, up to its end or up to the first place where there is none.
pub fn lex(alloc: Global, text: &[u8]) -> Result<Tokens, LexStop>
    requires { IsInLimit text.now }
    ensures { IfOk result (IsLexingOf text.now) }
{
    let mut tokens = with_room(alloc, text.len() / 3)?;
    let mut at = skip(text, START);
    while (at.offset as usize) < text.len() {
        match token_at(&text[at.offset as usize..], at) {
            Ok(token) => {
                push(&mut tokens, token)?;
                at = skip(text, ahead(at, token.length));
            }
            Err(refusal) => return Ok(Tokens::new(tokens, Some(refusal))),
        }
    }
    Ok(Tokens::new(tokens, None))
}

/// No tokens, with room for so many.
fn with_room(alloc: Global, count: usize) -> Result<Vec<Token>, Exhausted>
    ensures { IfOk result (λ tokens. tokens.items ≡ []) }
{
    let tokens = Vec::with_capacity(alloc, count)?;
    Ok(tokens)
}

fn push(tokens: &mut Vec<Token>, token: Token) -> Result<(), Exhausted>
    ensures { OnOk result (tokens.new.items ≡ tokens.old.items ++ token ∷ []) }
{
    tokens.push(token)?;
    Ok(())
}

/// No spelling of any kind is longer than the one that is taken.
pub fn longest_taken()
    ensures { IsLongestTaken }
{}
