//! The tokens of a text in order, and the place where they end. They keep no bytes: the text shows those.

ghost use Rattle.std.specs.Prelude.{All, ◌≡◌, ◌<◌, length, take};
ghost use Rattle.std.specs.List.{HoldsAt};

use crate::token::{LexRefusal, Token, TokenKind};
use sil_ast::Place;
use std::marker::Model;

/// The tokens of a text up to its end, or up to the first place where no token can be taken.
#[derive(Debug, Drop)]
pub struct Tokens {
    tokens: Vec<Token>,
    stop: Option<LexRefusal>,
}

impl Model for Tokens {
    ghost use Rattle.sil_lexer.specs.inner.Lexing.{Lexing};

    ghost Value = { Lexing };

    ghost view = { λ it. record { tokens = it.tokens.items; stop = it.stop } };
}

impl Tokens {
    ghost use Rattle.sil_lexer.specs.inner.Lexing.{spelling_of, IsInside};

    pub(crate) fn new(tokens: Vec<Token>, stop: Option<LexRefusal>) -> Tokens
        ensures tokens { result.tokens ≡ tokens.items }
        ensures stop { result.stop ≡ stop }
    {
        Tokens { tokens, stop }
    }

    pub fn len(&self) -> usize
        ensures { result ≡ length self.now.tokens }
    {
        self.tokens.len()
    }

    pub fn kind(&self, i: usize) -> TokenKind
        requires { i < length self.now.tokens }
        ensures { HoldsAt (λ token. result ≡ token.kind) self.now.tokens i }
    {
        self.tokens[i].kind
    }

    /// Where the token begins.
    pub fn place(&self, i: usize) -> Place
        requires { i < length self.now.tokens }
        ensures { HoldsAt (λ token. result ≡ token.place) self.now.tokens i }
    {
        self.tokens[i].place
    }

    /// The bytes of the token in `source`, the text that was cut: all of them, with a sigil and quotes.
    pub fn text<'t>(&self, source: &'t [u8], i: usize) -> &'t [u8]
        requires in_range { i < length self.now.tokens }
        requires inside { All (IsInside source.now) self.now.tokens }
        ensures { HoldsAt (λ token. result.now ≡ spelling_of source.now token) self.now.tokens i }
    {
        let token = self.tokens[i];
        let from = token.place.offset as usize;
        &source[from..from + token.length as usize]
    }

    /// Lets go of all tokens but the first `count`.
    pub fn truncate(&mut self, count: usize)
        ensures { self.new.tokens ≡ take count self.old.tokens }
    {
        self.tokens.truncate(count);
    }

    /// Gives back the memory that the tokens don't need any more.
    pub fn shrink_to_fit(&mut self)
        ensures { self.new.tokens ≡ self.old.tokens }
    {
        self.tokens.shrink_to_fit();
    }

    /// The place where the tokens end, and why, if they don't reach the end of the text.
    pub fn stop(&self) -> Option<LexRefusal>
        ensures { result ≡ self.now.stop }
    {
        self.stop
    }
}
