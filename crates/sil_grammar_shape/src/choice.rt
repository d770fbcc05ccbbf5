//! The choice of a production by the next token.

ghost use Rattle.std.specs.Prelude.{◌≡◌, ◌↔◌, find, IsTrue};
ghost use Rattle.sil_grammar_shape.specs.Accepts.{is_type_word};
ghost use Rattle.sil_grammar_shape.specs.inner.ClassNumbers.{accepts};
ghost use Rattle.sil_grammar_shape.specs.Derivation.{Accepts};
ghost use Rattle.sil_grammar_shape.specs.inner.Choice.{choose, has, has_class, row_at_end, row_inside, started};
ghost use Rattle.sil_grammar_tables.specs.inner.Starts.{starts};
ghost use Rattle.sil_grammar_tables.specs.Grammar.{alternatives};

use crate::class_numbers::class_number;
use crate::lookahead::NumberedClass;
use sil_grammar_classes::{Class, Keyword};
use sil_grammar_tables::{
    Nonterminal, Production, Symbol, Terminal, alternatives, empty_choice, ends_block, starts,
};

fn is_type_word(word: Keyword) -> bool
    ensures { result ≡ is_type_word word }
{
    match word {
        Keyword::Builtin | Keyword::Optional => false,
        _ => true,
    }
}

/// Whether a token of this class may stand for the terminal.
#[tactic(auto, unfolding(crate::specs::inner::ClassNumbers::accepts))]
pub(crate) fn accepts_terminal(terminal: Terminal, token: NumberedClass) -> bool
    ensures { result ≡ accepts terminal token.class }
{
    match terminal {
        Terminal::AnyWord => match token.class {
            Class::Word(_) => true,
            _ => false,
        },
        Terminal::TypeWord => match token.class {
            Class::Word(word) => is_type_word(word),
            _ => false,
        },
        Terminal::AnyAt => match token.class {
            Class::At(_) => true,
            _ => false,
        },
        Terminal::AnyText => match token.class {
            Class::BuiltinText | Class::OtherText => true,
            _ => false,
        },
        Terminal::RowWord => match token.class {
            Class::Word(Keyword::Mnemonic(op)) => !ends_block(op),
            _ => false,
        },
        Terminal::EndWord => match token.class {
            Class::Word(Keyword::Mnemonic(op)) => ends_block(op),
            _ => false,
        },
        Terminal::Just(wanted) => class_number(wanted) == token.number,
    }
}

#[tactic(auto, unfolding(crate::specs::inner::Choice::has_class))]
fn has_class(terminals: &[Terminal], class: Class) -> bool
    ensures { result ≡ has_class terminals.now class }
{
    let token = NumberedClass::new(class);
    terminals.iter().any(|t| accepts_terminal(*t, token))
}

#[tactic(auto, unfolding(crate::specs::inner::Choice::has))]
fn has(terminals: &[Terminal], look: Option<Class>) -> bool
    ensures { result ≡ has terminals.now look }
{
    match look {
        None => false,
        Some(class) => has_class(terminals, class),
    }
}

/// The row that begins with a mnemonic inside a block.
#[tactic(auto, unfolding(crate::specs::inner::Choice::row_inside))]
fn row_inside(look: Option<Class>) -> Option<Production>
    ensures { result ≡ row_inside look }
{
    match look {
        Some(Class::Word(Keyword::Mnemonic(op))) if !ends_block(op) => Some(Production::Row(op)),
        _ => None,
    }
}

/// The row that begins with a mnemonic at the end of a block.
#[tactic(auto, unfolding(crate::specs::inner::Choice::row_at_end))]
fn row_at_end(look: Option<Class>) -> Option<Production>
    ensures { result ≡ row_at_end look }
{
    match look {
        Some(Class::Word(Keyword::Mnemonic(op))) if ends_block(op) => Some(Production::Row(op)),
        _ => None,
    }
}

/// The production that begins with the next token, among those that the grammar lists for a part.
fn listed(part: Nonterminal, look: Option<Class>) -> Option<Production>
    ensures { result ≡ find (λ p. has (starts p) look) (alternatives part) }
{
    alternatives(part)
        .iter()
        .copied()
        .find(|production| has(starts(*production), look))
}

/// The production of a part whose text begins with the next token.
#[tactic(auto, unfolding(crate::specs::inner::Choice::started))]
fn started(part: Nonterminal, look: Option<Class>) -> Option<Production>
    ensures { result ≡ started part look }
{
    match part {
        Nonterminal::Row => row_inside(look),
        Nonterminal::Terminator => row_at_end(look),
        _ => listed(part, look),
    }
}

/// The production of a part that is taken at the next token, or at the end.
#[tactic(auto, unfolding(crate::specs::inner::Choice::choose, crate::specs::inner::Choice::or_empty))]
pub fn choose(part: Nonterminal, look: Option<Class>) -> Option<Production>
    ensures { result ≡ choose part look }
{
    match started(part, look) {
        Some(production) => Some(production),
        None => empty_choice(part),
    }
}

/// Whether a token of this class may stand for the symbol.
pub(crate) fn accepts(symbol: Symbol, token: NumberedClass) -> bool
    ensures { IsTrue result ↔ Accepts symbol token.class }
{
    match symbol {
        Symbol::Read(terminal) => accepts_terminal(terminal, token),
        Symbol::Part(_) => false,
    }
}
