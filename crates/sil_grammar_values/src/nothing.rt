//! What stands where nothing is written.

ghost use Rattle.std.specs.Prelude.{◌≡◌, ◌∷◌, [], ◌<◌, length, IfOk};
ghost use Rattle.sil_ast.specs.declared.type_name.TypeName.TheVariants as ty;
ghost use Rattle.sil_grammar_values.specs.Values as none;

use crate::prepended::Prepended;
use crate::value::Value;
use crate::written_types::{GivenList, ParamList, TypeList, WrittenType};
use instruction_table::Op;
use sil_ast::{Boxed, Debug, Exhausted, List, Place, Qualifier, TypeName};
use sil_grammar_tree::{Spelling, WrittenInst, WrittenQualifier, WrittenToken};
use std::alloc::Global;

/// Takes the value of the first part away.
#[inline(never)]
pub fn skip(values: &mut Prepended<Value>)
    requires { 0 < length values.old }
    ensures { (first : Value) × (values.old ≡ first ∷ values.new) }
{
    discard(values.pop_front());
}

/// Drops a value. (In an arm of a `match` the drop would be written out for each variant.)
pub fn discard(value: Value) {
    drop(value);
}

/// Of no token: it stands behind every token.
pub const NO_PLACE: Place = Place {
    offset: u32::MAX,
    line: 0,
    column: 0,
};

pub fn no_token() -> WrittenToken
    ensures { result ≡ none.no_token }
{
    WrittenToken {
        text: Spelling::none(),
        place: NO_PLACE,
    }
}

/// `()`
pub fn unit_type(alloc: Global) -> Result<TypeName, Exhausted>
    ensures { IfOk result (λ made. made ≡ ty.Tuple []) }
{
    Ok(TypeName::Tuple(Boxed::new(alloc, List::new(alloc))?))
}

pub fn no_type() -> WrittenType
    ensures { result ≡ none.no_type }
{
    WrittenType {
        ty: TypeName::Int(0),
        depth: 1,
        first: NO_PLACE,
        last: NO_PLACE,
    }
}

pub fn no_types(alloc: Global) -> TypeList
    ensures { result ≡ none.no_types }
{
    TypeList {
        types: Prepended::new(alloc),
        firsts: Prepended::new(alloc),
        depth: 0,
    }
}

pub fn no_params(alloc: Global) -> ParamList
    ensures { result ≡ none.no_params }
{
    ParamList {
        params: Prepended::new(alloc),
        firsts: Prepended::new(alloc),
    }
}

pub fn no_givens(alloc: Global) -> GivenList
    ensures { result ≡ none.no_givens }
{
    GivenList {
        givens: Prepended::new(alloc),
        firsts: Prepended::new(alloc),
    }
}

pub fn no_debug() -> Debug
    ensures { result ≡ none.no_debug }
{
    Debug {
        name: None,
        binding: None,
        argno: None,
        deref: false,
    }
}

pub fn no_qualifier() -> WrittenQualifier
    ensures { result ≡ none.no_qualifier }
{
    WrittenQualifier {
        word: Qualifier::Plain,
        place: NO_PLACE,
    }
}

/// An instruction of which nothing but its mnemonic is written.
pub fn bare_inst(alloc: Global, op: Op, mnemonic: Place) -> WrittenInst
    ensures { result ≡ none.bare_inst op mnemonic }
{
    WrittenInst {
        op,
        lexical: false,
        var_decl: false,
        qualifier: no_qualifier(),
        mnemonic,
        results: List::new(alloc),
        operands: List::new(alloc),
        ty: None,
        signature: None,
        function: None,
        member: None,
        number: None,
        text: None,
        debug: no_debug(),
        edges: List::new(alloc),
    }
}

pub fn no_inst(alloc: Global) -> WrittenInst
    ensures { result ≡ none.no_inst }
{
    bare_inst(alloc, Op::Unreachable, NO_PLACE)
}
