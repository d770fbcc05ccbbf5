//! Instructions as a text writes them.

use crate::written_tree::written_declarations::WrittenToken;
use instruction_table::Op;
use sil_ast::{Boxed, Debug, List, Member, Place, Qualifier, Signature, Text, TypeName};

/// `%2 = load [copy] %1 : $*T`: the parts of an instruction of a module, with names where that has numbers.
#[derive(Drop)]
pub struct WrittenInst {
    pub op: Op,
    pub lexical: bool,
    pub var_decl: bool,
    pub qualifier: WrittenQualifier,
    /// Where its mnemonic stands.
    pub mnemonic: Place,
    /// The names before the `=`; none where there is no `=`.
    pub results: List<WrittenToken>,
    pub operands: List<WrittenOperand>,
    pub ty: Option<TypeName>,
    pub signature: Option<Boxed<Signature>>,
    pub function: Option<Boxed<WrittenToken>>,
    pub member: Option<Boxed<Member>>,
    /// `None` too where the number isn't in its range.
    pub number: Option<i64>,
    pub text: Option<Boxed<Text>>,
    pub debug: Debug,
    pub edges: List<WrittenEdge>,
}

/// `[assign]`, and where its word stands.
#[derive(Clone, Copy)]
pub struct WrittenQualifier {
    pub word: Qualifier,
    pub place: Place,
}

/// `%x : $T`, or `%x`
#[derive(Drop)]
pub struct WrittenOperand {
    pub name: WrittenToken,
    pub ty: Option<TypeName>,
}

/// `bb1(%2 : $T)`, or a case of a `switch_enum`, or its default.
#[derive(Drop)]
pub struct WrittenEdge {
    pub label: WrittenToken,
    pub args: List<WrittenOperand>,
    pub case_of: Option<Boxed<Member>>,
}
