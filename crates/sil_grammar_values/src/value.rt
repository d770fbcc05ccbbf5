//! What a part of a text stands for while the module is built from its end to its beginning.

use crate::prepended::Prepended;
use crate::written_types::{GivenList, ParamList, TypeList, WrittenType};
use sil_ast::{
    ArgKind, Boxed, Convention, Debug, Given, Imports, Linkage, Member, Param, Place, Signature,
    Stage,
};
use sil_grammar_tree::{
    Fault, InstBox, WrittenArg, WrittenBlock, WrittenCase, WrittenEdge, WrittenEntry, WrittenField,
    WrittenItem, WrittenModule, WrittenOperand, WrittenQualifier, WrittenToken,
};

/// What a token or a part of a text stands for. Large parts stand in boxes, since a hostile text leaves a million
/// values waiting.
#[derive(Drop)]
pub enum Value {
    /// For nothing that the module keeps.
    Nothing,
    Token(WrittenToken),
    Stage(Stage),
    Imports(Imports),
    Items(Prepended<WrittenItem>),
    Item(Boxed<WrittenItem>),
    Fields(Prepended<WrittenField>),
    Field(Boxed<WrittenField>),
    Cases(Prepended<WrittenCase>),
    Type(WrittenType),
    Types(TypeList),
    /// Where the `?` behind a type stand.
    Questions(Prepended<Place>),
    Linkage(Linkage),
    Tokens(Prepended<WrittenToken>),
    Convention(Convention),
    Params(ParamList),
    /// A parameter, and where it begins.
    Param(Param, Place),
    Givens(GivenList),
    /// A result, and where it begins.
    Given(Given, Place),
    Signature(Signature),
    Blocks(Prepended<WrittenBlock>),
    Block(Boxed<WrittenBlock>),
    Args(Prepended<WrittenArg>),
    Arg(Boxed<WrittenArg>),
    /// How a block's argument is annotated.
    Ownership(ArgKind),
    /// The `*` before a type.
    Star,
    /// Instructions and the terminator behind them.
    Code(Prepended<InstBox>, InstBox),
    Inst(InstBox),
    Operands(Prepended<WrittenOperand>),
    Operand(WrittenOperand),
    Edges(Prepended<WrittenEdge>),
    Edge(Boxed<WrittenEdge>),
    Member(Boxed<Member>),
    Flags(Flags),
    Qualifier(WrittenQualifier),
    Debug(Debug),
    Entry(Boxed<WrittenEntry>),
    Module(WrittenModule),
}

/// What a production stands for, and the first fault in it by itself.
#[derive(Drop)]
pub struct Reduced {
    pub value: Value,
    pub fault: Option<Fault>,
}

/// `[lexical]` and `[var_decl]`
#[derive(Clone, Copy)]
pub struct Flags {
    pub lexical: bool,
    pub var_decl: bool,
}
