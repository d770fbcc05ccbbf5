//! The cases of an enum: how many there are, and which of them an edge is for.

ghost use Rattle.std.specs.Prelude.{◌≡◌, ◌<◌, ◌≤◌, option_map, unwrap_or, IfSome};
ghost use Rattle.numbered_form.specs.inner.Limits.{IsDeclInLimits};
ghost use Rattle.numbered_form.specs.Lists.{Each};
ghost use Rattle.sil_types.specs.sil_types_declarations.TypeDeclarations.inner.Found.{payload_told};
ghost use Rattle.sil_types.specs.Typing.Shapes as shape;
ghost use Rattle.sil_types.specs.Typing.SwitchRules as rules;

use sil_ast::{Decl, Edge, TypeName};
use sil_rules::limits::MEMBERS;
use sil_types::members::case_in;
use sil_types::{PayloadRef, TypeTable};

/// How many cases a type has: none where it isn't an enum.
pub(crate) fn case_count(table: &TypeTable, ty: &TypeName) -> usize
    requires { Each IsDeclInLimits table.now.decls }
    ensures exact { result ≡ unwrap_or (shape.case_count table.now ty.now) 0 }
    ensures few { result ≤ MEMBERS }
{
    match ty {
        TypeName::Named(name) => match table.decl(name) {
            Some(Decl::Enum { cases, .. }) => cases.len(),
            Some(Decl::Struct { .. }) | Some(Decl::Class { .. }) | None => 0,
        },
        TypeName::Optional(_) => 2,
        TypeName::Int(_)
        | TypeName::Tuple(_)
        | TypeName::Weak(_)
        | TypeName::Unowned(_)
        | TypeName::Address(_) => 0,
    }
}

/// The case of an edge, where the enum has it.
pub(crate) fn case_of_edge<'t>(
    table: &'t TypeTable,
    ty: &'t TypeName,
    edge: &Edge,
) -> Option<PayloadRef<'t>>
    ensures { option_map payload_told result ≡ rules.case_of_edge table.now ty.now edge.now }
{
    match &edge.case_of {
        Some(member) => case_in(table, member.get(), ty),
        None => None,
    }
}

/// The place of an edge's case in the enum.
pub(crate) fn place_in_enum(table: &TypeTable, ty: &TypeName, edge: &Edge) -> Option<usize>
    requires { Each IsDeclInLimits table.now.decls }
    ensures exact { result ≡ rules.place_in_enum table.now ty.now edge.now }
    ensures few { IfSome result (λ place. place < MEMBERS) }
{
    match case_of_edge(table, ty, edge) {
        Some(payload) => Some(payload.index as usize),
        None => None,
    }
}
