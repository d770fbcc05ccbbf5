//! Whether the names in types and members are declared.

ghost use Rattle.std.specs.Prelude.{◌≡◌, map};
ghost use Rattle.std.specs.List.{list_all};
ghost use Rattle.sil_types_declarations.specs.TypeDefinitions.Mentions.{mention};
ghost use Rattle.sil_types_declarations.specs.TypeDefinitions.Rules.{has_unknown_owner, is_no_member};
ghost use Rattle.sil_types_declarations.specs.TypeDefinitions.Rules as rules;

use crate::type_mentions::{MemberTest, MentionTest};
use sil_ast::{Given, Member, Operand, Text, TypeName};
use sil_types_declarations::{DeclarationTable, Standing};

/// Whether every name in the type is declared.
#[cycle(declared)]
fn is_declared(table: &DeclarationTable, ty: &TypeName) -> bool
    ensures { result ≡ rules.is_declared table.now ty.now }
{
    match ty {
        TypeName::Int(_) => true,
        TypeName::Named(name) => table.is_name(name),
        TypeName::Optional(target) => table.has_swift() && is_declared(table, target.get()),
        TypeName::Tuple(elements) => are_declared(table, elements.get().as_slice()),
        TypeName::Weak(target) => is_declared(table, target.get()),
        TypeName::Unowned(target) => is_declared(table, target.get()),
        TypeName::Address(target) => is_declared(table, target.get()),
    }
}

#[cycle(declared)]
fn are_declared(table: &DeclarationTable, elements: &[TypeName]) -> bool
    ensures { result ≡ list_all (λ b. b) (map (rules.is_declared table.now) elements.now) }
{
    for element in elements {
        if !is_declared(table, element) {
            return false;
        }
    }
    true
}

/// Whether the text writes a type there, with a name that isn't declared.
pub(crate) fn is_unknown(table: &DeclarationTable, standing: Standing, ty: &TypeName) -> bool
    ensures { result ≡ rules.is_unknown table.now (mention standing ty.now) }
{
    match standing {
        Standing::Unwritten => false,
        _ => !is_declared(table, ty),
    }
}

/// Finds types with a name that isn't declared.
#[derive(Drop)]
pub(crate) struct UnknownTypes<'a> {
    pub table: &'a DeclarationTable,
}

impl MentionTest for UnknownTypes<'_> {
    ghost holds = { λ test. rules.is_unknown test.table.now };

    fn of_written(&self, standing: Standing, ty: &TypeName) -> bool {
        is_unknown(self.table, standing, ty)
    }

    fn of_declared(&self, _: &Text) -> bool {
        false
    }

    fn of_results(&self, _: &[Given]) -> bool {
        false
    }

    fn of_operands(&self, _: &[Operand]) -> bool {
        false
    }
}

/// Finds members of types that aren't declared.
#[derive(Drop)]
pub(crate) struct UnknownOwners<'a> {
    pub table: &'a DeclarationTable,
}

impl MemberTest for UnknownOwners<'_> {
    ghost fails = { λ test. has_unknown_owner test.table.now };

    fn of_member(&self, member: &Member) -> bool {
        !self.table.is_owner(&member.owner)
    }
}

/// Finds members that their types don't have.
#[derive(Drop)]
pub(crate) struct BadMembers<'a> {
    pub table: &'a DeclarationTable,
}

impl MemberTest for BadMembers<'_> {
    ghost fails = { λ test. is_no_member test.table.now };

    fn of_member(&self, member: &Member) -> bool {
        !self.table.has_member(&member.owner, &member.name)
    }
}
