//! Whether weak and unowned storage stands where it may.

ghost use Rattle.std.specs.Prelude.{◌≡◌, map};
ghost use Rattle.std.specs.List.{list_any};
ghost use Rattle.sil_types_declarations.specs.TypeDefinitions.Rules as rules;

use crate::type_mentions::MentionTest;
use sil_ast::{Given, Operand, Text, TypeName};
use sil_types_declarations::{DeclarationTable, Standing};

#[cycle(storage)]
fn has_storage(ty: &TypeName) -> bool
    ensures { result ≡ rules.has_storage ty.now }
{
    match ty {
        TypeName::Int(_) => false,
        TypeName::Named(_) => false,
        TypeName::Optional(target) => has_storage(target.get()),
        TypeName::Tuple(elements) => have_storage(elements.get().as_slice()),
        TypeName::Weak(_) => true,
        TypeName::Unowned(_) => true,
        TypeName::Address(target) => has_storage(target.get()),
    }
}

#[cycle(storage)]
fn have_storage(elements: &[TypeName]) -> bool
    ensures { result ≡ list_any (λ b. b) (map rules.has_storage elements.now) }
{
    for element in elements {
        if has_storage(element) {
            return true;
        }
    }
    false
}

fn is_class_type(table: &DeclarationTable, ty: &TypeName) -> bool
    ensures { result ≡ rules.is_class_type table.now ty.now }
{
    match ty {
        TypeName::Named(name) => table.is_class(name),
        _ => false,
    }
}

fn is_optional_class(table: &DeclarationTable, ty: &TypeName) -> bool
    ensures { result ≡ rules.is_optional_class table.now ty.now }
{
    match ty {
        TypeName::Optional(target) => is_class_type(table, target.get()),
        _ => false,
    }
}

/// Whether the type may not be that of a slot or behind an address.
fn is_misplaced_in_storage(table: &DeclarationTable, ty: &TypeName) -> bool
    ensures { result ≡ rules.is_misplaced_in_storage table.now ty.now }
{
    match ty {
        TypeName::Weak(target) => !is_optional_class(table, target.get()),
        TypeName::Unowned(target) => !is_class_type(table, target.get()),
        _ => has_storage(ty),
    }
}

fn is_misplaced_value(table: &DeclarationTable, ty: &TypeName) -> bool
    ensures { result ≡ rules.is_misplaced_value table.now ty.now }
{
    match ty {
        TypeName::Address(target) => is_misplaced_in_storage(table, target.get()),
        _ => has_storage(ty),
    }
}

/// Whether weak or unowned storage is misplaced in a type that stands there.
pub(crate) fn is_misplaced(table: &DeclarationTable, standing: Standing, ty: &TypeName) -> bool
    ensures { result ≡ rules.is_misplaced_at table.now standing ty.now }
{
    match standing {
        Standing::Object => has_storage(ty),
        Standing::WeakField => !is_optional_class(table, ty),
        Standing::UnownedField => !is_class_type(table, ty),
        Standing::Slot => is_misplaced_in_storage(table, ty),
        Standing::Value => is_misplaced_value(table, ty),
        Standing::Unwritten => false,
    }
}

/// Finds weak and unowned storage that is misplaced.
#[derive(Drop)]
pub(crate) struct MisplacedStorage<'a> {
    pub table: &'a DeclarationTable,
}

impl MentionTest for MisplacedStorage<'_> {
    ghost holds = { λ test. rules.is_misplaced test.table.now };

    fn of_written(&self, standing: Standing, ty: &TypeName) -> bool {
        is_misplaced(self.table, standing, ty)
    }

    fn of_declared(&self, _: &Text) -> bool {
        false
    }

    fn of_results(&self, _: &[Given]) -> bool {
        false
    }

    fn of_operands(&self, _: &[Operand]) -> bool {
        false
    }
}
