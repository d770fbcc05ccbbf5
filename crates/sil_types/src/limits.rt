//! Whether a type that a module mentions exceeds the limit on depth, or on leaves.

ghost use Rattle.std.specs.Prelude.{◌≡◌, false};
ghost use Rattle.std.specs.List.{list_any};
ghost use Rattle.sil_types_declarations.specs.numbered_form.Names.{Name};
ghost use Rattle.sil_ast.specs.declared.type_name.TypeName.TheVariants as type_of;
ghost use Rattle.sil_types_declarations.specs.TypeDefinitions.Measures.{measure_of};
ghost use Rattle.sil_types_declarations.specs.TypeDefinitions.Rules as rules;
ghost use Rattle.sil_types_declarations.specs.TypeDefinitions.Rules.{is_too_low};
ghost use Rattle.sil_types_declarations.specs.declared.type_definitions.measure.Measure.{Measure};
ghost use Rattle.sil_types_items.specs.TypeMeasures.inner.Gathered.{capped};
ghost use Rattle.sil_types.specs.inner.Limits as limits;
ghost use Rattle.sil_types.specs.inner.Limits.{exceeds};

use crate::table::TypeTable;
use sil_ast::{Decl, Given, Module, Operand, Text, TypeName};
use sil_rules::limits::{DEPTH, LEAVES};
use sil_types_declarations::{DeclarationTable, Measure, Standing};
use sil_types_items::{MentionTest, any_in_module};

/// Which of the two limits is asked.
#[derive(Clone, Copy)]
pub(crate) enum Limit {
    Depth,
    Leaves,
    Either,
}

/// Whether a measure is past this limit. One that is counted just past the limits is past the same.
fn is_past(what: Limit, measure: Measure) -> bool
    ensures itself { result ≡ limits.is_past what measure }
    ensures counted { (m : Measure) → measure ≡ capped m → result ≡ limits.is_past what m }
{
    match what {
        Limit::Depth => measure.depth > DEPTH,
        Limit::Leaves => measure.leaves > LEAVES,
        Limit::Either => measure.depth > DEPTH || measure.leaves > LEAVES,
    }
}

fn any_measure_past(what: Limit, measures: &[Measure]) -> bool
    ensures { result ≡ list_any (limits.is_past what) measures.now }
{
    for measure in measures {
        if is_past(what, *measure) {
            return true;
        }
    }
    false
}

/// Whether a declared type exceeds the limit.
fn any_declared_past(what: Limit, table: &TypeTable) -> bool
    ensures { result ≡ false → (name : Name) → limits.is_past what (measure_of table.now (type_of.Named name)) ≡ false }
{
    any_measure_past(what, table.declared_measures())
}

/// Finds types that exceed a limit.
#[derive(Drop)]
pub(crate) struct PastLimit<'a> {
    pub table: &'a TypeTable,
    pub what: Limit,
    /// Whether a declared type does. Where none does, no name by itself is looked up.
    declared: bool,
    ghost names: { declared ≡ false → (name : Name) → limits.is_past what (measure_of table.now (type_of.Named name)) ≡ false },
}

impl<'a> PastLimit<'a> {
    pub(crate) fn new(what: Limit, table: &'a TypeTable) -> PastLimit<'a>
        ensures limit { result.what ≡ what }
        ensures types { result.table.now ≡ table.now }
    {
        PastLimit {
            table,
            what,
            declared: any_declared_past(what, table),
        }
    }

    fn is_name_past(&self, name: &Text) -> bool
        ensures { result ≡ limits.is_past self.now.what (measure_of self.now.table.now (type_of.Named name.now)) }
    {
        self.declared && is_past(self.what, self.table.measure_name(name))
    }
}

impl MentionTest for PastLimit<'_> {
    ghost holds = { λ test. exceeds test.what test.table.now };

    #[tactic(auto, using(crate::proofs::PastLimits::integer_within))]
    fn of_written(&self, _: Standing, ty: &TypeName) -> bool {
        match ty {
            TypeName::Int(_) => false,
            TypeName::Named(name) => self.is_name_past(name),
            _ => is_past(self.what, self.table.measure(ty)),
        }
    }

    fn of_declared(&self, name: &Text) -> bool {
        self.is_name_past(name)
    }

    fn of_results(&self, results: &[Given]) -> bool {
        is_past(self.what, self.table.measure_results(results))
    }

    fn of_operands(&self, operands: &[Operand]) -> bool {
        is_past(self.what, self.table.measure_operands(operands))
    }
}

fn is_too_low(table: &DeclarationTable, decl: &Decl) -> bool
    ensures { result ≡ rules.is_too_low table.now decl.now }
{
    match decl {
        Decl::Class { superclass, .. } => table.is_longer(DEPTH - 1, superclass.as_ref()),
        Decl::Struct { .. } => false,
        Decl::Enum { .. } => false,
    }
}

/// Whether a class has more ancestors than the limit on depth allows.
pub(crate) fn any_too_low(table: &DeclarationTable, decls: &[Decl]) -> bool
    ensures { result ≡ list_any (is_too_low table.now) decls.now }
{
    for decl in decls {
        if is_too_low(table, decl) {
            return true;
        }
    }
    false
}

/// Whether the limit is one on chains of classes.
fn counts_classes(what: Limit) -> bool
    ensures { result ≡ limits.counts_classes what }
{
    match what {
        Limit::Depth | Limit::Either => true,
        Limit::Leaves => false,
    }
}

/// Whether a type that the module mentions, or a chain of classes, exceeds the limit.
pub(crate) fn any_past(what: Limit, table: &TypeTable, m: &Module) -> bool
    ensures { result ≡ limits.any_past what table.now m.now }
{
    any_in_module(&PastLimit::new(what, table), m)
        || (counts_classes(what) && any_too_low(table.declarations(), m.decls.as_slice()))
}
