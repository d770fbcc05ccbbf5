//! The table of a module's types.

ghost use Rattle.std.specs.Prelude.{◌≡◌, map};
ghost use Rattle.std.specs.List.{flat_map};
ghost use Rattle.sil_ast.specs.declared.type_name.TypeName.TheVariants as type_of;
ghost use Rattle.sil_types_declarations.specs.TypeDefinitions.Measures.{measure_of, measures_of};
ghost use Rattle.sil_types_declarations.specs.TypeDefinitions.Mentions.{direct_type, operand_types, together};
ghost use Rattle.sil_types_items.specs.TypeMeasures.inner.Gathered.{capped};

use sil_ast::{Given, List, Operand, Text, TypeName};
use sil_types_declarations::{DeclarationTable, Measure};
use sil_types_items::{measure_name, measure_operands, measure_results, measure_type};
use std::marker::Model;

/// What a module declares, with what is measured on its types. To a contract it is what the module declares.
#[derive(Drop)]
pub struct TypeTable {
    pub(crate) declarations: DeclarationTable,
    /// Of each declaration, in order. Leaves and depth are counted just past their limits.
    pub(crate) measures: List<Measure>,
}

impl Model for TypeTable {
    ghost use Rattle.std.specs.Prelude.{◌≡◌, map};
    ghost use Rattle.std.specs.Coded.{codes};
    ghost use Rattle.sil_ast.specs.contracts.type_name.TypeName as type_name;
    ghost use Rattle.sil_types_declarations.specs.TypeDefinitions.Declarations.{Declarations};
    ghost use Rattle.sil_types_declarations.specs.TypeDefinitions.Measures.{measures_of};
    ghost use Rattle.sil_types_items.specs.TypeMeasures.inner.Gathered.{capped};

    ghost Value = { Declarations };

    ghost coded = { Prim.hlevel (codes, type_name.the_row.coded) };

    ghost view = { λ t. t.declarations };

    ghost invariant = { λ t. t.measures ≡ map capped (measures_of t.declarations) };
}

impl TypeTable {
    /// What the module declares.
    pub(crate) fn declarations(&self) -> &DeclarationTable
        ensures { result.now ≡ self.now }
    {
        &self.declarations
    }

    /// Of each declaration, in order. Leaves and depth are counted just past their limits.
    pub(crate) fn declared_measures(&self) -> &[Measure]
        ensures { result.now ≡ map capped (measures_of self.now) }
    {
        self.measures.as_slice()
    }

    pub(crate) fn measure(&self, ty: &TypeName) -> Measure
        ensures { result ≡ capped (measure_of self.now ty.now) }
    {
        measure_type(&self.declarations, self.measures.as_slice(), ty)
    }

    pub(crate) fn measure_name(&self, name: &Text) -> Measure
        ensures { result ≡ capped (measure_of self.now (type_of.Named name.now)) }
    {
        measure_name(&self.declarations, self.measures.as_slice(), name)
    }

    pub(crate) fn measure_results(&self, results: &[Given]) -> Measure
        ensures { result ≡ capped (measure_of self.now (direct_type results.now)) }
    {
        measure_results(&self.declarations, self.measures.as_slice(), results)
    }

    pub(crate) fn measure_operands(&self, operands: &[Operand]) -> Measure
        ensures { result ≡ capped (measure_of self.now (together (flat_map operand_types operands.now))) }
    {
        measure_operands(&self.declarations, self.measures.as_slice(), operands)
    }
}
