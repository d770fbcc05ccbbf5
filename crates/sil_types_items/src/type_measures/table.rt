//! The measures of all declarations, each once, in an order in which parts stand before wholes.

ghost use Rattle.std.specs.Prelude.{◌≡◌, map, IfOk};
ghost use Rattle.sil_types_declarations.specs.number_tables.ContainmentOrder.inner.Order.{IsOrder};
ghost use Rattle.sil_types_declarations.specs.TypeDefinitions.Contained.{containment};
ghost use Rattle.sil_types_declarations.specs.TypeDefinitions.Measures.{measures_of};
ghost use Rattle.sil_types_items.specs.TypeMeasures.inner.Gathered.{capped};

use crate::type_measures::measure::measure_decl;
use sil_ast::{Exhausted, List};
use sil_types_declarations::{DeclarationTable, Measure};
use std::alloc::Global;

/// The measures of all declarations, by an order in which parts stand before wholes.
pub fn measures(
    alloc: Global,
    table: &DeclarationTable,
    order: &[usize],
) -> Result<List<Measure>, Exhausted>
    requires { IsOrder (containment table.now) order.now }
    ensures { IfOk result (λ ms. ms ≡ map capped (measures_of table.now)) }
{
    let decls = table.decls();
    let unmeasured = Measure {
        trivial: true,
        leaves: 0,
        depth: 0,
    };
    let mut measures = vec![in alloc; unmeasured; decls.len()]?;
    for place in order {
        let measure = measure_decl(table, measures.as_slice(), &decls[*place]);
        measures[*place] = measure;
    }
    Ok(List::from_vec(measures))
}
