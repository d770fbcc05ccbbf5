//! How the arguments of blocks come by their kinds and bases.

ghost use Rattle.std.specs.Prelude.{◌≡◌, ◌++◌, IfOk, OnOk, map};
ghost use Rattle.ownership_kinds_origins.specs.Origins as spec;

use crate::operands::one_or_none;
use crate::results::unless_trivial;
use crate::switched::Switched;
use ownership_kinds_chains::{Definition, Origin};
use sil_ast::{ArgKind, BlockArg, Exhausted, List, ShortList};
use sil_types::TypeTable;
use std::alloc::Global;

/// Of a `@guaranteed` argument: one of the entry lends itself, and one behind a switch lends on what is switched.
fn guaranteed_definition(
    alloc: Global,
    entry: bool,
    switched: Option<Switched>,
    trivial: bool,
) -> Result<Definition, Exhausted>
    ensures { IfOk result (λ def. def ≡ spec.arg_definition_by entry switched ArgKind.Guaranteed trivial) }
{
    if entry {
        return Ok(Definition {
            origin: unless_trivial(trivial, Origin::Lender),
            operands: ShortList::new(alloc),
        });
    }
    let operand = match switched {
        Some(switched) => Some(switched.operand),
        None => None,
    };
    Ok(Definition {
        origin: unless_trivial(trivial, Origin::Lent),
        operands: one_or_none(alloc, operand)?,
    })
}

fn arg_definition(
    alloc: Global,
    table: &TypeTable,
    entry: bool,
    switched: Option<Switched>,
    arg: &BlockArg,
) -> Result<Definition, Exhausted>
    ensures { IfOk result (λ def. def ≡ spec.arg_definition table.now entry switched arg.now) }
{
    match arg.kind {
        ArgKind::Plain => Ok(Definition {
            origin: Origin::Plain,
            operands: ShortList::new(alloc),
        }),
        ArgKind::Owned => Ok(Definition {
            origin: unless_trivial(table.is_trivial(&arg.ty), Origin::Owned),
            operands: ShortList::new(alloc),
        }),
        ArgKind::Guaranteed => {
            guaranteed_definition(alloc, entry, switched, table.is_trivial(&arg.ty))
        }
    }
}

/// Adds the definitions of a block's arguments.
pub(crate) fn add_args(
    alloc: Global,
    table: &TypeTable,
    entry: bool,
    switched: Option<Switched>,
    args: &[BlockArg],
    defs: &mut List<Definition>,
) -> Result<(), Exhausted>
    ensures { OnOk result (defs.new ≡ defs.old ++ map (spec.arg_definition table.now entry switched) args.now) }
{
    for arg in args {
        defs.push(arg_definition(alloc, table, entry, switched, arg)?)?;
    }
    Ok(())
}
