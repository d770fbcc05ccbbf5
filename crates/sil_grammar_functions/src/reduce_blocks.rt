//! What the productions of blocks stand for.

ghost use Rattle.std.specs.Prelude.{◌≡◌, ◌≤◌, length, IfOk, OnOk};
ghost use Rattle.instruction_table.specs.declared.op.Op.{Op};
ghost use Rattle.sil_grammar_tables.specs.Grammar.{body};
ghost use Rattle.sil_grammar_tables.specs.declared.grammar.Production.TheVariants.{Row};
ghost use Rattle.sil_grammar_tables.specs.declared.sections.Section.TheVariants.{Blocks};
ghost use Rattle.sil_grammar_values.specs.inner.PartFaults.{part_fault};
ghost use Rattle.sil_grammar_values.specs.inner.Reduced.{parts_of, reduced};
ghost use Rattle.sil_grammar_tables.specs.inner.Sections.{section};

use crate::build_blocks;
use sil_ast::{ArgKind, Exhausted};
use sil_grammar_tables::Production;
use sil_grammar_tree::Fault;
use sil_grammar_values::nothing::skip;
use sil_grammar_values::prepended::Prepended;
use sil_grammar_values::put::{pass, put_nothing};
use sil_grammar_values::value::Value;
use std::alloc::Global;

/// Puts what a production of blocks that isn't a row stands for in the place of the values of its body.
#[tactic(auto, unfolding(sil_grammar_values::specs::inner::Reduced::reducing, sil_grammar_tables::specs::inner::Sections::telling))]
pub fn reduce_block(
    alloc: Global,
    production: Production,
    values: &mut Prepended<Value>,
) -> Result<Option<Fault>, Exhausted>
    requires section { section production ≡ Blocks }
    requires no_row { (op : Op) → production ≡ Row op → ⊥ }
    requires parts { length (body production) ≤ length values.old }
    ensures values { OnOk result (values.new ≡ reduced production values.old) }
    ensures fault { IfOk result (λ fault. fault ≡ part_fault production (parts_of production values.old)) }
{
    match production {
        Production::NamesNone | Production::MoreNamesEnd | Production::BareNamesNone => {
            build_blocks::no_names(alloc, values)?
        }
        Production::BlocksMore => build_blocks::blocks(alloc, values)?,
        Production::BlocksEnd => build_blocks::no_blocks(alloc, values)?,
        Production::WholeBlock => return build_blocks::whole_block(alloc, values),
        Production::BlockArgsSome => build_blocks::args(alloc, values)?,
        Production::MoreBlockArgsMore => build_blocks::more_args(alloc, values)?,
        Production::BlockArgsNone | Production::MoreBlockArgsEnd => {
            build_blocks::no_args(alloc, values)?
        }
        Production::WholeBlockArg => build_blocks::block_arg(alloc, values)?,
        Production::OwnershipOwned => {
            skip(values);
            build_blocks::ownership(ArgKind::Owned, values)?
        },
        Production::OwnershipGuaranteed => {
            skip(values);
            build_blocks::ownership(ArgKind::Guaranteed, values)?
        },
        Production::OwnershipNone => build_blocks::ownership(ArgKind::Plain, values)?,
        Production::StarSome => {
            skip(values);
            build_blocks::star(values)?
        },
        Production::CodeInst => build_blocks::more_code(alloc, values)?,
        Production::CodeEnd => build_blocks::last_code(alloc, values)?,
        Production::InstOneName => build_blocks::one_name(alloc, values)?,
        Production::InstNames => return build_blocks::names(alloc, values),
        Production::NamesSome | Production::BareNamesSome => {
            build_blocks::name_list(alloc, values)?
        }
        Production::MoreNamesMore => {
            skip(values);
            build_blocks::name_list(alloc, values)?
        },
        Production::InstUnnamed => pass(values),
        Production::StarNone => put_nothing(values)?,
        _ => unreachable!(),
    }
    Ok(None)
}
