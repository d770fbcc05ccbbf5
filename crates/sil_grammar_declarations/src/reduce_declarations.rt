//! What the productions of members, fields and cases stand for.

ghost use Rattle.std.specs.Prelude.{◌≡◌, ◌≤◌, length, IfOk, OnOk};
ghost use Rattle.sil_grammar_tables.specs.Grammar.{body};
ghost use Rattle.sil_grammar_tables.specs.declared.sections.Section.TheVariants.{Declarations};
ghost use Rattle.sil_grammar_values.specs.inner.PartFaults.{part_fault};
ghost use Rattle.sil_grammar_values.specs.inner.Reduced.{parts_of, reduced};
ghost use Rattle.sil_grammar_tables.specs.inner.Sections.{section};

use crate::build_declarations;
use sil_ast::{Exhausted, Storage};
use sil_grammar_tables::Production;
use sil_grammar_tree::Fault;
use sil_grammar_values::nothing::skip;
use sil_grammar_values::prepended::Prepended;
use sil_grammar_values::put::{pass, put_nothing, put_second};
use sil_grammar_values::value::Value;
use std::alloc::Global;

/// Puts what a production of declarations stands for in the place of the values of its body.
#[tactic(auto, unfolding(sil_grammar_values::specs::inner::Reduced::reducing, sil_grammar_tables::specs::inner::Sections::telling))]
pub fn reduce_declaration(
    alloc: Global,
    production: Production,
    values: &mut Prepended<Value>,
) -> Result<Option<Fault>, Exhausted>
    requires section { section production ≡ Declarations }
    requires parts { length (body production) ≤ length values.old }
    ensures values { OnOk result (values.new ≡ reduced production values.old) }
    ensures fault { IfOk result (λ fault. fault ≡ part_fault production (parts_of production values.old)) }
{
    match production {
        Production::MembersMore | Production::FieldsMore => {
            build_declarations::fields(alloc, values)?
        }
        Production::MembersEnd | Production::FieldsEnd => {
            build_declarations::no_fields(alloc, values)?
        }
        Production::WeakVariable => build_declarations::variable(alloc, Storage::Weak, values)?,
        Production::UnownedVariable => build_declarations::variable(
            alloc,
            Storage::Unowned,
            values,
        )?,
        Production::VarBinding | Production::LetBinding => {
            build_declarations::binding(alloc, values)?
        }
        Production::CasesMore => build_declarations::more_cases(alloc, values)?,
        Production::CasesEnd => build_declarations::no_cases(alloc, values)?,
        Production::PlainMember
        | Production::ModifiedVariable
        | Production::StrongVariable
        | Production::PlainField => pass(values),
        Production::StoredMember
        | Production::FinalMember
        | Production::ModifiedStored
        | Production::ModifiedFinal
        | Production::StoredField => put_second(values)?,
        Production::DeinitMember | Production::SetterSome => {
            skip(values);
            put_nothing(values)?
        },
        Production::InitMember => {
            skip(values);
            skip(values);
            skip(values);
            put_nothing(values)?
        },
        Production::AccessorsSome => {
            skip(values);
            skip(values);
            skip(values);
            skip(values);
            put_nothing(values)?
        },
        Production::AccessorsNone | Production::SetterNone => put_nothing(values)?,
        _ => unreachable!(),
    }
    Ok(None)
}
