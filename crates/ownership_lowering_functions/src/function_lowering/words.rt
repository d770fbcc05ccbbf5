//! Loads, stores and places that are destroyed.

ghost use Rattle.std.specs.Prelude.{◌≡◌, ◌++◌, ◌∷◌, [], OnOk};
ghost use Rattle.sil_types.specs.Typing.FormRules as forms;
ghost use Rattle.std.specs.List.{flat_map};
ghost use Rattle.ownership_lowering_model.specs.LoweredInsts as insts;
ghost use Rattle.ownership_lowering_functions.specs.FunctionLowering.inner.Drafts.{told, told_insts};

use crate::function_lowering::counts::{add_retains_loaded, release, type_at};
use crate::function_lowering::draft::Draft;
use instruction_table::Op;
use sil_ast::{Exhausted, Inst, List, Operand, Qualifier, ValueId};
use sil_types::shapes::{is_storage, target};
use sil_types::{TypeTable, written};

/// The same instruction, without a word.
fn plain(inst: &Inst, op: Op) -> Draft<'_>
    ensures { told result ≡ record inst.now { op = op; qualifier = Qualifier.Plain } }
{
    Draft::Kept {
        inst,
        op,
        qualifier: Qualifier::Plain,
    }
}

/// Adds what becomes of a `load` or a `load_borrow`.
pub(crate) fn add_load<'a>(
    table: &TypeTable,
    inst: &'a Inst,
    drafts: &mut List<Draft<'a>>,
) -> Result<(), Exhausted>
    ensures { OnOk result ((spare : ValueId) → told_insts drafts.new ≡ told_insts drafts.old ++ insts.loads_by table.now spare inst.now.qualifier inst.now) }
{
    drafts.push(plain(inst, Op::Load))?;
    match inst.qualifier {
        Qualifier::Copy => match inst.operands.get(0) {
            Some(place) => add_retains_loaded(table, place, inst.results.as_slice(), drafts),
            None => Ok(()),
        },
        Qualifier::Plain
        | Qualifier::Take
        | Qualifier::Trivial
        | Qualifier::Init
        | Qualifier::Assign => Ok(()),
    }
}

/// Adds the release of what a place held before.
fn add_release_of_old<'a>(
    table: &TypeTable,
    spare: ValueId,
    place: &'a Operand,
    drafts: &mut List<Draft<'a>>,
) -> Result<(), Exhausted>
    ensures { OnOk result (told_insts drafts.new ≡ told_insts drafts.old ++ insts.releases_spare table.now spare place.now ∷ []) }
{
    drafts.push(release(table, spare, type_at(place)))
}

/// Adds what becomes of a `store [assign]` to a place: the new value is there before the old one is released.
fn add_assign<'a>(
    table: &TypeTable,
    spare: ValueId,
    inst: &'a Inst,
    to: &'a Operand,
    drafts: &mut List<Draft<'a>>,
) -> Result<(), Exhausted>
    ensures { OnOk result (told_insts drafts.new ≡ told_insts drafts.old ++ insts.assigns table.now spare inst.now to.now) }
{
    drafts.push(Draft::Loaded {
        place: to,
        result: spare,
    })?;
    drafts.push(plain(inst, inst.op))?;
    add_release_of_old(table, spare, to, drafts)
}

/// Adds what becomes of a `store`.
pub(crate) fn add_store<'a>(
    table: &TypeTable,
    spare: ValueId,
    inst: &'a Inst,
    drafts: &mut List<Draft<'a>>,
) -> Result<(), Exhausted>
    ensures { OnOk result (told_insts drafts.new ≡ told_insts drafts.old ++ insts.stores_by table.now spare inst.now.qualifier inst.now) }
{
    match inst.qualifier {
        Qualifier::Assign => match inst.operands.get(1) {
            Some(place) => add_assign(table, spare, inst, place, drafts),
            None => Ok(()),
        },
        Qualifier::Plain
        | Qualifier::Copy
        | Qualifier::Take
        | Qualifier::Trivial
        | Qualifier::Init => drafts.push(plain(inst, inst.op)),
    }
}

/// Whether the first operand is the address of weak or unowned storage.
fn is_at_storage(inst: &Inst) -> bool
    ensures { result ≡ forms.is_at_storage inst.now }
{
    match written(inst, 0) {
        Some(ty) => match target(ty) {
            Some(inner) => is_storage(inner),
            None => false,
        },
        None => false,
    }
}

/// Adds a load of what each of some places holds, and its release.
fn add_emptied<'a>(
    table: &TypeTable,
    spare: ValueId,
    places: &'a [Operand],
    drafts: &mut List<Draft<'a>>,
) -> Result<(), Exhausted>
    ensures { OnOk result (told_insts drafts.new ≡ told_insts drafts.old ++ flat_map (insts.releases_at table.now spare) places.now) }
{
    for place in places {
        drafts.push(Draft::Loaded {
            place,
            result: spare,
        })?;
        add_release_of_old(table, spare, place, drafts)?;
    }
    Ok(())
}

/// Adds what becomes of a `destroy_addr`.
pub(crate) fn add_destroy<'a>(
    table: &TypeTable,
    spare: ValueId,
    inst: &'a Inst,
    drafts: &mut List<Draft<'a>>,
) -> Result<(), Exhausted>
    ensures { OnOk result (told_insts drafts.new ≡ told_insts drafts.old ++ insts.destroys_by table.now spare (forms.is_at_storage inst.now) inst.now) }
{
    if is_at_storage(inst) {
        drafts.push(Draft::Kept {
            inst,
            op: inst.op,
            qualifier: inst.qualifier,
        })
    } else {
        add_emptied(table, spare, inst.operands.as_slice(), drafts)
    }
}
