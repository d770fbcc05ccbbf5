//! Instructions, made ready to run, by what their rows do.

ghost use Rattle.std.specs.Prelude.{◌≡◌, IfOk, Some, option_and_then};
ghost use Rattle.std.specs.Option.{option_copied};
ghost use Rattle.holder_model.specs.Effects as effects;
ghost use Rattle.holder_model.specs.MemoryEffects as memory_effects;
ghost use Rattle.holder_model.specs.declared.row_effect.RowEffect.TheVariants as row;
ghost use Rattle.holder_model.specs.LoweredRun.LowEffects.{is_first_write};
ghost use Rattle.holder_model.specs.memory_rules_accesses.Operations.{load_operation, store_operation};
ghost use Rattle.sil_ast.specs.declared.type_name.TypeName.{out-TypeName};
ghost use Rattle.sil_types.specs.Typing.Builtins.{builtin_named};
ghost use Rattle.sil_types.specs.Typing.RowTypes as rows;
ghost use Rattle.sil_types.specs.Typing.Shapes as typing;
ghost use Rattle.sil_types.specs.Typing.Shapes.{name_in};
ghost use Rattle.sil_types_declarations.specs.TypeDefinitions.Lookups.{class_place};
ghost use Rattle.count_machine_ready.specs.inner.Bodies.{HasRow, IsBody, IsReadyOp};
ghost use Rattle.count_machine_ready.specs.inner.BuiltinsTold.{builtin_told};

use crate::body::Body;
use crate::builtins::{BuiltinAt, builtin_in};
use crate::calls::call;
use crate::members::leaf_offset;
use crate::parts::{
    effect_of, field_number, first_result, local_at, locals_of, operand, part_number, value_at,
};
use count_machine_layouts::Kept;
use count_machine_model::ReadyOp;
use holder_model::RowEffect;
use sil_ast::{Exhausted, Inst, Qualifier, TypeName};
use sil_types::shapes::target;
use sil_types::{TypeTable, written};
use std::alloc::Global;

fn literal_by(body: &Body<'_>, inst: &Inst, number: i64) -> ReadyOp
    requires body { IsBody body.now }
    requires has { HasRow body.now inst.now row.GivesLiteral }
    requires written { inst.now.number ≡ Some number }
    ensures { IsReadyOp body.now inst.now result }
{
    ReadyOp::Literal {
        number,
        to: body.local(first_result(inst)),
    }
}

fn literal(body: &Body<'_>, inst: &Inst) -> ReadyOp
    requires body { IsBody body.now }
    requires has { HasRow body.now inst.now row.GivesLiteral }
    ensures { IsReadyOp body.now inst.now result }
{
    match inst.number {
        Some(number) => literal_by(body, inst, number),
        None => unreachable!(),
    }
}

fn compute_by(body: &Body<'_>, inst: &Inst, builtin: BuiltinAt) -> ReadyOp
    requires body { IsBody body.now }
    requires has { HasRow body.now inst.now row.Computes }
    requires named { Some (builtin_told builtin) ≡ option_and_then builtin_named inst.now.text }
    ensures { IsReadyOp body.now inst.now result }
{
    ReadyOp::Compute {
        operation: builtin.operation,
        width: builtin.width,
        left: body.local(operand(inst, 0)),
        right: body.local(operand(inst, 1)),
        other: value_at(inst, 2),
        to: body.local(first_result(inst)),
    }
}

fn compute(body: &Body<'_>, inst: &Inst) -> ReadyOp
    requires body { IsBody body.now }
    requires has { HasRow body.now inst.now row.Computes }
    ensures { IsReadyOp body.now inst.now result }
{
    match builtin_in(inst) {
        Some(builtin) => compute_by(body, inst, builtin),
        None => unreachable!(),
    }
}

fn trap(body: &Body<'_>, inst: &Inst) -> ReadyOp
    requires body { IsBody body.now }
    requires has { HasRow body.now inst.now row.TrapsWhereSet }
    ensures { IsReadyOp body.now inst.now result }
{
    ReadyOp::TrapWhereSet {
        operand: body.local(operand(inst, 0)),
    }
}

/// The place of the class that a type is.
fn class_index(table: &TypeTable, ty: &TypeName) -> Option<u32>
    ensures { result ≡ option_and_then (class_place table.now) (name_in (out-TypeName ty.now)) }
{
    match ty {
        TypeName::Named(name) => table.class_index(name),
        _ => None,
    }
}

fn object(body: &Body<'_>, inst: &Inst) -> ReadyOp
    requires body { IsBody body.now }
    requires has { HasRow body.now inst.now row.MakesObject }
    ensures { IsReadyOp body.now inst.now result }
{
    match &inst.ty {
        Some(ty) => match class_index(body.table, ty) {
            Some(class) => ReadyOp::MakeObject {
                class,
                to: body.local(first_result(inst)),
            },
            None => unreachable!(),
        },
        None => unreachable!(),
    }
}

fn slot(body: &Body<'_>, inst: &Inst) -> ReadyOp
    requires body { IsBody body.now }
    requires has { HasRow body.now inst.now row.MakesSlot }
    ensures { IsReadyOp body.now inst.now result }
{
    let result = first_result(inst);
    match body.kept(result) {
        Kept::Address { size, .. } => ReadyOp::MakeSlot {
            size,
            to: body.address(result),
        },
        Kept::Leaves(_) => unreachable!(),
        Kept::Function(_) => unreachable!(),
        Kept::Nothing => unreachable!(),
    }
}

fn removal(body: &Body<'_>, inst: &Inst) -> ReadyOp
    requires body { IsBody body.now }
    requires has { HasRow body.now inst.now row.RemovesSlot }
    ensures { IsReadyOp body.now inst.now result }
{
    ReadyOp::RemoveSlot {
        address: body.address(operand(inst, 0)),
    }
}

fn same(body: &Body<'_>, inst: &Inst) -> ReadyOp
    requires body { IsBody body.now }
    requires has { HasRow body.now inst.now row.GivesOperand }
    ensures { IsReadyOp body.now inst.now result }
{
    ReadyOp::Same {
        from: body.local(operand(inst, 0)),
        to: body.local(first_result(inst)),
    }
}

fn retain(body: &Body<'_>, inst: &Inst) -> ReadyOp
    requires body { IsBody body.now }
    requires has { HasRow body.now inst.now row.RetainsOperand }
    ensures { IsReadyOp body.now inst.now result }
{
    ReadyOp::Retain {
        operand: body.local(operand(inst, 0)),
    }
}

fn release(body: &Body<'_>, inst: &Inst) -> ReadyOp
    requires body { IsBody body.now }
    requires has { HasRow body.now inst.now row.DropsOperand }
    ensures { IsReadyOp body.now inst.now result }
{
    ReadyOp::Drop {
        operand: body.local(operand(inst, 0)),
    }
}

fn load(body: &Body<'_>, inst: &Inst) -> ReadyOp
    requires body { IsBody body.now }
    requires has { HasRow body.now inst.now row.LoadsValue }
    ensures { IsReadyOp body.now inst.now result }
{
    ReadyOp::Load {
        address: body.address(operand(inst, 0)),
        to: body.local(first_result(inst)),
    }
}

/// Whether a store with this word writes for the first time.
fn is_first(word: Qualifier) -> bool
    ensures { result ≡ is_first_write (store_operation word) }
{
    word == Qualifier::Init
}

/// Whether a load with this word takes.
fn takes(word: Qualifier) -> bool
    ensures { result ≡ memory_effects.takes (load_operation word) }
{
    word == Qualifier::Take
}

fn store(body: &Body<'_>, inst: &Inst) -> ReadyOp
    requires body { IsBody body.now }
    requires has { HasRow body.now inst.now row.StoresValue }
    ensures { IsReadyOp body.now inst.now result }
{
    let from = body.local(operand(inst, 0));
    let place = operand(inst, 1);
    let address = body.address(place);
    match body.kept(place) {
        Kept::Address { storage: None, .. } => ReadyOp::Store { from, address },
        Kept::Address {
            storage: Some(storage),
            ..
        } => ReadyOp::StoreName {
            storage,
            first: is_first(inst.qualifier),
            from,
            address,
        },
        Kept::Leaves(_) => unreachable!(),
        Kept::Function(_) => unreachable!(),
        Kept::Nothing => unreachable!(),
    }
}

fn load_name(body: &Body<'_>, inst: &Inst) -> ReadyOp
    requires body { IsBody body.now }
    requires has { HasRow body.now inst.now row.LoadsName }
    ensures { IsReadyOp body.now inst.now result }
{
    let place = operand(inst, 0);
    match body.kept(place) {
        Kept::Address {
            storage: Some(storage),
            ..
        } => ReadyOp::LoadName {
            storage,
            takes: takes(inst.qualifier),
            address: body.address(place),
            to: body.local(first_result(inst)),
        },
        Kept::Address { storage: None, .. } => unreachable!(),
        Kept::Leaves(_) => unreachable!(),
        Kept::Function(_) => unreachable!(),
        Kept::Nothing => unreachable!(),
    }
}

fn forget_name(body: &Body<'_>, inst: &Inst) -> ReadyOp
    requires body { IsBody body.now }
    requires has { HasRow body.now inst.now row.DestroysPlace }
    ensures { IsReadyOp body.now inst.now result }
{
    let place = operand(inst, 0);
    match body.kept(place) {
        Kept::Address {
            storage: Some(storage),
            ..
        } => ReadyOp::ForgetName {
            storage,
            address: body.address(place),
        },
        Kept::Address { storage: None, .. } => unreachable!(),
        Kept::Leaves(_) => unreachable!(),
        Kept::Function(_) => unreachable!(),
        Kept::Nothing => unreachable!(),
    }
}

fn group(alloc: Global, body: &Body<'_>, inst: &Inst) -> Result<ReadyOp, Exhausted>
    requires body { IsBody body.now }
    requires has { HasRow body.now inst.now row.Groups }
    ensures { IfOk result (IsReadyOp body.now inst.now) }
{
    Ok(ReadyOp::Group {
        operands: locals_of(alloc, body, inst.operands.as_slice())?,
        to: body.local(first_result(inst)),
    })
}

fn choice(body: &Body<'_>, inst: &Inst) -> ReadyOp
    requires body { IsBody body.now }
    requires has { HasRow body.now inst.now row.ChoosesCase }
    ensures { IsReadyOp body.now inst.now result }
{
    match (&inst.ty, &inst.member) {
        (Some(ty), Some(member)) => match body.table.payload(ty, &member.get().name) {
            Some(found) => ReadyOp::Choose {
                case_index: found.index,
                payload: local_at(body, inst, 0),
                to: body.local(first_result(inst)),
            },
            None => unreachable!(),
        },
        _ => unreachable!(),
    }
}

fn member(body: &Body<'_>, inst: &Inst) -> ReadyOp
    requires body { IsBody body.now }
    requires has { HasRow body.now inst.now row.GivesMember }
    ensures { IsReadyOp body.now inst.now result }
{
    match (written(inst, 0), part_number(body.table, inst)) {
        (Some(ty), Some(place)) => ReadyOp::Member {
            operand: body.local(operand(inst, 0)),
            from: leaf_offset(body, ty, place),
            to: body.local(first_result(inst)),
        },
        _ => unreachable!(),
    }
}

/// What the type that is written at the first operand points to.
fn target_written(inst: &Inst) -> Option<&TypeName>
    ensures { option_copied result ≡ option_and_then typing.target (rows.written 0 inst.now) }
{
    match written(inst, 0) {
        Some(ty) => target(ty),
        None => None,
    }
}

fn member_address(body: &Body<'_>, inst: &Inst) -> ReadyOp
    requires body { IsBody body.now }
    requires has { HasRow body.now inst.now row.AddressesMember }
    ensures { IsReadyOp body.now inst.now result }
{
    match (target_written(inst), part_number(body.table, inst)) {
        (Some(ty), Some(place)) => ReadyOp::MemberAddress {
            address: body.address(operand(inst, 0)),
            from: leaf_offset(body, ty, place),
            to: body.address(first_result(inst)),
        },
        _ => unreachable!(),
    }
}

fn field_address(body: &Body<'_>, inst: &Inst) -> ReadyOp
    requires body { IsBody body.now }
    requires has { HasRow body.now inst.now row.AddressesField }
    ensures { IsReadyOp body.now inst.now result }
{
    match field_number(body.table, inst) {
        Some(field) => ReadyOp::FieldAddress {
            operand: body.local(operand(inst, 0)),
            field,
            to: body.address(first_result(inst)),
        },
        None => unreachable!(),
    }
}

/// An instruction, made ready.
pub(crate) fn ready_op(alloc: Global, body: &Body<'_>, inst: &Inst) -> Result<ReadyOp, Exhausted>
    requires body { IsBody body.now }
    requires has { HasRow body.now inst.now (effects.effect_of inst.now.op) }
    ensures { IfOk result (IsReadyOp body.now inst.now) }
{
    match effect_of(inst.op) {
        RowEffect::NoEffect => Ok(ReadyOp::Look {
            value: operand(inst, 0),
        }),
        RowEffect::GivesLiteral => Ok(literal(body, inst)),
        RowEffect::GivesFunction => Ok(ReadyOp::Function {
            to: first_result(inst),
        }),
        RowEffect::Computes => Ok(compute(body, inst)),
        RowEffect::TrapsWhereSet => Ok(trap(body, inst)),
        RowEffect::MakesObject => Ok(object(body, inst)),
        RowEffect::MakesSlot => Ok(slot(body, inst)),
        RowEffect::RemovesSlot => Ok(removal(body, inst)),
        RowEffect::GivesOperand => Ok(same(body, inst)),
        RowEffect::RetainsOperand => Ok(retain(body, inst)),
        RowEffect::DropsOperand => Ok(release(body, inst)),
        RowEffect::LoadsValue => Ok(load(body, inst)),
        RowEffect::StoresValue => Ok(store(body, inst)),
        RowEffect::LoadsName => Ok(load_name(body, inst)),
        RowEffect::DestroysPlace => Ok(forget_name(body, inst)),
        RowEffect::Groups => group(alloc, body, inst),
        RowEffect::ChoosesCase => Ok(choice(body, inst)),
        RowEffect::GivesMember => Ok(member(body, inst)),
        RowEffect::AddressesMember => Ok(member_address(body, inst)),
        RowEffect::AddressesField => Ok(field_address(body, inst)),
        RowEffect::CallsFunction => call(alloc, body, inst),
        RowEffect::CopiesOperand => unreachable!(),
        RowEffect::GivesMembers => unreachable!(),
    }
}
