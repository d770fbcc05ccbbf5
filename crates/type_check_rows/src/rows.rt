//! What the row of an instruction gives.

ghost use Rattle.std.specs.Prelude.{◌≡◌, option_and_then, option_map};
ghost use Rattle.std.specs.Option.{option_copied};
ghost use Rattle.sil_types.specs.Typing.RowTypes as rows;
ghost use Rattle.sil_types.specs.Typing.Shapes as shapes;
ghost use Rattle.type_check_rows.specs.inner.Views.{made_told};

use crate::aggregates::{of_enum, of_struct, of_tuple};
use crate::builtin_rows::of_builtin;
use crate::kept::{
    element_within, object_behind, target_behind, unowned_behind, weak_behind, where_base,
    where_bit, where_class, where_counted, where_destroyed, where_enum, where_integer,
    where_nontrivial, where_object,
};
use crate::made::{
    all_elements, all_fields, gives, gives_address, gives_address_of_field, gives_by_signature,
    gives_field, gives_field_address, takes,
};
use crate::view::Made;
use instruction_table::Op;
use sil_ast::{Field, Inst, TypeName};
use sil_types::members::{class_field, struct_field};
use sil_types::{TypeTable, written};

/// The instruction's field of a type that is a struct.
fn struct_field_of<'a>(
    table: &'a TypeTable,
    inst: &Inst,
    ty: Option<&TypeName>,
) -> Option<&'a Field>
    ensures { option_copied result ≡ option_and_then (λ m. option_and_then (shapes.struct_field table.now m) (option_copied ty.entry)) inst.now.member }
{
    match (&inst.member, ty) {
        (Some(member), Some(ty)) => struct_field(table, member.get(), ty),
        _ => None,
    }
}

/// The instruction's field of a type that is a class.
fn class_field_of<'a>(table: &'a TypeTable, inst: &Inst, ty: Option<&TypeName>) -> Option<&'a Field>
    ensures { option_copied result ≡ option_and_then (λ m. option_and_then (shapes.class_field table.now m) (option_copied ty.entry)) inst.now.member }
{
    match (&inst.member, ty) {
        (Some(member), Some(ty)) => class_field(table, member.get(), ty),
        _ => None,
    }
}

/// What the row gives of an instruction: the types of its results, or nothing where the types that are written in it
/// aren't those that the row asks for.
pub fn row_types<'a>(table: &'a TypeTable, inst: &'a Inst) -> Option<Made<'a>>
    ensures { option_map made_told result ≡ rows.row_types table.now inst.now }
{
    match inst.op {
        Op::IntegerLiteral => gives(where_integer(inst.ty.as_ref())),
        Op::FunctionRef => Some(Made::Nothing),
        Op::Builtin => of_builtin(inst),
        Op::CondFail => takes(where_bit(written(inst, 0))),
        Op::AllocRef => gives(where_class(table, inst.ty.as_ref())),
        Op::AllocStack => gives_address(inst.ty.as_ref()),
        Op::DeallocStack => takes(target_behind(written(inst, 0))),
        Op::CopyValue => gives(where_nontrivial(table, written(inst, 0))),
        Op::DestroyValue => takes(where_nontrivial(table, written(inst, 0))),
        Op::MoveValue => gives(where_object(written(inst, 0))),
        Op::BeginBorrow => gives(where_nontrivial(table, written(inst, 0))),
        Op::EndBorrow => takes(where_nontrivial(table, written(inst, 0))),
        Op::Load => gives(object_behind(written(inst, 0))),
        Op::Store => takes(object_behind(written(inst, 1))),
        Op::LoadBorrow => gives(where_nontrivial(table, target_behind(written(inst, 0)))),
        Op::DestroyAddr => takes(where_destroyed(table, target_behind(written(inst, 0)))),
        Op::LoadWeak => gives(weak_behind(written(inst, 0))),
        Op::StoreWeak => takes(weak_behind(written(inst, 1))),
        Op::LoadUnowned => gives(unowned_behind(written(inst, 0))),
        Op::StoreUnowned => takes(unowned_behind(written(inst, 1))),
        Op::Struct => of_struct(table, inst),
        Op::Tuple => of_tuple(inst),
        Op::Enum => of_enum(table, inst),
        Op::StructExtract => gives_field(struct_field_of(table, inst, written(inst, 0))),
        Op::TupleExtract => gives(element_within(inst.number, written(inst, 0))),
        Op::DestructureStruct => all_fields(table, written(inst, 0)),
        Op::DestructureTuple => all_elements(written(inst, 0)),
        Op::StructElementAddr => gives_address_of_field(struct_field_of(
            table,
            inst,
            target_behind(written(inst, 0)),
        )),
        Op::TupleElementAddr => gives_address(element_within(
            inst.number,
            target_behind(written(inst, 0)),
        )),
        Op::RefElementAddr => gives_field_address(class_field_of(table, inst, written(inst, 0))),
        Op::Apply => gives_by_signature(inst),
        Op::DebugValue => Some(Made::Nothing),
        Op::StrongRetain => takes(where_class(table, written(inst, 0))),
        Op::StrongRelease => takes(where_class(table, written(inst, 0))),
        Op::RetainValue => takes(where_counted(table, written(inst, 0))),
        Op::ReleaseValue => takes(where_counted(table, written(inst, 0))),
        Op::Br => Some(Made::Nothing),
        Op::CondBr => Some(Made::Nothing),
        Op::SwitchEnum => takes(where_enum(table, written(inst, 0))),
        Op::Return => Some(Made::Nothing),
        Op::Unreachable => Some(Made::Nothing),
        Op::Upcast => gives(where_base(table, written(inst, 0), inst.ty.as_ref())),
    }
}
