//! What an instruction does to its operands.

ghost use Rattle.std.specs.Prelude.{◌≡◌, ◌++◌, ◌<◌, ℕ, IfSome, List, length, map, replicate, slice_get, OnOk};
ghost use Rattle.std.specs.Bool.{OnTrue};
ghost use Rattle.std.specs.Option.{option_copied};
ghost use Rattle.argument_conventions.specs.declared.convention.ArgumentConvention.{ArgumentConvention};
ghost use Rattle.sil_cfg_items.specs.Roles as roles;
ghost use Rattle.sil_cfg_items.specs.Roles.{last_roles, roles_for, taken_along, taken_by, taken_each};

use argument_conventions::{AddressRow, ArgumentConvention, argument};
use instruction_table::{Role, roles_of};
use sil_ast::{Edge, Exhausted, Inst, Operand, Signature, ValueId};

/// A value that is an operand, what is done to it, and the row of its convention, where its address is handed to a call.
#[derive(Clone, Copy, PartialEq, Eq)]
pub struct Taken {
    pub value: ValueId,
    pub role: Role,
    pub handed: Option<AddressRow>,
}

/// What is done to an operand, and the row of its convention, where its address is handed to a call.
#[derive(Clone, Copy, PartialEq, Eq)]
pub struct Treatment {
    pub role: Role,
    pub handed: Option<AddressRow>,
}

fn role_handed(convention: ArgumentConvention) -> Role
    ensures { result ≡ roles.role_handed convention }
{
    match convention {
        ArgumentConvention::Plain | ArgumentConvention::Guaranteed => Role::Used,
        ArgumentConvention::Owned => Role::Consumed,
        ArgumentConvention::Address(_) => Role::AddressRole,
    }
}

fn by_row(role: Role) -> Treatment
    ensures { result ≡ roles.by_row role }
{
    Treatment { role, handed: None }
}

fn by_convention(convention: ArgumentConvention) -> Treatment
    ensures { result ≡ roles.by_convention convention }
{
    Treatment {
        role: role_handed(convention),
        handed: convention.address_row(),
    }
}

/// What is done to the argument with this number, if a function of the signature has one.
fn argument_treatment(signature: Option<&Signature>, k: usize) -> Option<Treatment>
    ensures { result ≡ slice_get (map roles.by_convention (roles.conventions_by (option_copied signature.entry))) k }
{
    let signature = signature?;
    let found = argument(signature, k)?;
    Some(by_convention(found.convention))
}

/// What is done to the operand with this number among those that the last role of a row is for.
fn last_treatment(role: Role, signature: Option<&Signature>, k: usize) -> Option<Treatment>
    ensures { (n : ℕ) → k < n → result ≡ slice_get (last_roles role (roles.conventions_by (option_copied signature.entry)) n) k }
{
    match role {
        Role::ByParameter => argument_treatment(signature, k),
        Role::Consumed
        | Role::Used
        | Role::Lent
        | Role::Forwarded
        | Role::AddressRole
        | Role::AnyRole
        | Role::ScopeRole
        | Role::Counted => Some(by_row(role)),
    }
}

/// What is done to the operand with this number, if a row says anything of it.
fn treatment_at(row: &[Role], signature: Option<&Signature>, i: usize) -> Option<Treatment>
    ensures { (n : ℕ) → i < n → result ≡ slice_get (roles_for row.now (roles.conventions_by (option_copied signature.entry)) n) i }
{
    if row.is_empty() {
        return None;
    }
    let last = row.len() - 1;
    if i < last {
        Some(by_row(row[i]))
    } else {
        last_treatment(row[last], signature, i - last)
    }
}

fn signature_of(inst: &Inst) -> Option<&Signature>
    ensures { option_copied result ≡ inst.now.signature }
{
    match &inst.signature {
        None => None,
        Some(signature) => Some(signature.get()),
    }
}

fn taken_as(operand: &Operand, treatment: Treatment) -> Taken
    ensures { result ≡ roles.taken_as operand.now treatment }
{
    Taken {
        value: operand.value,
        role: treatment.role,
        handed: treatment.handed,
    }
}

fn add_operands(
    taken: &mut Vec<Taken>,
    operands: &[Operand],
    row: &[Role],
    signature: Option<&Signature>,
) -> Result<(), Exhausted>
    ensures { OnOk result (taken.new.items ≡ taken.old.items
        ++ taken_each operands.now (roles_for row.now (roles.conventions_by (option_copied signature.entry)) (length operands.now))) }
{
    for (i, operand) in operands.iter().enumerate() {
        if let Some(treatment) = treatment_at(row, signature, i) {
            taken.push(taken_as(operand, treatment))?;
        }
    }
    Ok(())
}

/// Whether a last role of a row is that of each operand that it is for, whatever the signature is.
fn is_alike(role: Role) -> bool
    ensures { OnTrue result ((conventions : List ArgumentConvention) (n : ℕ) → last_roles role conventions n ≡ replicate n (roles.by_row role)) }
{
    match role {
        Role::ByParameter => false,
        Role::Consumed
        | Role::Used
        | Role::Lent
        | Role::Forwarded
        | Role::AddressRole
        | Role::AnyRole
        | Role::ScopeRole
        | Role::Counted => true,
    }
}

/// The role of all operands, where a row has one for all.
fn role_of_all(row: &[Role]) -> Option<Role>
    ensures { IfSome result (λ role. (conventions : List ArgumentConvention) (n : ℕ) → roles_for row.now conventions n ≡ replicate n (roles.by_row role)) }
{
    match row {
        [role] if is_alike(*role) => Some(*role),
        _ => None,
    }
}

/// Adds operands of this role.
fn add_alike(taken: &mut Vec<Taken>, operands: &[Operand], role: Role) -> Result<(), Exhausted>
    ensures { OnOk result (taken.new.items ≡ taken.old.items ++ map (λ o. roles.taken_as o (roles.by_row role)) operands.now) }
{
    for operand in operands {
        taken.push(taken_as(operand, by_row(role)))?;
    }
    Ok(())
}

/// Adds the operands of an instruction, each with what is done to it, in order.
/// Those that it hands over along its edges are not among them.
pub fn add_taken_by(taken: &mut Vec<Taken>, inst: &Inst) -> Result<(), Exhausted>
    ensures { OnOk result (taken.new.items ≡ taken.old.items ++ taken_by inst.now) }
{
    let row = roles_of(inst.op);
    match role_of_all(row) {
        Some(role) => add_alike(taken, inst.operands.as_slice(), role),
        None => add_operands(taken, inst.operands.as_slice(), row, signature_of(inst)),
    }
}

/// Adds what an edge hands over, which it consumes.
pub fn add_taken_along(taken: &mut Vec<Taken>, edge: &Edge) -> Result<(), Exhausted>
    ensures { OnOk result (taken.new.items ≡ taken.old.items ++ taken_along edge.now) }
{
    add_alike(taken, edge.args.as_slice(), Role::Consumed)
}
