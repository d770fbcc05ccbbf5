//! Passes the copies of a module in the order of the text, and rewrites each that can go.

ghost use Rattle.std.specs.Prelude.{◌≡◌, ◌+◌, length, IfOk, OnOk};
ghost use Rattle.sil_cfg.specs.Items.{point_at};
ghost use Rattle.sil_types_declarations.specs.TypeDefinitions.Declarations.{declarations_of};
ghost use Rattle.sil_verifier.specs.sil_verifier_accepted.AcceptedModules.inner.Checked.{IsVerified};
ghost use Rattle.copy_pairing.specs.inner.Passes.{ArePassed, blocks_at, insts_at};
ghost use Rattle.copy_pairing.specs.inner.Surveys.{IsKeptIn};
ghost use Rattle.copy_pairing.specs.inner.Turns.{IsTurn, IsTurnThere, Turned};

use crate::notes::{Notes, left_by_lending, left_by_move};
use crate::turns::{Turn, turn_in};
use copy_pairing_acceptance::{
    later_ones_are_left, lending_keeps_borrowable, lending_makes_no_copy, moving_keeps_borrowable,
    moving_keeps_values, moving_lets_none_borrow, moving_makes_no_copy,
};
use copy_pairing_runs::rewriting_keeps_verified;
use copy_pairing_search::{lend, move_copy};
use sil_ast::{BlockId, Exhausted, Module, PointId};
use sil_types::TypeTable;
use std::alloc::Global;

/// What is done to the copy at the point, if one stands there, and what is known of the function now.
fn turn_at(
    alloc: Global,
    types: &TypeTable,
    m: &Module,
    function: usize,
    p: PointId,
    kept: Option<Notes>,
) -> Result<(Turn, Option<Notes>), Exhausted>
    requires verified { IsVerified m.now }
    requires types { types.now ≡ declarations_of m.now }
    requires kept { IsKeptIn types.now m.now function kept }
    ensures turn { IfOk result (λ r. IsTurn m.now function p r.0) }
    ensures there { IfOk result (λ r. IsTurnThere types.now m.now function p r.0) }
    ensures kept { IfOk result (λ r. IsKeptIn types.now m.now function r.1) }
{
    match m.functions.get(function) {
        None => Ok((Turn::Stay, kept)),
        Some(f) => turn_in(alloc, types, f, p, kept),
    }
}

/// Rewrites the copy at the point, if it can go.
fn rewrite_at(
    alloc: Global,
    types: &TypeTable,
    m: &mut Module,
    function: usize,
    p: PointId,
    kept: Option<Notes>,
) -> Result<Option<Notes>, Exhausted>
    requires verified { IsVerified m.old }
    requires types { types.now ≡ declarations_of m.old }
    requires kept { IsKeptIn types.now m.old function kept }
    ensures turned { OnOk result (Turned m.old function p m.new) }
    ensures kept { IfOk result (IsKeptIn types.now m.new function) }
{
    lending_keeps_borrowable();
    lending_makes_no_copy();
    moving_keeps_borrowable();
    moving_lets_none_borrow();
    moving_makes_no_copy();
    moving_keeps_values();
    let (turn, kept) = turn_at(alloc, types, m, function, p, kept)?;
    match turn {
        Turn::Stay => Ok(kept),
        Turn::Lend { value } => {
            lend(alloc, m, function, value)?;
            Ok(left_by_lending(kept))
        }
        Turn::Move { last, operand } => {
            move_copy(alloc, m, function, p, last)?;
            Ok(left_by_move(kept, operand))
        }
    }
}

/// How many instructions the block has.
fn inst_count(m: &Module, function: usize, block: usize) -> usize
    ensures { result ≡ length (insts_at m.now function block) }
{
    let Some(f) = m.functions.get(function) else {
        return 0;
    };
    match f.blocks.get(block) {
        None => 0,
        Some(block) => block.insts.len(),
    }
}

/// How many blocks the function has.
fn block_count(m: &Module, function: usize) -> usize
    ensures { result ≡ length (blocks_at m.now function) }
{
    match m.functions.get(function) {
        None => 0,
        Some(f) => f.blocks.len(),
    }
}

/// Passes the copies of a block, and hands on what is known of the function.
fn pass_block(
    alloc: Global,
    types: &TypeTable,
    m: &mut Module,
    function: usize,
    block: BlockId,
    notes: Option<Notes>,
) -> Result<Option<Notes>, Exhausted>
    requires verified { IsVerified m.old }
    requires types { types.now ≡ declarations_of m.old }
    requires kept { IsKeptIn types.now m.old function notes }
    ensures passed { OnOk result (ArePassed m.old function (point_at block.0 0) m.new function (point_at (block.0 + 1) 0)) }
    ensures kept { IfOk result (IsKeptIn types.now m.new function) }
{
    rewriting_keeps_verified();
    later_ones_are_left();
    let mut kept = notes;
    for index in 0..inst_count(m, function, block.0 as usize) {
        let p = PointId {
            block,
            index: index as u32,
        };
        kept = rewrite_at(alloc, types, m, function, p, kept)?;
    }
    Ok(kept)
}

/// Passes the copies of a function.
fn pass_function(
    alloc: Global,
    types: &TypeTable,
    m: &mut Module,
    function: usize,
) -> Result<(), Exhausted>
    requires verified { IsVerified m.old }
    requires types { types.now ≡ declarations_of m.old }
    ensures { OnOk result (ArePassed m.old function (point_at 0 0) m.new (function + 1) (point_at 0 0)) }
{
    let mut kept = None;
    for b in 0..block_count(m, function) {
        kept = pass_block(alloc, types, m, function, BlockId(b as u32), kept)?;
    }
    Ok(())
}

/// Passes the copies of a module.
pub(crate) fn pass_module(alloc: Global, types: &TypeTable, m: &mut Module) -> Result<(), Exhausted>
    requires verified { IsVerified m.old }
    requires types { types.now ≡ declarations_of m.old }
    ensures { OnOk result (ArePassed m.old 0 (point_at 0 0) m.new (length m.old.functions) (point_at 0 0)) }
{
    for n in 0..m.functions.len() {
        pass_function(alloc, types, m, n)?;
    }
    Ok(())
}
