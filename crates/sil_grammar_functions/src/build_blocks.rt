//! Builds blocks, and the names of their values, and puts them before the values that wait.

ghost use Rattle.std.specs.Prelude.{◌≡◌, [], ◌∷◌, ◌≤◌, List, length, IfOk, OnOk};
ghost use Rattle.sil_grammar_tables.specs.declared.grammar.Production.{Production};
ghost use Rattle.sil_grammar_values.specs.inner.PartFaults.{part_fault};
ghost use Rattle.sil_grammar_values.specs.inner.Reduced.{parts_of, reduced};
ghost use Rattle.sil_grammar_values.specs.declared.value.Value.{Value};
ghost use Rattle.sil_grammar_values.specs.declared.value.Value.TheVariants as v;
ghost use Rattle.sil_grammar_values.specs.Values.{arg_of, args_of, block_of, blocks_of, starred, token_of, tokens_of};

use sil_ast::{ArgKind, Boxed, Exhausted, List};
use sil_grammar_tables::Production;
use sil_grammar_tree::{Fault, InstBox, WrittenArg, WrittenBlock, WrittenToken};
use sil_grammar_values::faults::too_many;
use sil_grammar_values::nothing::skip;
use sil_grammar_values::prepended::Prepended;
use sil_grammar_values::put::{put, put_value};
use sil_grammar_values::starred::starred;
use sil_grammar_values::value::{Reduced, Value};
use sil_rules::{LimitWord, limits};
use std::alloc::Global;

/// A block, and the blocks behind it.
fn blocks_before(alloc: Global, values: &mut Prepended<Value>) -> Result<Value, Exhausted>
    requires { 2 ≤ length values.old }
    ensures { IfOk result (λ value. (first others : Value) × (values.old ≡ first ∷ others ∷ values.new)
        × (value ≡ v.Blocks (block_of first ∷ blocks_of others))) }
{
    let block = values.pop_front().into_block(alloc);
    let mut others = values.pop_front().into_blocks(alloc);
    others.push_front(block)?;
    Ok(Value::Blocks(others))
}

/// Puts a block, and the blocks behind it.
#[inline(never)]
#[tactic(auto, unfolding(sil_grammar_values::specs::inner::Reduced::standing))]
pub(crate) fn blocks(alloc: Global, values: &mut Prepended<Value>) -> Result<(), Exhausted>
    requires { 2 ≤ length values.old }
    ensures values { OnOk result (values.new ≡ reduced Production.BlocksMore values.old) }
{
    let blocks = blocks_before(alloc, values)?;
    put_value(blocks, values)
}

/// Puts the blocks between the braces of a body.
#[inline(never)]
#[tactic(auto, unfolding(sil_grammar_values::specs::inner::Reduced::standing))]
pub(crate) fn body(alloc: Global, values: &mut Prepended<Value>) -> Result<(), Exhausted>
    requires { 4 ≤ length values.old }
    ensures values { OnOk result (values.new ≡ reduced Production.BodySome values.old) }
{
    skip(values);
    let blocks = blocks_before(alloc, values)?;
    skip(values);
    put_value(blocks, values)
}

/// Puts that there are no blocks, or no more of them.
#[inline(never)]
pub(crate) fn no_blocks(alloc: Global, values: &mut Prepended<Value>) -> Result<(), Exhausted>
    ensures values { OnOk result (values.new ≡ v.Blocks [] ∷ values.old) }
{
    put_value(Value::Blocks(Prepended::new(alloc)), values)
}

/// An argument of a block, and those behind it.
fn args_before(alloc: Global, values: &mut Prepended<Value>) -> Result<Value, Exhausted>
    requires { 2 ≤ length values.old }
    ensures { IfOk result (λ value. (first others : Value) × (values.old ≡ first ∷ others ∷ values.new) × (value ≡ v.Args (arg_of first ∷ args_of others))) }
{
    let arg = values.pop_front().into_arg();
    let mut others = values.pop_front().into_args(alloc);
    others.push_front(arg)?;
    Ok(Value::Args(others))
}

/// Puts the arguments between the parentheses of a block.
#[inline(never)]
#[tactic(auto, unfolding(sil_grammar_values::specs::inner::Reduced::standing))]
pub(crate) fn args(alloc: Global, values: &mut Prepended<Value>) -> Result<(), Exhausted>
    requires { 4 ≤ length values.old }
    ensures values { OnOk result (values.new ≡ reduced Production.BlockArgsSome values.old) }
{
    skip(values);
    let args = args_before(alloc, values)?;
    skip(values);
    put_value(args, values)
}

/// Puts an argument of a block behind its comma, and those behind it.
#[inline(never)]
#[tactic(auto, unfolding(sil_grammar_values::specs::inner::Reduced::standing))]
pub(crate) fn more_args(alloc: Global, values: &mut Prepended<Value>) -> Result<(), Exhausted>
    requires { 3 ≤ length values.old }
    ensures values { OnOk result (values.new ≡ reduced Production.MoreBlockArgsMore values.old) }
{
    skip(values);
    let args = args_before(alloc, values)?;
    put_value(args, values)
}

/// Puts that a block has no arguments, or no more of them.
#[inline(never)]
pub(crate) fn no_args(alloc: Global, values: &mut Prepended<Value>) -> Result<(), Exhausted>
    ensures values { OnOk result (values.new ≡ v.Args [] ∷ values.old) }
{
    put_value(Value::Args(Prepended::new(alloc)), values)
}

/// Puts a name, and the names behind it.
#[inline(never)]
pub(crate) fn name_list(alloc: Global, values: &mut Prepended<Value>) -> Result<(), Exhausted>
    requires { 2 ≤ length values.old }
    ensures values { OnOk result ((first others : Value) × (rest : List Value) × (values.old ≡ first ∷ others ∷ rest)
        × (values.new ≡ v.Tokens (token_of first ∷ tokens_of others) ∷ rest)) }
{
    let name = values.pop_front().into_token();
    let mut others = values.pop_front().into_tokens(alloc);
    others.push_front(name)?;
    put_value(Value::Tokens(others), values)
}

/// Puts that there are no names, or no more of them.
#[inline(never)]
pub(crate) fn no_names(alloc: Global, values: &mut Prepended<Value>) -> Result<(), Exhausted>
    ensures values { OnOk result (values.new ≡ v.Tokens [] ∷ values.old) }
{
    put_value(Value::Tokens(Prepended::new(alloc)), values)
}

/// Puts a block of its label, its arguments and its instructions.
#[inline(never)]
#[tactic(auto, unfolding(sil_grammar_values::specs::inner::Reduced::reducing))]
pub(crate) fn whole_block(
    alloc: Global,
    values: &mut Prepended<Value>,
) -> Result<Option<Fault>, Exhausted>
    requires { 4 ≤ length values.old }
    ensures values { OnOk result (values.new ≡ reduced Production.WholeBlock values.old) }
    ensures fault { IfOk result (λ fault. fault ≡ part_fault Production.WholeBlock (parts_of Production.WholeBlock values.old)) }
{
    let label = values.pop_front().into_token();
    let args = values.pop_front().into_args(alloc);
    skip(values);
    let (insts, terminator) = values.pop_front().into_code(alloc)?;
    let fault = too_many(LimitWord::Arguments, &args, limits::ARGUMENTS);
    let block = WrittenBlock {
        label,
        args: args.into_list(),
        insts: insts.into_roomy_list(),
        terminator: terminator.into_inner(),
    };
    let value = Value::Block(Boxed::new(alloc, block)?);
    put(Reduced { value, fault }, values)
}

/// Puts the `*` before a type.
#[inline(never)]
pub(crate) fn star(values: &mut Prepended<Value>) -> Result<(), Exhausted>
    ensures values { OnOk result (values.new ≡ v.Star ∷ values.old) }
{
    put_value(Value::Star, values)
}

/// Puts how a block's argument is annotated.
#[inline(never)]
pub(crate) fn ownership(kind: ArgKind, values: &mut Prepended<Value>) -> Result<(), Exhausted>
    ensures values { OnOk result (values.new ≡ v.Ownership kind ∷ values.old) }
{
    put_value(Value::Ownership(kind), values)
}

/// Puts an argument of a block of its name, its annotation and its type.
#[inline(never)]
#[tactic(auto, unfolding(sil_grammar_values::specs::inner::Reduced::standing))]
pub(crate) fn block_arg(alloc: Global, values: &mut Prepended<Value>) -> Result<(), Exhausted>
    requires { 6 ≤ length values.old }
    ensures values { OnOk result (values.new ≡ reduced Production.WholeBlockArg values.old) }
{
    let name = values.pop_front().into_token();
    skip(values);
    let kind = values.pop_front().into_ownership();
    skip(values);
    let star = values.pop_front();
    let ty = values.pop_front().into_type().ty;
    let ty = starred(alloc, star, ty)?;
    let arg = Boxed::new(alloc, WrittenArg { name, kind, ty })?;
    put_value(Value::Arg(arg), values)
}

/// Few blocks have more instructions. There is room for so many at once.
const USUAL_COUNT: usize = 24;

/// Puts an instruction, and the code behind it.
#[inline(never)]
#[tactic(auto, unfolding(sil_grammar_values::specs::inner::Reduced::standing))]
pub(crate) fn more_code(alloc: Global, values: &mut Prepended<Value>) -> Result<(), Exhausted>
    requires { 2 ≤ length values.old }
    ensures values { OnOk result (values.new ≡ reduced Production.CodeInst values.old) }
{
    let inst = values.pop_front().into_inst(alloc)?;
    let (mut insts, terminator) = values.pop_front().into_code(alloc)?;
    insts.push_front_of(USUAL_COUNT, inst)?;
    put_value(Value::Code(insts, terminator), values)
}

/// Puts the code that is a terminator alone.
#[inline(never)]
#[tactic(auto, unfolding(sil_grammar_values::specs::inner::Reduced::standing))]
pub(crate) fn last_code(alloc: Global, values: &mut Prepended<Value>) -> Result<(), Exhausted>
    requires { 1 ≤ length values.old }
    ensures values { OnOk result (values.new ≡ reduced Production.CodeEnd values.old) }
{
    let terminator = values.pop_front().into_inst(alloc)?;
    put_value(Value::Code(Prepended::new(alloc), terminator), values)
}

/// An instruction with these names before its `=`.
fn named(inst: InstBox, results: List<WrittenToken>) -> Value
    ensures { result ≡ v.Inst (record inst { results = results }) }
{
    let mut inst = inst;
    inst.set_results(results);
    Value::Inst(inst)
}

/// Puts an instruction with one name before its `=`.
#[inline(never)]
#[tactic(auto, unfolding(sil_grammar_values::specs::inner::Reduced::standing))]
pub(crate) fn one_name(alloc: Global, values: &mut Prepended<Value>) -> Result<(), Exhausted>
    requires { 3 ≤ length values.old }
    ensures values { OnOk result (values.new ≡ reduced Production.InstOneName values.old) }
{
    let name = values.pop_front().into_token();
    let mut results = List::with_capacity(alloc, 1)?;
    results.push(name)?;
    skip(values);
    let inst = values.pop_front().into_inst(alloc)?;
    put_value(named(inst, results), values)
}

/// Puts an instruction with a list of names before its `=`.
#[inline(never)]
#[tactic(auto, unfolding(sil_grammar_values::specs::inner::Reduced::reducing))]
pub(crate) fn names(
    alloc: Global,
    values: &mut Prepended<Value>,
) -> Result<Option<Fault>, Exhausted>
    requires { 5 ≤ length values.old }
    ensures values { OnOk result (values.new ≡ reduced Production.InstNames values.old) }
    ensures fault { IfOk result (λ fault. fault ≡ part_fault Production.InstNames (parts_of Production.InstNames values.old)) }
{
    skip(values);
    let results = values.pop_front().into_tokens(alloc);
    skip(values);
    skip(values);
    let fault = too_many(LimitWord::Arguments, &results, limits::ARGUMENTS);
    let inst = values.pop_front().into_inst(alloc)?;
    let value = named(inst, results.into_list());
    put(Reduced { value, fault }, values)
}
