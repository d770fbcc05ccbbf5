//! The first fault at the points of a function, block by block. Along with the instructions go the counts of what their rows give.

ghost use Rattle.std.specs.Prelude.{◌≡◌, ◌+◌, ◌<◌, ◌^◌, length, map};
ghost use Rattle.numbered_form.specs.Insts.{EachInBlock, insts_in, insts_of};
ghost use Rattle.numbered_form.specs.Lists.{Each};
ghost use Rattle.type_check.specs.inner.Body.{AreBlocksInRange, AreEdgesInRange, HasBodyInRange, IsBody};
ghost use Rattle.type_check.specs.inner.FirstFault.{fault_of_block, fault_of_inst};
ghost use Rattle.type_check.specs.inner.Firsts.{first_from};
ghost use Rattle.type_check_values.specs.TypingValues.inner.Given.{given_count};

use crate::body::Body;
use crate::fault::TypingFault;
use crate::rules::rule_at_point;
use sil_ast::{Block, BlockId, Boxed, FuncId, Inst, PointId};

/// The fault of the instruction at a point.
fn fault_at(
    body: &Body<'_, '_>,
    block: u32,
    index: u32,
    given: Option<usize>,
    inst: &Inst,
) -> Option<TypingFault>
    requires body { IsBody body.now }
    requires given { given ≡ given_count body.now.table.now inst.now }
    requires edges { AreEdgesInRange body.now.function.now inst.now }
    ensures { result ≡ fault_of_inst body.now.module.now body.now.number body.now.function.now block index inst.now }
{
    match rule_at_point(body, block, index, given, inst) {
        Some(rule) => Some(TypingFault {
            rule,
            function: Some(FuncId(body.number)),
            point: Some(PointId {
                block: BlockId(block),
                index,
            }),
            vtable: None,
        }),
        None => None,
    }
}

fn first_in_insts(
    body: &Body<'_, '_>,
    block: u32,
    given: &[Option<usize>],
    insts: &[Boxed<Inst>],
) -> Option<TypingFault>
    requires body { IsBody body.now }
    requires given { given.now ≡ map (given_count body.now.table.now) insts.now }
    requires count { length given.now ≡ length insts.now }
    requires edges { Each (AreEdgesInRange body.now.function.now) insts.now }
    requires size { length insts.now < 2 ^ 32 }
    ensures { result ≡ first_from (fault_of_inst body.now.module.now body.now.number body.now.function.now block) 0 insts.now }
{
    let mut index = 0;
    for inst in insts {
        let place = index as usize;
        if let Some(fault) = fault_at(body, block, index, given[place], inst.get()) {
            return Some(fault);
        }
        index += 1;
    }
    None
}

fn first_in_block(
    body: &Body<'_, '_>,
    number: u32,
    given: &[Option<usize>],
    block: &Block,
) -> Option<TypingFault>
    requires body { IsBody body.now }
    requires given { given.now ≡ map (given_count body.now.table.now) (insts_of block.now) }
    requires count { length given.now ≡ length block.now.insts + 1 }
    requires edges { EachInBlock (AreEdgesInRange body.now.function.now) block.now }
    requires size { length block.now.insts < 2 ^ 32 }
    ensures { result ≡ fault_of_block body.now.module.now body.now.number body.now.function.now number block.now }
{
    let count = block.insts.len();
    let (before, _) = given.split_at(count);
    match first_in_insts(body, number, before, block.insts.as_slice()) {
        Some(fault) => Some(fault),
        None => fault_at(body, number, count as u32, given[count], &block.terminator),
    }
}

/// The first fault at the points of some blocks of the body. `given` has how many results the row of each of their instructions
/// gives, in order.
fn first_in_blocks(
    body: &Body<'_, '_>,
    given: &[Option<usize>],
    blocks: &[Block],
) -> Option<TypingFault>
    requires body { IsBody body.now }
    requires given { given.now ≡ map (given_count body.now.table.now) (insts_in blocks.now) }
    requires blocks { AreBlocksInRange body.now.function.now blocks.now }
    requires size { length blocks.now < 2 ^ 32 }
    ensures { result ≡ first_from (fault_of_block body.now.module.now body.now.number body.now.function.now) 0 blocks.now }
{
    let mut number = 0;
    let mut rest = given;
    for block in blocks {
        let (own, more) = rest.split_at(block.insts.len() + 1);
        if let Some(fault) = first_in_block(body, number, own, block) {
            return Some(fault);
        }
        number += 1;
        rest = more;
    }
    None
}

/// The first fault at the points of the body.
pub(crate) fn first_in_body(body: &Body<'_, '_>) -> Option<TypingFault>
    requires body { IsBody body.now }
    requires range { HasBodyInRange body.now.function.now }
    ensures { result ≡ first_from (fault_of_block body.now.module.now body.now.number body.now.function.now) 0 body.now.function.now.blocks }
{
    first_in_blocks(
        body,
        body.facts.given.counts.as_slice(),
        body.function.blocks.as_slice(),
    )
}
