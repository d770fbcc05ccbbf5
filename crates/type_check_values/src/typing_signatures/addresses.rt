//! Addresses that escape into blocks.

ghost use Rattle.std.specs.Prelude.{◌≡◌};
ghost use Rattle.std.specs.List.{list_any};
ghost use Rattle.sil_types.specs.Typing.EdgeRules as rules;

use sil_ast::{Block, BlockArg, Function};
use sil_types::shapes::is_address;

/// Whether an argument of a block other than the entry has an address type.
#[tactic(auto, unfolding(sil_types::specs::Typing::EdgeRules::lets_address_escape))]
pub fn lets_address_escape(f: &Function) -> bool
    ensures { result ≡ rules.lets_address_escape f.now }
{
    match f.blocks.as_slice() {
        [] => false,
        [_, others @ ..] => any_takes_address(others),
    }
}

fn any_takes_address(blocks: &[Block]) -> bool
    ensures { result ≡ list_any rules.takes_address blocks.now }
{
    for block in blocks {
        if takes_address(block.args.as_slice()) {
            return true;
        }
    }
    false
}

fn takes_address(args: &[BlockArg]) -> bool
    ensures { result ≡ list_any rules.has_address_type args.now }
{
    for arg in args {
        if is_address(&arg.ty) {
            return true;
        }
    }
    false
}
