//! Takes out of a value of a block or an instruction what stands in it.

ghost use Rattle.std.specs.Prelude.{◌≡◌, IfOk};
ghost use Rattle.sil_grammar_values.specs.Values.{blocks_of, block_of, args_of, arg_of, ownership_of, inst_of, operands_of, operand_of, edges_of};
ghost use Rattle.sil_grammar_values.specs.Values.{edge_of, member_of, flags_of, qualifier_of, debug_of, entry_of, insts_of, terminator_of};

use crate::nothing::{discard, no_debug, no_inst, no_qualifier, no_token};
use crate::prepended::Prepended;
use crate::value::{Flags, Value};
use sil_ast::{ArgKind, Boxed, Debug, Exhausted, List, Member, Text, TypeName};
use sil_grammar_tree::{
    InstBox, WrittenArg, WrittenBlock, WrittenEdge, WrittenEntry, WrittenOperand, WrittenQualifier,
};
use std::alloc::Global;

impl Value {
    /// The instructions, and the terminator behind them.
    #[tactic(auto, unfolding(crate::specs::Values::insts_of, crate::specs::Values::terminator_of))]
    pub fn into_code(self, alloc: Global) -> Result<(Prepended<InstBox>, InstBox), Exhausted>
        ensures insts { IfOk result (λ code. code.0 ≡ insts_of self) }
        ensures terminator { IfOk result (λ code. code.1 ≡ terminator_of self) }
    {
        match self {
            Value::Code(insts, terminator) => Ok((insts, terminator)),
            other => {
                discard(other);
                Ok((Prepended::new(alloc), InstBox::new(alloc, no_inst(alloc))?))
            }
        }
    }

    #[tactic(auto, unfolding(crate::specs::Values::blocks_of))]
    pub fn into_blocks(self, alloc: Global) -> Prepended<WrittenBlock>
        ensures { result ≡ blocks_of self }
    {
        match self {
            Value::Blocks(kept) => kept,
            other => {
                discard(other);
                Prepended::new(alloc)
            }
        }
    }

    #[tactic(auto, unfolding(crate::specs::Values::block_of))]
    pub fn into_block(self, alloc: Global) -> WrittenBlock
        ensures { result ≡ block_of self }
    {
        match self {
            Value::Block(kept) => kept.into_inner(),
            other => {
                discard(other);
                WrittenBlock {
                    label: no_token(),
                    args: List::new(alloc),
                    insts: List::new(alloc),
                    terminator: no_inst(alloc),
                }
            }
        }
    }

    #[tactic(auto, unfolding(crate::specs::Values::args_of))]
    pub fn into_args(self, alloc: Global) -> Prepended<WrittenArg>
        ensures { result ≡ args_of self }
    {
        match self {
            Value::Args(kept) => kept,
            other => {
                discard(other);
                Prepended::new(alloc)
            }
        }
    }

    #[tactic(auto, unfolding(crate::specs::Values::arg_of))]
    pub fn into_arg(self) -> WrittenArg
        ensures { result ≡ arg_of self }
    {
        match self {
            Value::Arg(kept) => kept.into_inner(),
            other => {
                discard(other);
                WrittenArg {
                    name: no_token(),
                    kind: ArgKind::Plain,
                    ty: TypeName::Int(0),
                }
            }
        }
    }

    #[tactic(auto, unfolding(crate::specs::Values::ownership_of))]
    pub fn into_ownership(self) -> ArgKind
        ensures { result ≡ ownership_of self }
    {
        match self {
            Value::Ownership(kept) => kept,
            other => {
                discard(other);
                ArgKind::Plain
            }
        }
    }

    #[tactic(auto, unfolding(crate::specs::Values::inst_of))]
    pub fn into_inst(self, alloc: Global) -> Result<InstBox, Exhausted>
        ensures { IfOk result (λ inst. inst ≡ inst_of self) }
    {
        match self {
            Value::Inst(kept) => Ok(kept),
            other => {
                discard(other);
                InstBox::new(alloc, no_inst(alloc))
            }
        }
    }

    #[tactic(auto, unfolding(crate::specs::Values::operands_of))]
    pub fn into_operands(self, alloc: Global) -> Prepended<WrittenOperand>
        ensures { result ≡ operands_of self }
    {
        match self {
            Value::Operands(kept) => kept,
            other => {
                discard(other);
                Prepended::new(alloc)
            }
        }
    }

    #[tactic(auto, unfolding(crate::specs::Values::operand_of))]
    pub fn into_operand(self) -> WrittenOperand
        ensures { result ≡ operand_of self }
    {
        match self {
            Value::Operand(kept) => kept,
            other => {
                discard(other);
                WrittenOperand {
                    name: no_token(),
                    ty: None,
                }
            }
        }
    }

    #[tactic(auto, unfolding(crate::specs::Values::edges_of))]
    pub fn into_edges(self, alloc: Global) -> Prepended<WrittenEdge>
        ensures { result ≡ edges_of self }
    {
        match self {
            Value::Edges(kept) => kept,
            other => {
                discard(other);
                Prepended::new(alloc)
            }
        }
    }

    #[tactic(auto, unfolding(crate::specs::Values::edge_of))]
    pub fn into_edge(self, alloc: Global) -> WrittenEdge
        ensures { result ≡ edge_of self }
    {
        match self {
            Value::Edge(kept) => kept.into_inner(),
            other => {
                discard(other);
                WrittenEdge {
                    label: no_token(),
                    args: List::new(alloc),
                    case_of: None,
                }
            }
        }
    }

    #[tactic(auto, unfolding(crate::specs::Values::member_of))]
    pub fn into_member(self, alloc: Global) -> Result<Boxed<Member>, Exhausted>
        ensures { IfOk result (λ member. member ≡ member_of self) }
    {
        match self {
            Value::Member(kept) => Ok(kept),
            other => {
                discard(other);
                Boxed::new(
                    alloc,
                    Member {
                        owner: Text::new(),
                        name: Text::new(),
                    },
                )
            }
        }
    }

    #[tactic(auto, unfolding(crate::specs::Values::flags_of))]
    pub fn into_flags(self) -> Flags
        ensures { result ≡ flags_of self }
    {
        match self {
            Value::Flags(kept) => kept,
            other => {
                discard(other);
                Flags {
                    lexical: false,
                    var_decl: false,
                }
            }
        }
    }

    #[tactic(auto, unfolding(crate::specs::Values::qualifier_of))]
    pub fn into_qualifier(self) -> WrittenQualifier
        ensures { result ≡ qualifier_of self }
    {
        match self {
            Value::Qualifier(kept) => kept,
            other => {
                discard(other);
                no_qualifier()
            }
        }
    }

    #[tactic(auto, unfolding(crate::specs::Values::debug_of))]
    pub fn into_debug(self) -> Debug
        ensures { result ≡ debug_of self }
    {
        match self {
            Value::Debug(kept) => kept,
            other => {
                discard(other);
                no_debug()
            }
        }
    }

    #[tactic(auto, unfolding(crate::specs::Values::entry_of))]
    pub fn into_entry(self) -> Option<WrittenEntry>
        ensures { result ≡ entry_of self }
    {
        match self {
            Value::Entry(kept) => Some(kept.into_inner()),
            other => {
                discard(other);
                None
            }
        }
    }
}
