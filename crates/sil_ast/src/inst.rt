//! Instructions and terminators, each with the parts that its form has.

use crate::boxed::Boxed;
use crate::debug::Debug;
use crate::exhausted::Exhausted;
use crate::list::List;
use crate::member::Member;
use crate::operands::{Operand, Operands};
use crate::place::{BlockId, FuncId, ValueId};
use crate::short_list::ShortList;
use crate::signature::Signature;
use crate::text::Text;
use crate::try_clone::{TryClone, copy_four};
use crate::type_name::TypeName;
use instruction_table::Op;
use std::alloc::Global;

/// An instruction or a terminator: `%2 = load [copy] %1 : $*Node`.
/// A part that it doesn't have is empty, `None`, `Plain` or `false`. Parts that few have stand in boxes, and small parts
/// beside one another, so that an instruction takes less memory.
#[derive(Drop)]
pub struct Inst {
    pub op: Op,
    pub qualifier: Qualifier,
    /// `[lexical]`
    pub lexical: bool,
    /// `[var_decl]`
    pub var_decl: bool,
    /// `@f` of `function_ref @f`.
    pub function: Option<FuncId>,
    /// The values that it defines, from left to right.
    pub results: ShortList<ValueId, 4>,
    /// All operands in the order of the text, a callee first. The arguments of edges stand in `edges`.
    pub operands: Operands,
    /// The type that stands for itself: `$T` of `alloc_ref $T`, or of `builtin "..."(..) : $T`.
    pub ty: Option<TypeName>,
    /// The signature of `function_ref` and `apply`.
    pub signature: Option<Boxed<Signature>>,
    pub member: Option<Boxed<Member>>,
    /// A literal as the signed residue of its width, or the number of a tuple's element, from 0.
    pub number: Option<i64>,
    /// The name of a builtin, or the message of `cond_fail`.
    pub text: Option<Boxed<Text>>,
    pub debug: Debug,
    /// Where a terminator goes, from left to right.
    pub edges: List<Edge>,
}

/// The word in brackets at a load or a store: `[copy]`, `[take]`, `[trivial]`, `[init]`, `[assign]`, or none.
#[derive(Clone, Copy, Debug, PartialEq, Eq)]
pub enum Qualifier {
    Plain,
    Copy,
    Take,
    Trivial,
    Init,
    Assign,
}

/// Where a terminator goes: `bb2(%1 : $Node)`, or a case of `switch_enum`, `case #Answer.yes!enumelt: bb2`, or its `default bb3`.
#[derive(Drop)]
pub struct Edge {
    pub block: BlockId,
    pub args: List<Operand>,
    pub case_of: Option<Boxed<Member>>,
}

impl TryClone for Inst {
    fn try_clone(&self, alloc: Global) -> Result<Inst, Exhausted> {
        // Parts that hold no type come first: the second `?` drops them, and a drop of types is slow to prove.
        let (text, member, debug, results) = copy_four(
            &self.text,
            &self.member,
            &self.debug,
            &self.results,
            alloc,
        )?;
        let (ty, signature, operands, edges) = copy_four(
            &self.ty,
            &self.signature,
            &self.operands,
            &self.edges,
            alloc,
        )?;
        Ok(Inst {
            op: self.op,
            qualifier: self.qualifier,
            lexical: self.lexical,
            var_decl: self.var_decl,
            function: self.function,
            results,
            operands,
            ty,
            signature,
            member,
            number: self.number,
            text,
            debug,
            edges,
        })
    }
}

impl TryClone for Edge {
    fn try_clone(&self, alloc: Global) -> Result<Edge, Exhausted> {
        Ok(Edge {
            block: self.block,
            args: self.args.try_clone(alloc)?,
            case_of: self.case_of.try_clone(alloc)?,
        })
    }
}
