//! An instruction in memory of its own.

ghost use Rattle.std.specs.Prelude.{◌≡◌, IfOk};

use crate::written_tree::written_declarations::WrittenToken;
use crate::written_tree::written_instructions::WrittenInst;
use sil_ast::{Exhausted, List};
use std::alloc::Global;
use std::marker::Model;

/// An instruction in memory of its own: it is large, and goes through several lists. To a contract it is the instruction.
#[derive(Drop)]
pub struct InstBox {
    inner: Box<WrittenInst>,
}

impl Model for InstBox {
    ghost use Rattle.sil_grammar_tree.specs.declared.written_tree.written_instructions.WrittenInst.{WrittenInst};
    ghost use Rattle.sil_grammar_tree.specs.contracts.written_tree.written_instructions.WrittenInst as inst;

    ghost Value = { WrittenInst };

    ghost coded = { inst.the_row.coded };

    ghost view = { λ boxed. boxed.inner.value };
}

impl InstBox {
    pub fn new(alloc: Global, inst: WrittenInst) -> Result<InstBox, Exhausted>
        ensures { IfOk result (λ boxed. boxed ≡ inst) }
    {
        Ok(InstBox {
            inner: Box::new(alloc, inst)?,
        })
    }

    pub fn get(&self) -> &WrittenInst
        ensures { result.now ≡ self.now }
    {
        &self.inner
    }

    /// The instruction, out of its box.
    pub fn into_inner(self) -> WrittenInst
        ensures { result ≡ self }
    {
        let InstBox { inner } = self;
        Box::into_inner(inner)
    }

    /// Gives it these names before the `=`.
    pub fn set_results(&mut self, results: List<WrittenToken>)
        ensures { self.new ≡ record self.old { results = results } }
    {
        self.inner.results = results;
    }
}
