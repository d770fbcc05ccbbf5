//! The texts of what an instruction says for a debugger.

ghost use Rattle.std.specs.Prelude.{◌≡◌, ◌++◌, OnOk, codes, decimal};
ghost use Rattle.sil_printer.specs.Words.{if_there};
ghost use Rattle.sil_printer.specs.CanonicalInsts.{binding_text, debug_text};

use crate::operands::push_quoted;
use crate::pieces::{Canonical, push_bytes, push_decimal, push_if_set};
use sil_ast::{Binding, Debug, Exhausted};

impl Canonical for Debug {
    ghost text = { debug_text };

    fn push_to(&self, out: &mut Vec<u8>) -> Result<(), Exhausted> {
        push_binding(out, self.binding)?;
        push_quoted(out, b", name ", &self.name)?;
        push_argno(out, self.argno)?;
        push_if_set(out, b", expr op_deref", self.deref)?;
        Ok(())
    }
}

fn push_binding(out: &mut Vec<u8>, binding: Option<Binding>) -> Result<(), Exhausted>
    ensures { OnOk result (out.new.items ≡ out.old.items ++ if_there (codes ", ") binding_text binding) }
{
    match binding {
        Some(Binding::Let) => push_bytes(out, b", let"),
        Some(Binding::Var) => push_bytes(out, b", var"),
        None => Ok(()),
    }
}

fn push_argno(out: &mut Vec<u8>, argno: Option<u16>) -> Result<(), Exhausted>
    ensures { OnOk result (out.new.items ≡ out.old.items ++ if_there (codes ", argno ") decimal argno) }
{
    match argno {
        Some(number) => {
            push_bytes(out, b", argno ")?;
            push_decimal(out, u64::from(number))
        }
        None => Ok(()),
    }
}
