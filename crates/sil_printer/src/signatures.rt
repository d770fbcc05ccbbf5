//! The texts of signatures.

ghost use Rattle.std.specs.Prelude.{◌≡◌, ◌++◌, OnOk};
ghost use Rattle.sil_printer.specs.CanonicalTypes.{opens_parens};
ghost use Rattle.sil_printer.specs.CanonicalSignatures.{convention_text, passing_text, param_text, given_text, results_text, signature_text};

use crate::pieces::{Canonical, push_bytes, push_if_set, push_in_parens};
use crate::types::{opens_with_parens, push_type};
use sil_ast::{Convention, Exhausted, Given, Param, Passing, Signature};

impl Canonical for Signature {
    ghost text = { signature_text };

    fn push_to(&self, out: &mut Vec<u8>) -> Result<(), Exhausted> {
        push_bytes(out, convention_word(self.convention))?;
        push_in_parens(out, self.params.as_slice())?;
        push_bytes(out, b" -> ")?;
        push_results(out, self.results.as_slice())
    }
}

fn convention_word(convention: Convention) -> &'static [u8]
    ensures { result.now ≡ convention_text convention }
{
    match convention {
        Convention::Thin => b"@convention(thin) ",
        Convention::Method => b"@convention(method) ",
    }
}

impl Canonical for Param {
    ghost text = { param_text };

    fn push_to(&self, out: &mut Vec<u8>) -> Result<(), Exhausted> {
        push_bytes(out, passing_word(self.passing))?;
        push_type(out, &self.ty)
    }
}

fn passing_word(passing: Passing) -> &'static [u8]
    ensures { result.now ≡ passing_text passing }
{
    match passing {
        Passing::Plain => b"",
        Passing::Owned => b"@owned ",
        Passing::Guaranteed => b"@guaranteed ",
        Passing::Inout => b"@inout ",
        Passing::In => b"@in ",
        Passing::InGuaranteed => b"@in_guaranteed ",
    }
}

impl Canonical for Given {
    ghost text = { given_text };

    fn push_to(&self, out: &mut Vec<u8>) -> Result<(), Exhausted> {
        push_if_set(out, b"@owned ", self.owned)?;
        push_if_set(out, b"@out ", self.out)?;
        push_type(out, &self.ty)
    }
}

fn push_results(out: &mut Vec<u8>, results: &[Given]) -> Result<(), Exhausted>
    ensures { OnOk result (out.new.items ≡ out.old.items ++ results_text results.now) }
{
    match results {
        [given] if !begins_with_parens(given) => given.push_to(out),
        _ => push_in_parens(out, results),
    }
}

fn begins_with_parens(given: &Given) -> bool
    ensures { result ≡ opens_parens (given_text given.now) }
{
    !given.owned && !given.out && opens_with_parens(&given.ty)
}
