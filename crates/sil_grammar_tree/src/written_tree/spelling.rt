//! Parts of the text that is read. Nothing here knows which bytes a token has.

ghost use Rattle.std.specs.Prelude.{◌≡◌, ◌+◌, ◌≤◌, [], length, slice_range, IfOk};

use sil_ast::{Exhausted, Text};
use std::alloc::Global;
use std::hash::{Hash, Hasher};
use std::marker::Model;
use std::rc::Rc;

/// Bytes of the text that is read, shared with it: no byte is copied. To a contract it is the list of its bytes.
#[derive(Drop)]
pub struct Spelling {
    /// The whole text; none where there are no bytes.
    text: Option<Rc<Vec<u8>>>,
    from: u32,
    count: u32,
}

impl Model for Spelling {
    ghost use Rattle.std.specs.Prelude.{List, ℕ};

    ghost Value = { List ℕ };

    ghost use Rattle.sil_grammar_tree.specs.WrittenTree.inner.Spelled.{part_of, IsInside};

    ghost view = { λ s. part_of s.text s.from s.count };

    ghost invariant = { λ s. IsInside s.text s.from s.count };
}

impl Spelling {
    /// No bytes. It shares no text.
    pub fn none() -> Spelling
        ensures { result ≡ [] }
    {
        Spelling {
            text: None,
            from: 0,
            count: 0,
        }
    }

    /// The `count` bytes of `text` from `from` on. Where a number of them is more than a part can have, memory counts as
    /// exhausted.
    pub fn part(text: &Rc<Vec<u8>>, from: usize, count: usize) -> Result<Spelling, Exhausted>
        requires { from + count ≤ length text.now.value.items }
        ensures { IfOk result (λ part. part ≡ slice_range text.now.value.items from (from + count)) }
    {
        let from = narrow(from)?;
        let count = narrow(count)?;
        let text = text.clone()?;
        Ok(Spelling {
            text: Some(text),
            from,
            count,
        })
    }

    pub fn as_slice(&self) -> &[u8]
        ensures { result.now ≡ self.now }
    {
        let from = self.from as usize;
        let end = from + self.count as usize;
        match &self.text {
            None => &[],
            Some(text) => &text.as_ref().as_slice()[from..end],
        }
    }

    /// The same bytes once more, shared too.
    pub fn again(&self) -> Result<Spelling, Exhausted>
        ensures { IfOk result (λ copy. copy ≡ self.now) }
    {
        let text = match &self.text {
            None => None,
            Some(text) => Some(text.clone()?),
        };
        Ok(Spelling {
            text,
            from: self.from,
            count: self.count,
        })
    }

    /// A copy of the bytes, for what outlives the text.
    pub fn to_text(&self, alloc: Global) -> Result<Text, Exhausted>
        ensures { IfOk result (λ text. text ≡ self.now) }
    {
        Text::from_slice(alloc, self.as_slice())
    }
}

fn narrow(number: usize) -> Result<u32, Exhausted>
    ensures { IfOk result (λ narrow. narrow ≡ number) }
{
    match u32::try_from(number) {
        Ok(number) => Ok(number),
        Err(_) => Err(Exhausted),
    }
}

impl PartialEq for Spelling {
    ghost use Rattle.std.specs.Prelude.{nat_eq};
    ghost use Rattle.std.specs.Cmp.{partial_equiv_from_equiv};
    ghost use Rattle.std.specs.Cmp.Lexicographic.{pointwise, nat_list_eq_equiv};

    ghost eq = { pointwise nat_eq };

    ghost laws = { partial_equiv_from_equiv nat_list_eq_equiv };

    fn eq(&self, other: &Spelling) -> bool {
        self.as_slice() == other.as_slice()
    }
}

impl Eq for Spelling {
    ghost use Rattle.std.specs.Cmp.Lexicographic.{nat_list_eq_equiv};

    ghost laws = { nat_list_eq_equiv };
}

impl Hash for Spelling {
    ghost use Rattle.std.proofs.Common.{rules};
    ghost use Rattle.std.specs.Hash as fed;
    ghost use Rattle.std.specs.Cmp.Rules.{hashing};

    ghost hash_input = { λ spelling. fed.slice fed.u8 spelling };

    ghost respects_eq = { Prim.search (hashing, rules) };

    fn hash<H: Hasher>(&self, state: &mut H) {
        self.as_slice().hash(state);
    }
}
