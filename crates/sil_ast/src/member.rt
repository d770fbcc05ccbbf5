//! Members of declared types, as instructions name them.

use crate::exhausted::Exhausted;
use crate::text::Text;
use crate::try_clone::TryClone;
use std::alloc::Global;

/// A field `#Pair.first`, or a case `#Answer.yes!enumelt`.
#[derive(Drop)]
pub struct Member {
    pub owner: Text,
    pub name: Text,
}

impl TryClone for Member {
    fn try_clone(&self, alloc: Global) -> Result<Member, Exhausted> {
        Ok(Member {
            owner: self.owner.try_clone(alloc)?,
            name: self.name.try_clone(alloc)?,
        })
    }
}
