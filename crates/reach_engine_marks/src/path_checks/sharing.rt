//! The entries that items share.

ghost use Rattle.std.specs.Prelude.{◌≡◌, ◌≤◌, ◌^◌, ◌++◌, length, IfOk, OnOk};
ghost use Rattle.reach_engine_marks.specs.PathChecks.inner.Shared as shares;
ghost use Rattle.reach_engine_marks.specs.PathChecks.inner.Shared.{entry_if, if_sharing, shared_from};

use crate::path_checks::entry::Entry;
use crate::path_patterns::Mark;
use sil_ast::Exhausted;
use std::alloc::Global;

/// Whether the item shares.
fn is_sharing(sharing: &[bool], item: usize) -> bool
    ensures { result ≡ shares.is_sharing sharing.now item }
{
    match sharing.get(item) {
        None => false,
        Some(shares) => *shares,
    }
}

/// The shared entries, if the item shares.
pub fn shared_at<'a>(shared: &'a [Entry], sharing: &[bool], item: usize) -> &'a [Entry]
    ensures { result.now ≡ if_sharing shared.now (shares.is_sharing sharing.now item) }
{
    if is_sharing(sharing, item) {
        shared
    } else {
        &[]
    }
}

/// Adds the entry of a subject, if it has a mark.
fn push_shared(shared: &mut Vec<Entry>, subject: u32, mark: Option<Mark>) -> Result<(), Exhausted>
    ensures { OnOk result (shared.new.items ≡ shared.old.items ++ entry_if subject mark) }
{
    if let Some(mark) = mark {
        shared.push(Entry { subject, mark })?;
        return Ok(());
    }
    Ok(())
}

/// The entries of the subjects that have a mark, which each item that shares has.
pub fn shared_entries(alloc: Global, marks: &[Option<Mark>]) -> Result<Vec<Entry>, Exhausted>
    requires { length marks.now ≤ 2 ^ 32 }
    ensures { IfOk result (λ v. v.items ≡ shared_from 0 marks.now) }
{
    let mut shared = Vec::with_capacity(alloc, marks.len())?;
    for (subject, mark) in marks.iter().enumerate() {
        push_shared(&mut shared, subject as u32, *mark)?;
    }
    Ok(shared)
}
