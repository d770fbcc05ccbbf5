//! Lists that become longer.

ghost use Rattle.std.specs.Prelude.{◌≡◌, ◌++◌, OnOk, replicate};

use sil_ast::Exhausted;

/// How many elements are added one by one. What adds more at once takes longer to begin.
const FEW: u32 = 8;

/// A list has so many elements more, all of them the same.
#[inline(always)]
pub fn lengthen<T: Copy>(list: &mut Vec<T>, count: u32, item: T) -> Result<(), Exhausted>
    ensures { OnOk result (list.new.items ≡ list.old.items ++ replicate count item) }
{
    if count > FEW {
        return lengthen_by_many(list, count, item);
    }
    for _i in 0..count {
        list.push(item)?;
    }
    Ok(())
}

#[inline(never)]
fn lengthen_by_many<T: Copy>(list: &mut Vec<T>, count: u32, item: T) -> Result<(), Exhausted>
    ensures { OnOk result (list.new.items ≡ list.old.items ++ replicate count item) }
{
    list.resize(list.len() + count as usize, item)?;
    Ok(())
}
