//! Functions and points, as words name them.

use sil_ast::{BlockId, FuncId, Module, PointId};

/// The function that a word names, as `@main`.
pub(crate) fn function_named(m: &Module, word: &str) -> Option<FuncId> {
    let name = word.strip_prefix('@')?;
    for (number, function) in m.functions.as_slice().iter().enumerate() {
        if function.name.as_slice() == name.as_bytes() {
            return match u32::try_from(number) {
                Ok(number) => Some(FuncId(number)),
                Err(_) => None,
            };
        }
    }
    None
}

/// The point that a word names, as `bb0:2`.
pub(crate) fn point_named(word: &str) -> Option<PointId> {
    let (block, index) = word.strip_prefix("bb")?.split_once(':')?;
    match (block.parse::<u32>(), index.parse::<u32>()) {
        (Ok(block), Ok(index)) => Some(PointId {
            block: BlockId(block),
            index,
        }),
        _ => None,
    }
}
