//! Two slots that are out of order.

use sil_ast::{EdgeId, List, PointId, ValueId};

/// A slot that is deallocated before a later one: on which walk and at which point, and the later one.
#[derive(Drop)]
pub struct Crossing {
    pub first: ValueId,
    pub walk: List<EdgeId>,
    pub point: PointId,
    pub other: ValueId,
}
