//! Lists of leaves: windows of them, leaves that are laid over others, values that are carried, and what builtin operations give.
//! It knows of no machine and no heap.
mod carrying;
mod computing;
mod gathering;
mod handing;
mod leaf_lists;
mod lengthening;
mod reading;

pub use carrying::{gather_carried, lay_carried, mark_carried};
pub use computing::{Computed, compute_builtin};
pub use gathering::{gather_group, gather_objects};
pub use handing::{hand_over, lay_part};
pub use leaf_lists::{lay_case, lay_one, lay_over, leaf_at, leaves_from, move_over, window};
pub use lengthening::lengthen;
pub use reading::{name_among, object_among, tag_in};
