//! A field among the leaves of its object.

ghost use Rattle.std.specs.Prelude.{◌≡◌, ◌≤◌, ◌+◌, IfSome, is_some, length, option_map, slice_get, true};
ghost use Rattle.std.specs.Option.{option_copied};
ghost use Rattle.count_heap.specs.PooledLeaves.Pieces.{IsChanged, piece_in};
ghost use Rattle.count_heap.specs.inner.Objects as objects;
ghost use Rattle.count_heap.specs.inner.Written.{written};

use crate::layouts_by_class::FieldPlace;
use crate::pooled_leaves::LeafPool;
use holder_model_values::Leaf;

/// The leaves of a field, where it is written.
#[inline]
pub(crate) fn field_at(leaves: &[Leaf], place: FieldPlace) -> Option<&[Leaf]>
    requires { place.from + 1 + place.count ≤ length leaves.now }
    ensures { option_copied result ≡ objects.field_at leaves.now place }
{
    let from = place.from as usize;
    match leaves[from] {
        Leaf::Blank => None,
        _ => Some(&leaves[from + 1..from + 1 + place.count as usize]),
    }
}

/// What stands in front of the leaves of a field that is written.
const WRITTEN: [Leaf; 1] = [Leaf::Tag(1)];

/// What stands in front of the leaves of a field that isn't written.
pub(crate) const NOT_WRITTEN: [Leaf; 1] = [Leaf::Blank];

/// How many leaves a field has, where there is one at this place.
pub(crate) fn count_at(places: &[FieldPlace], index: u32) -> Option<u32>
    ensures { result ≡ option_map (λ p. p.count) (slice_get places.now index) }
{
    places.get(index as usize).map(|place| place.count)
}

/// Writes a field into the piece of its object.
pub(crate) fn write_field(pool: &mut LeafPool, piece: usize, place: FieldPlace, leaves: &[Leaf])
    requires there { is_some (piece_in pool.old piece) ≡ true }
    requires within { IfSome (piece_in pool.old piece) (λ old. place.from + 1 + length leaves.now ≤ length old) }
    ensures { IsChanged pool.old pool.new piece (option_map (written place leaves.now) (piece_in pool.old piece)) }
{
    let from = place.from as usize;
    pool.write(piece, from, &WRITTEN);
    pool.write(piece, from + 1, leaves);
}
