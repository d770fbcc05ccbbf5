//! A search for the place at an index among the places that stand in parts, one part after the other.

ghost use Rattle.std.specs.Prelude.{◌≡◌, List, [], ◌∷◌, map, slice_get};
ghost use Rattle.std.specs.List.{flat_map};
ghost use Rattle.sil_ast.specs.declared.place.Place.{Place};
ghost use Rattle.sil_grammar_declarations.specs.inner.Found.{Finds};

use sil_ast::Place;
use sil_grammar_values::placed::Placed;
use sil_grammar_values::prepended::Prepended;

/// What a search comes to.
#[derive(Clone, Copy)]
pub(crate) enum Found {
    At(Place),
    /// The index is past all places, by so much.
    Past(usize),
}

/// Searches a single place.
pub(crate) fn find_one(place: Place, i: usize) -> Found
    ensures { Finds (place ∷ []) i result }
{
    if i == 0 {
        Found::At(place)
    } else {
        Found::Past(i - 1)
    }
}

/// Searches parts that are counted by one token each.
pub(crate) fn find_listed<T: Placed>(parts: &[T], i: usize) -> Found
    ensures { Finds (map T.place parts.now) i result }
{
    if i < parts.len() {
        Found::At(parts[i].place())
    } else {
        Found::Past(i - parts.len())
    }
}

/// A way in which a part holds places.
pub(crate) trait Holds {
    type Part;

    ghost places: { Self.Part → List Place };

    fn find(part: &Self::Part, i: usize) -> Found
        ensures { Finds (places part.now) i result };
}

/// The place at an index among those that all parts hold.
pub(crate) fn held_place<H: Holds>(parts: &Prepended<H::Part>, i: usize) -> Option<Place>
    ensures { result ≡ slice_get (flat_map H.places parts.now) i }
{
    let mut left = i;
    for k in 0..parts.len() {
        match H::find(parts.at(k), left) {
            Found::At(place) => return Some(place),
            Found::Past(rest) => left = rest,
        }
    }
    None
}
