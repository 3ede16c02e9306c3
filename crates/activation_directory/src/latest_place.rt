//! The place to which a grain leads. The grain that was looked up last is found with no hash.

ghost use Rattle.std.specs.Prelude.{◌≡◌, IfSome, Some};
ghost use Rattle.std.specs.Option.{option_map};
ghost use Rattle.std.specs.Map.{lookup};
ghost use Rattle.grain_id.specs.Names.{grain_eq};

use grain_id::{GrainId, HashSeed};
use indexmap::IndexMap;

/// The place to which each grain leads.
pub type Places = IndexMap<GrainId, usize, HashSeed>;

/// A grain that was found: where it stands among the places, and the place to which it leads.
#[derive(Clone, Copy)]
pub struct FoundGrain {
    pub index: usize,
    pub place: usize,
}

/// The place to which the grain leads, if it stands at this index.
#[inline(always)]
fn place_at(places: &Places, index: usize, id: &GrainId) -> Option<usize>
    ensures { IfSome result (λ place. lookup (grain_eq id.now) places.now.entries ≡ Some place) }
{
    let Some((found, place)) = places.get_index(index) else {
        return None;
    };
    if *found == *id {
        return Some(*place);
    }
    None
}

/// The grain by its hash.
#[inline(never)]
fn found_by_hash(places: &Places, id: &GrainId) -> Option<FoundGrain>
    ensures { option_map (λ found. found.place) result ≡ lookup (grain_eq id.now) places.now.entries }
{
    match places.get_full(id) {
        Some((index, _, place)) => Some(FoundGrain {
            index,
            place: *place,
        }),
        None => None,
    }
}

/// The grain, with no look-up by hash if it stands where one was found last. Whether it does is looked at.
#[inline(always)]
pub fn found(latest: usize, places: &Places, id: &GrainId) -> Option<FoundGrain>
    ensures { option_map (λ found. found.place) result ≡ lookup (grain_eq id.now) places.now.entries }
{
    if let Some(place) = place_at(places, latest, id) {
        return Some(FoundGrain {
            index: latest,
            place,
        });
    }
    found_by_hash(places, id)
}
