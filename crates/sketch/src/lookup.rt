// Look-ups by id in columns of ids that rise.
ghost use Rattle.std.specs.Prelude.{◌≡◌, ℕ, length, map};
ghost use Rattle.sketch.specs.Sorts.{number_or_zero};
ghost use Rattle.sketch.specs.Lookup.{FoundAt, Ascends, among, sort_among, noted};

use crate::Id;

// The place of an id among ids that rise, by bisection.
pub fn place(ids: &[Id], id: Id) -> Option<usize>
    ensures { FoundAt id ids.now result }
{
    ids.binary_search(&id).ok()
}

// Notes the place of an id in a direct-mapped table of guesses. Ids that share an entry overwrite each other: a guess is
// tried before it is believed.
pub fn note(near: &mut [u16], id: Id, place: usize)
    ensures { near.new ≡ noted near.old id place }
{
    // By index: of a write through `get_mut` no proof was found.
    let k = (id % 1024) as usize;
    if k < near.len() {
        near[k] = (place % 65536) as u16;
    }
}

// As `place`, but it first tries the place that `near` guesses: most look-ups then cost one read of each column.
pub fn place_near<'a>(ids: &'a [Id], near: &'a [u16], id: Id) -> Option<usize>
    ensures { FoundAt id ids.now result }
{
    let guess = near
        .get((id % 1024) as usize)
        .map_or(0, |place| usize::from(*place));
    if ids.get(guess) == Some(&id) {
        return Some(guess);
    }
    place(ids, id)
}

// Whether an id is among ids that rise.
pub fn has<'a>(ids: &'a [Id], near: &'a [u16], id: Id) -> bool
    ensures { Ascends ids.now → result ≡ among id ids.now }
{
    place_near(ids, near, id).is_some()
}

// The sort of the curve with an id, given the curves' ids, which rise, and their sorts, by name or by number.
pub fn sort_at<'a, T: Copy>(ids: &'a [Id], near: &'a [u16], sorts: &'a [T], id: Id) -> Option<T>
    ensures { (number : T → ℕ) → length ids.now ≡ length sorts.now → Ascends ids.now → number_or_zero number result ≡ sort_among id ids.now (map number sorts.now) }
{
    let k = place_near(ids, near, id)?;
    sorts.get(k).copied()
}
