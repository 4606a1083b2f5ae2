// The place of a record by its id, or the record, straight in the table, whose ids rise. A guess is tried before it is believed.
ghost use Rattle.std.specs.Prelude.{◌≡◌, ◌<◌, ◌≤◌};
ghost use Rattle.sketch.specs.Drawing.{id_size};
ghost use Rattle.sketch.specs.Lookup.{FoundAt};
ghost use Rattle.image.specs.Image.{row_id};
ghost use Rattle.image.specs.Records.{point_size, curve_size};
ghost use Rattle.rows.specs.Rows.{ids_in, RecordOf};

use crate::records::record_at;
use big_endian::get4;
use image::{CURVE_SIZE, POINT_SIZE};
use sketch::Id;

// The place of an id among records of one size, by bisection.
fn bisected_place<const SIZE: usize>(t: &[u8], id: Id) -> Option<usize>
    requires { (id_size ≤ SIZE) × (SIZE ≤ 65536) }
    ensures { FoundAt id (ids_in SIZE t.now) result }
{
    let (rows, _) = t.as_chunks::<SIZE>();
    rows.binary_search_by_key(
        &id,
        |r|
            ensures { result ≡ row_id r.now }
        { get4(r, 0) },
    )
    .ok()
}

// The place that `near` guesses for an id.
fn guess_of(near: &[u16], id: Id) -> usize
    ensures { result < 65536 }
{
    near.get((id % 1024) as usize)
        .map_or(0, |place| usize::from(*place))
}

// The place of an id among records of one size, the guess of `near` first.
fn row_place<'a, const SIZE: usize>(t: &'a [u8], near: &'a [u16], id: Id) -> Option<usize>
    requires { (id_size ≤ SIZE) × (SIZE ≤ 65536) }
    ensures { FoundAt id (ids_in SIZE t.now) result }
{
    let guess = guess_of(near, id);
    let (rows, _) = t.as_chunks::<SIZE>();
    if guess < rows.len() && get4(&rows[guess], 0) == id {
        return Some(guess);
    }
    bisected_place::<SIZE>(t, id)
}

// The place of the point with an id.
pub fn point_place<'a>(points: &'a [u8], near: &'a [u16], id: Id) -> Option<usize>
    ensures { FoundAt id (ids_in point_size points.now) result }
{
    row_place::<POINT_SIZE>(points, near, id)
}

// The place of the curve with an id.
pub fn curve_place<'a>(curves: &'a [u8], near: &'a [u16], id: Id) -> Option<usize>
    ensures { FoundAt id (ids_in curve_size curves.now) result }
{
    row_place::<CURVE_SIZE>(curves, near, id)
}

// The record with an id among records of one size, by bisection.
fn bisected_record<const SIZE: usize>(t: &[u8], id: Id) -> &[u8]
    requires { (id_size ≤ SIZE) × (SIZE ≤ 65536) }
    ensures { RecordOf SIZE t.now id result.now }
{
    match bisected_place::<SIZE>(t, id) {
        Some(k) => record_at::<SIZE>(t, k),
        None => &t[..0],
    }
}

// The record with an id, the guess of `near` first, which is tried without a division.
fn record_of<'a, const SIZE: usize>(t: &'a [u8], near: &'a [u16], id: Id) -> &'a [u8]
    requires { (id_size ≤ SIZE) × (SIZE ≤ 65536) }
    ensures { RecordOf SIZE t.now id result.now }
{
    let at = guess_of(near, id) * SIZE;
    match t.get(at..at + SIZE) {
        Some(r) if get4(r, 0) == id => r,
        _ => bisected_record::<SIZE>(t, id),
    }
}

// The record of the point with an id; an empty one where there is none.
pub fn point_record_of<'a>(points: &'a [u8], near: &'a [u16], id: Id) -> &'a [u8]
    ensures { RecordOf point_size points.now id result.now }
{
    record_of::<POINT_SIZE>(points, near, id)
}

// The record of the curve with an id; an empty one where there is none.
pub fn curve_record_of<'a>(curves: &'a [u8], near: &'a [u16], id: Id) -> &'a [u8]
    ensures { RecordOf curve_size curves.now id result.now }
{
    record_of::<CURVE_SIZE>(curves, near, id)
}
