// The test of an image: the first rule that it breaks, found in its bytes. No column is filled for it; `near` gets guesses of
// where the ids stand.
ghost use Rattle.std.specs.Prelude.{◌≡◌};
ghost use Rattle.refusal.specs.Refusals.{refusal_number};
ghost use Rattle.sketch.specs.Lookup.{Ascends};
ghost use Rattle.image.specs.Image.{head_fault};
ghost use Rattle.image.specs.Records.{point_size, curve_size};
ghost use Rattle.rows.specs.Rows.{ids_in, ImageTested};
ghost use Rattle.rows.specs.Clauses.{PointsTested, CurvesTested, relations_tested};

use crate::references::{curve_sound, relation_sound};
use crate::tables::{curves_of, next_id, points_of, relations_of};
use big_endian::{get1, get2, get4};
use image::layout::{CURVE_COUNT_AT, POINT_COUNT_AT, RELATION_COUNT_AT, VERSION_AT};
use image::{
    CURVE_SIZE, HEADER_SIZE, IMAGE_VERSION, POINT_SIZE, RELATION_SIZE, curve_good, point_good,
    relation_good,
};
use refusal::Refusal;
use sketch::{Id, note};

// The first rule that an image's header breaks.
fn head_fault(s: &[u8]) -> Result<(), Refusal>
    ensures { refusal_number result ≡ head_fault s.now 0 }
{
    let n = s.len();
    if n < 5 {
        return Err(Refusal::BadLength);
    }
    if get1(s, VERSION_AT) != IMAGE_VERSION {
        return Err(Refusal::BadVersion);
    }
    if n < HEADER_SIZE || get4(s, 0) as u64 + 4 != n as u64 {
        return Err(Refusal::BadLength);
    }
    let np = get2(s, POINT_COUNT_AT) as usize;
    let nc = get2(s, CURVE_COUNT_AT) as usize;
    let nr = get2(s, RELATION_COUNT_AT) as usize;
    if 512 < np || 128 < nc || 256 < nr {
        return Err(Refusal::BadCount);
    }
    if HEADER_SIZE + np * POINT_SIZE + nc * CURVE_SIZE + nr * RELATION_SIZE != n {
        return Err(Refusal::BadCount);
    }
    if next_id(s) < 1 {
        return Err(Refusal::BadValue);
    }
    Ok(())
}

// The first rule that the points break.
fn points_fault(points: &[u8], next: Id, near: &mut [u16]) -> Result<(), Refusal>
    ensures { PointsTested next points.now near.old near.new (refusal_number result) }
{
    let (rows, _) = points.as_chunks::<POINT_SIZE>();
    let mut last: Id = 0;
    for (i, r) in rows.iter().enumerate() {
        let id = get4(r, 0);
        if !point_good(r) {
            return Err(Refusal::BadValue);
        }
        if !((last < id) & (id < next)) {
            return Err(Refusal::BadId);
        }
        note(near, id, i);
        last = id;
    }
    Ok(())
}

// The first rule that the curves break, given the points.
fn curves_fault<'a>(
    curves: &'a [u8],
    next: Id,
    points: &'a [u8],
    near: &mut [u16],
) -> Result<(), Refusal>
    requires { Ascends (ids_in point_size points.now) }
    ensures { CurvesTested points.now next curves.now near.old near.new (refusal_number result) }
{
    let (rows, _) = curves.as_chunks::<CURVE_SIZE>();
    let mut last: Id = 0;
    for (i, r) in rows.iter().enumerate() {
        let id = get4(r, 0);
        if !curve_good(r) {
            return Err(Refusal::BadValue);
        }
        if !((last < id) & (id < next) & curve_sound(r, points, &near[..])) {
            return Err(Refusal::BadId);
        }
        note(near, id, i);
        last = id;
    }
    Ok(())
}

// The first rule that the relations break, given the points and the curves.
fn relations_fault<'a>(
    relations: &'a [u8],
    points: &'a [u8],
    curves: &'a [u8],
    near: &'a [u16],
) -> Result<(), Refusal>
    requires { Ascends (ids_in point_size points.now) × Ascends (ids_in curve_size curves.now) }
    ensures { refusal_number result ≡ relations_tested points.now curves.now relations.now }
{
    let (rows, _) = relations.as_chunks::<RELATION_SIZE>();
    for r in rows {
        if !relation_good(r) {
            return Err(Refusal::BadValue);
        }
        if !relation_sound(r, points, curves, near) {
            return Err(Refusal::BadId);
        }
    }
    Ok(())
}

// The first rule that an image breaks. `near` gets guesses of where the ids of points and curves stand.
pub fn image_fault(s: &[u8], near: &mut [u16]) -> Result<(), Refusal>
    ensures { ImageTested s.now near.old near.new (refusal_number result) }
{
    head_fault(s)?;
    let next = next_id(s);
    let points = points_of(s);
    points_fault(points, next, near)?;
    let curves = curves_of(s);
    curves_fault(curves, next, points, near)?;
    relations_fault(relations_of(s), points, curves, &near[..])
}
