// The references of one record: whether the points and curves that it names are among those of the image, of the right sort.
ghost use Rattle.std.specs.Prelude.{◌≡◌, take};
ghost use Rattle.sketch.specs.Lists.{every};
ghost use Rattle.sketch.specs.Lookup.{among, Ascends, sort_among};
ghost use Rattle.sketch.specs.Sorts.{sort_number, sort_number_of};
ghost use Rattle.sketch.specs.Valid.{sound_curve, sound_relation};
ghost use Rattle.image.specs.Records.{slots_of, curve_of, relation_of, point_size, curve_size};
ghost use Rattle.rows.specs.Rows.{ids_in};
ghost use Rattle.rows.specs.Clauses.{row_sort, sorts_in};

use crate::places::{curve_place, point_place};
use crate::records::curve_record;
use big_endian::{get1, get4};
use image::layout::{
    CURVE_KIND_AT, DEGREE_AT, FIRST_ID_AT, SECOND_ID_AT, SECOND_SLOT_AT, SLOTS_AT, THIRD_SLOT_AT,
};
use sketch::{ID_SIZE, Id, Sort};
use std::cmp::min;

// Whether there is a point with an id.
fn has_point<'a>(points: &'a [u8], near: &'a [u16], id: Id) -> bool
    requires { Ascends (ids_in point_size points.now) }
    ensures { result ≡ among id (ids_in point_size points.now) }
{
    point_place(points, near, id).is_some()
}

// The sort of a curve, by its kind's byte.
fn curve_sort(r: &[u8]) -> Sort
    ensures { sort_number result ≡ row_sort r.now }
{
    match get1(r, CURVE_KIND_AT) {
        1 => Sort::Line,
        2 | 3 => Sort::Round,
        _ => Sort::Freeform,
    }
}

// The sort of the curve with an id.
fn sort_in<'a>(curves: &'a [u8], near: &'a [u16], id: Id) -> Option<Sort>
    requires { Ascends (ids_in curve_size curves.now) }
    ensures { sort_number_of result ≡ sort_among id (ids_in curve_size curves.now) (sorts_in curves.now) }
{
    let k = curve_place(curves, near, id)?;
    Some(curve_sort(curve_record(curves, k)))
}

// Whether the first n slots name points.
fn slots_in<'a>(r: &'a [u8], n: usize, points: &'a [u8], near: &'a [u16]) -> bool
    requires { Ascends (ids_in point_size points.now) }
    ensures { result ≡ every (λ p. among p (ids_in point_size points.now)) (take n (slots_of r.now)) }
{
    (0..min(n, 8)).all(|i| has_point(points, near, get4(r, SLOTS_AT + i * ID_SIZE)))
}

// Whether a curve's points are there, and differ where they must.
pub(crate) fn curve_sound<'a>(r: &'a [u8], points: &'a [u8], near: &'a [u16]) -> bool
    requires { Ascends (ids_in point_size points.now) }
    ensures { result ≡ sound_curve (λ p. among p (ids_in point_size points.now)) (curve_of r.now) }
{
    let degree = get1(r, DEGREE_AT);
    let a = get4(r, SLOTS_AT);
    let b = get4(r, SECOND_SLOT_AT);
    let c = get4(r, THIRD_SLOT_AT);
    match get1(r, CURVE_KIND_AT) {
        1 => has_point(points, near, a) & has_point(points, near, b) & (a != b),
        2 => has_point(points, near, a)
            & has_point(points, near, b)
            & has_point(points, near, c)
            & (a != b)
            & (a != c)
            & (b != c),
        3 => has_point(points, near, a),
        4 => slots_in(r, degree as usize + 1, points, near),
        _ => has_point(points, near, a) & has_point(points, near, b) & has_point(points, near, c),
    }
}

// Whether the points and curves that a relation names are there, of its sorts, and differ where they must.
pub(crate) fn relation_sound<'a>(
    r: &'a [u8],
    points: &'a [u8],
    curves: &'a [u8],
    near: &'a [u16],
) -> bool
    requires { Ascends (ids_in point_size points.now) × Ascends (ids_in curve_size curves.now) }
    ensures { result ≡ sound_relation (λ p. among p (ids_in point_size points.now)) (λ i. sort_among i (ids_in curve_size curves.now) (sorts_in curves.now)) (relation_of r.now) }
{
    let a = get4(r, FIRST_ID_AT);
    let b = get4(r, SECOND_ID_AT);
    match get1(r, 0) {
        1 => has_point(points, near, a) & has_point(points, near, b) & (a != b),
        2 => has_point(points, near, a) & sort_in(curves, near, b).is_some(),
        3 => (sort_in(curves, near, a) == Some(Sort::Line))
            & (sort_in(curves, near, b) == Some(Sort::Line))
            & (a != b),
        4 => {
            let s = sort_in(curves, near, a);
            let t = sort_in(curves, near, b);
            (s == t) & ((s == Some(Sort::Line)) | (s == Some(Sort::Round))) & (a != b)
        }
        5 => sort_in(curves, near, a) == Some(Sort::Line),
        6 => has_point(points, near, a) & has_point(points, near, b) & (a != b),
        7 => has_point(points, near, a) & (sort_in(curves, near, b) == Some(Sort::Line)),
        _ => sort_in(curves, near, a) == Some(Sort::Round),
    }
}
