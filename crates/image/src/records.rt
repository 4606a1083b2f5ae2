// One record of an image: the value that its bytes encode, whatever they are.
ghost use Rattle.std.specs.Prelude.{◌≡◌, not, eqb};
ghost use Rattle.std.specs.Float.Ieee.{nan_bits};
ghost use Rattle.std.specs.Float.{binary64};
ghost use Rattle.big_endian.specs.Fields.{field};
ghost use Rattle.sketch.specs.Lists.{ite};
ghost use Rattle.sketch.specs.Drawing.{no_slots};
ghost use Rattle.sketch.specs.Valid.{sort_of};
ghost use Rattle.image.specs.Records.{curve_kind_at, slots_of, relation_by};
ghost use Rattle.image.specs.Decode.{number_or_zero, read_point, read_curve, read_relation};

use crate::layout::{
    CURVE_FLAGS_AT, CURVE_KIND_AT, CURVE_NUMBER_AT, DEGREE_AT, FIRST_ID_AT, POINT_FLAGS_AT,
    POINT_X_AT, POINT_Y_AT, SECOND_ID_AT, SECOND_SLOT_AT, SLOTS_AT, THIRD_SLOT_AT, VALUE_AT,
};
use big_endian::{get1, get4, get8};
use sketch::{Curve, CurveKind, ID_SIZE, Id, Point, Relation};
use std::array;

// Whether bits are no NaN's: only such may become a float.
fn is_number(bits: u64) -> bool
    ensures { result ≡ not (nan_bits binary64 bits) }
{
    bits % 0x8000_0000_0000_0000 <= 0x7ff0_0000_0000_0000
}

// The number at a place; 0 for a NaN's bits. One test of the bits is quicker than to make a float of them and to ask whether it is
// a NaN.
fn number_at(r: &[u8], at: usize) -> f64
    ensures { result ≡ number_or_zero r.now at }
{
    let bits = get8(r, at);
    if is_number(bits) {
        f64::from_bits(bits)
    } else {
        0.0
    }
}

// A point's coordinates.
pub fn read_x(r: &[u8]) -> f64
    ensures { result ≡ (read_point r.now).x }
{
    number_at(r, POINT_X_AT)
}

pub fn read_y(r: &[u8]) -> f64
    ensures { result ≡ (read_point r.now).y }
{
    number_at(r, POINT_Y_AT)
}

pub fn read_point(r: &[u8]) -> Point
    ensures { result ≡ read_point r.now }
{
    Point {
        id: get4(r, 0),
        fixed: get1(r, POINT_FLAGS_AT) == 1,
        x: number_at(r, POINT_X_AT),
        y: number_at(r, POINT_Y_AT),
    }
}

fn slots_at(r: &[u8]) -> [Id; 8]
    ensures { result ≡ slots_of r.now }
{
    array::from_fn(|i| get4(r, SLOTS_AT + i * ID_SIZE))
}

// A curve's kind, by its byte. Only the slots that the kind has are read.
pub fn read_kind(r: &[u8]) -> CurveKind
    ensures { result ≡ (read_curve r.now).kind }
{
    match get1(r, CURVE_KIND_AT) {
        1 => CurveKind::Line(get4(r, SLOTS_AT), get4(r, SECOND_SLOT_AT)),
        2 => CurveKind::Arc(
            get4(r, SLOTS_AT),
            get4(r, SECOND_SLOT_AT),
            get4(r, THIRD_SLOT_AT),
        ),
        3 => CurveKind::Circle(get4(r, SLOTS_AT), number_at(r, CURVE_NUMBER_AT)),
        4 => CurveKind::Bezier(get1(r, DEGREE_AT)),
        _ => CurveKind::Conic(
            get4(r, SLOTS_AT),
            get4(r, SECOND_SLOT_AT),
            get4(r, THIRD_SLOT_AT),
            number_at(r, CURVE_NUMBER_AT),
        ),
    }
}

// Whether a curve is a Bézier curve or a conic, by its kind's byte alone.
pub fn read_freeform(r: &[u8]) -> bool
    ensures { result ≡ eqb (sort_of (read_curve r.now).kind) 3 }
{
    !matches!(get1(r, CURVE_KIND_AT), 1 | 2 | 3)
}

// Only a Bézier curve keeps the slots beside its kind.
fn kept_slots(r: &[u8]) -> [Id; 8]
    ensures { result ≡ ite (eqb (field r.now curve_kind_at 1) 4) (slots_of r.now) no_slots }
{
    if get1(r, CURVE_KIND_AT) == 4 {
        return slots_at(r);
    }
    [0; 8]
}

// A curve's id.
pub fn read_curve_id(r: &[u8]) -> Id
    ensures { result ≡ (read_curve r.now).id }
{
    get4(r, 0)
}

// Whether a curve is an infinite line.
pub fn read_infinite(r: &[u8]) -> bool
    ensures { result ≡ (read_curve r.now).infinite }
{
    get1(r, CURVE_FLAGS_AT) / 4 % 2 == 1
}

pub fn read_curve(r: &[u8]) -> Curve
    ensures { result ≡ read_curve r.now }
{
    let flags = get1(r, CURVE_FLAGS_AT);
    Curve {
        id: get4(r, 0),
        construction: flags % 2 == 1,
        centerline: flags / 2 % 2 == 1,
        infinite: flags / 4 % 2 == 1,
        kind: read_kind(r),
        slots: kept_slots(r),
    }
}

// The relation by its kind's byte.
fn relation_by(kind: u8, a: Id, b: Id, v: f64) -> Relation
    ensures { result ≡ relation_by kind a b v }
{
    match kind {
        1 => Relation::Coincident(a, b),
        2 => Relation::PointOnCurve(a, b),
        3 => Relation::Collinear(a, b),
        4 => Relation::Equal(a, b),
        5 => Relation::Length(a, v),
        6 => Relation::Distance(a, b, v),
        7 => Relation::Midpoint(a, b),
        8 => Relation::ArcLength(a, v),
        _ => Relation::ArcSweep(a, v),
    }
}

pub fn read_relation(r: &[u8]) -> Relation
    ensures { result ≡ read_relation r.now }
{
    relation_by(
        get1(r, 0),
        get4(r, FIRST_ID_AT),
        get4(r, SECOND_ID_AT),
        number_at(r, VALUE_AT),
    )
}
