// One record of an image, and its header: the bytes of a value. Nothing is written where they don't fit.
ghost use Rattle.std.specs.Prelude.{◌≡◌, ◌&&◌, ◌+◌, ◌*◌, ◌≤◌, leb, length};
ghost use Rattle.big_endian.specs.Fields.{bytes, over, over_if_fits};
ghost use Rattle.sketch.specs.Lists.{ite, concat_map};
ghost use Rattle.sketch.specs.Drawing.{limits, id_size};
ghost use Rattle.image.specs.Encode as E;
ghost use Rattle.image.specs.Encode.{kind_byte, degree_of, number_bits, slot_ids, flag_byte, relation_byte, first_id, second_id, value_bits, encode_point, encode_curve, encode_relation};

use crate::IMAGE_VERSION;
use crate::layout::{
    CURVE_COUNT_AT, CURVE_FLAGS_AT, CURVE_KIND_AT, CURVE_NUMBER_AT, CURVE_SIZE, DEGREE_AT,
    FIRST_ID_AT, HEADER_SIZE, NEXT_ID_AT, POINT_COUNT_AT, POINT_FLAGS_AT, POINT_SIZE, POINT_X_AT,
    POINT_Y_AT, RELATION_COUNT_AT, RELATION_SIZE, SECOND_ID_AT, SLOTS_AT, VALUE_AT, VERSION_AT,
};
use big_endian::{put1, put2, put4, put8};
use sketch::{Curve, CurveKind, ID_SIZE, Id, Point, Relation};
use std::num::f64_to_bits_with_nan;

pub fn write_point(buf: &mut [u8], at: usize, p: Point)
    ensures { buf.new ≡ over_if_fits buf.old at (encode_point p) }
{
    let n = buf.len();
    if n < POINT_SIZE || n - POINT_SIZE < at {
        return;
    }
    put4(buf, at, p.id as u64);
    put8(buf, at + POINT_X_AT, f64_to_bits_with_nan(p.x));
    put8(buf, at + POINT_Y_AT, f64_to_bits_with_nan(p.y));
    put1(buf, at + POINT_FLAGS_AT, u64::from(p.fixed));
}

#[tactic(auto, unfolding(crate::specs::Encode::kind_byte))]
fn kind_byte(kind: CurveKind) -> u64
    ensures { result ≡ kind_byte kind }
{
    match kind {
        CurveKind::Line(_, _) => 1,
        CurveKind::Arc(_, _, _) => 2,
        CurveKind::Circle(_, _) => 3,
        CurveKind::Bezier(_) => 4,
        CurveKind::Conic(_, _, _, _) => 5,
    }
}

#[tactic(auto, unfolding(crate::specs::Encode::degree_of))]
fn degree_of(kind: CurveKind) -> u64
    ensures { result ≡ degree_of kind }
{
    match kind {
        CurveKind::Bezier(n) => n as u64,
        _ => 0,
    }
}

#[tactic(auto, unfolding(crate::specs::Encode::number_bits))]
fn number_bits(kind: CurveKind) -> u64
    ensures { result ≡ number_bits kind }
{
    match kind {
        CurveKind::Circle(_, number) | CurveKind::Conic(_, _, _, number) => {
            f64_to_bits_with_nan(number)
        }
        _ => 0,
    }
}

#[tactic(auto, unfolding(crate::specs::Encode::slot_ids))]
fn slot_ids(kind: CurveKind, slots: [Id; 8]) -> [Id; 8]
    ensures { result ≡ slot_ids kind slots }
{
    match kind {
        CurveKind::Line(a, b) => [a, b, 0, 0, 0, 0, 0, 0],
        CurveKind::Arc(c, a, b) => [c, a, b, 0, 0, 0, 0, 0],
        CurveKind::Circle(c, _) => [c, 0, 0, 0, 0, 0, 0, 0],
        CurveKind::Bezier(_) => slots,
        CurveKind::Conic(a, p, b, _) => [a, p, b, 0, 0, 0, 0, 0],
    }
}

#[tactic(auto, using(crate::proofs::Points::bit_of), unfolding(crate::specs::Encode::flag_byte))]
fn flag_byte(c: Curve) -> u64
    ensures { result ≡ flag_byte c }
{
    u64::from(c.construction) + 2 * u64::from(c.centerline) + 4 * u64::from(c.infinite)
}

fn write_slots(buf: &mut [u8], at: usize, s: [Id; 8])
    requires { at + 8 * id_size ≤ length buf.old }
    ensures { buf.new ≡ over buf.old at (concat_map (bytes id_size) s) }
{
    for (i, id) in s.iter().enumerate() {
        put4(buf, at + i * ID_SIZE, *id as u64);
    }
}

pub fn write_curve(buf: &mut [u8], at: usize, c: Curve)
    ensures { buf.new ≡ over_if_fits buf.old at (encode_curve c) }
{
    let n = buf.len();
    if n < CURVE_SIZE || n - CURVE_SIZE < at {
        return;
    }
    put4(buf, at, c.id as u64);
    put1(buf, at + CURVE_KIND_AT, kind_byte(c.kind));
    put1(buf, at + CURVE_FLAGS_AT, flag_byte(c));
    put1(buf, at + DEGREE_AT, degree_of(c.kind));
    write_slots(buf, at + SLOTS_AT, slot_ids(c.kind, c.slots));
    put8(buf, at + CURVE_NUMBER_AT, number_bits(c.kind));
}

#[tactic(auto, unfolding(crate::specs::Encode::relation_byte))]
fn relation_byte(r: Relation) -> u64
    ensures { result ≡ relation_byte r }
{
    match r {
        Relation::Coincident(_, _) => 1,
        Relation::PointOnCurve(_, _) => 2,
        Relation::Collinear(_, _) => 3,
        Relation::Equal(_, _) => 4,
        Relation::Length(_, _) => 5,
        Relation::Distance(_, _, _) => 6,
        Relation::Midpoint(_, _) => 7,
        Relation::ArcLength(_, _) => 8,
        Relation::ArcSweep(_, _) => 9,
    }
}

#[tactic(auto, unfolding(crate::specs::Encode::first_id))]
fn first_id(r: Relation) -> Id
    ensures { result ≡ first_id r }
{
    match r {
        Relation::Coincident(id, _)
        | Relation::PointOnCurve(id, _)
        | Relation::Collinear(id, _)
        | Relation::Equal(id, _)
        | Relation::Length(id, _)
        | Relation::Distance(id, _, _)
        | Relation::Midpoint(id, _)
        | Relation::ArcLength(id, _)
        | Relation::ArcSweep(id, _) => id,
    }
}

#[tactic(auto, unfolding(crate::specs::Encode::second_id))]
fn second_id(r: Relation) -> Id
    ensures { result ≡ second_id r }
{
    match r {
        Relation::Coincident(_, id)
        | Relation::PointOnCurve(_, id)
        | Relation::Collinear(_, id)
        | Relation::Equal(_, id)
        | Relation::Distance(_, id, _)
        | Relation::Midpoint(_, id) => id,
        _ => 0,
    }
}

#[tactic(auto, unfolding(crate::specs::Encode::value_bits))]
fn value_bits(r: Relation) -> u64
    ensures { result ≡ value_bits r }
{
    match r {
        Relation::Length(_, v)
        | Relation::Distance(_, _, v)
        | Relation::ArcLength(_, v)
        | Relation::ArcSweep(_, v) => f64_to_bits_with_nan(v),
        _ => 0,
    }
}

pub fn write_relation(buf: &mut [u8], at: usize, r: Relation)
    ensures { buf.new ≡ over_if_fits buf.old at (encode_relation r) }
{
    let n = buf.len();
    if n < RELATION_SIZE || n - RELATION_SIZE < at {
        return;
    }
    put1(buf, at, relation_byte(r));
    put4(buf, at + FIRST_ID_AT, first_id(r) as u64);
    put4(buf, at + SECOND_ID_AT, second_id(r) as u64);
    put8(buf, at + VALUE_AT, value_bits(r));
}

// Where a count is above its limit nothing is written either.
pub fn write_header(buf: &mut [u8], next: Id, np: usize, nc: usize, nr: usize)
    ensures { buf.new ≡ ite (leb np limits.points && leb nc limits.curves && leb nr limits.relations) (over_if_fits buf.old 0 (E.header next np nc nr)) buf.old }
{
    if 512 < np || 128 < nc || 256 < nr || buf.len() < HEADER_SIZE {
        return;
    }
    put4(
        buf,
        0,
        (HEADER_SIZE + np * POINT_SIZE + nc * CURVE_SIZE + nr * RELATION_SIZE - 4) as u64,
    );
    put1(buf, VERSION_AT, IMAGE_VERSION as u64);
    put4(buf, NEXT_ID_AT, next as u64);
    put2(buf, POINT_COUNT_AT, np as u64);
    put2(buf, CURVE_COUNT_AT, nc as u64);
    put2(buf, RELATION_COUNT_AT, nr as u64);
}
