// The tests of one record by its bytes: its form and its values. No value is made for them.
ghost use Rattle.std.specs.Prelude.{◌≡◌, eqb, drop};
ghost use Rattle.sketch.specs.Lists.{every};
ghost use Rattle.image.specs.Records.{float_at, slots_of};
ghost use Rattle.image.specs.Image.{good_point, good_curve, good_relation};
ghost use Rattle.image.specs.Clauses.{good_as};

use crate::layout::{
    CURVE_FLAGS_AT, CURVE_KIND_AT, CURVE_NUMBER_AT, DEGREE_AT, FIFTH_SLOT_AT, FOURTH_SLOT_AT,
    POINT_FLAGS_AT, POINT_X_AT, POINT_Y_AT, SECOND_ID_AT, SECOND_SLOT_AT, SEVENTH_SLOT_AT,
    SLOTS_AT, THIRD_SLOT_AT, VALUE_AT,
};
use big_endian::{get1, get4, get8};
use sketch::{ID_SIZE, coordinate_ok, measure_ok, radius_ok, rho_ok};
use std::num::f64_from_bits_with_nan;

// The float whose bits stand at a place. A NaN lies in no range, so that it passes none of the tests.
fn float_at(r: &[u8], at: usize) -> f64
    ensures { result ≡ float_at r.now at }
{
    f64_from_bits_with_nan(get8(r, at))
}

pub fn point_good(r: &[u8]) -> bool
    ensures { result ≡ good_point r.now }
{
    (get1(r, POINT_FLAGS_AT) <= 1)
        & coordinate_ok(float_at(r, POINT_X_AT))
        & coordinate_ok(float_at(r, POINT_Y_AT))
}

// Of curves each kind has a test of its own. Slots that it leaves free are read two at a time.
fn line_good(r: &[u8]) -> bool
    ensures { result ≡ good_as 1 r.now }
{
    (get1(r, CURVE_FLAGS_AT) <= 7)
        & (get1(r, DEGREE_AT) == 0)
        & (get8(r, CURVE_NUMBER_AT) == 0)
        & (get8(r, THIRD_SLOT_AT) == 0)
        & (get8(r, FIFTH_SLOT_AT) == 0)
        & (get8(r, SEVENTH_SLOT_AT) == 0)
}

fn arc_good(r: &[u8]) -> bool
    ensures { result ≡ good_as 2 r.now }
{
    let flags = get1(r, CURVE_FLAGS_AT);
    (flags <= 7)
        & (get1(r, DEGREE_AT) == 0)
        & (get8(r, CURVE_NUMBER_AT) == 0)
        & (get4(r, FOURTH_SLOT_AT) == 0)
        & (get8(r, FIFTH_SLOT_AT) == 0)
        & (get8(r, SEVENTH_SLOT_AT) == 0)
        & (flags / 4 % 2 != 1)
}

fn circle_good(r: &[u8]) -> bool
    ensures { result ≡ good_as 3 r.now }
{
    let flags = get1(r, CURVE_FLAGS_AT);
    (flags <= 7)
        & (get1(r, DEGREE_AT) == 0)
        & (get4(r, SECOND_SLOT_AT) == 0)
        & (get8(r, THIRD_SLOT_AT) == 0)
        & (get8(r, FIFTH_SLOT_AT) == 0)
        & (get8(r, SEVENTH_SLOT_AT) == 0)
        & (flags / 4 % 2 != 1)
        & radius_ok(float_at(r, CURVE_NUMBER_AT))
}

// Whether the slots from the n-th on hold 0.
fn clear_past(r: &[u8], n: usize) -> bool
    ensures { result ≡ every (λ i. eqb i 0) (drop n (slots_of r.now)) }
{
    (n..8).all(|i| get4(r, SLOTS_AT + i * ID_SIZE) == 0)
}

fn bezier_good(r: &[u8]) -> bool
    ensures { result ≡ good_as 4 r.now }
{
    let flags = get1(r, CURVE_FLAGS_AT);
    let degree = get1(r, DEGREE_AT);
    (flags <= 7)
        & (get8(r, CURVE_NUMBER_AT) == 0)
        & (flags / 4 % 2 != 1)
        & (1 <= degree)
        & (degree <= 7)
        & clear_past(r, degree as usize + 1)
}

fn conic_good(r: &[u8]) -> bool
    ensures { result ≡ good_as 5 r.now }
{
    let flags = get1(r, CURVE_FLAGS_AT);
    (flags <= 7)
        & (get1(r, DEGREE_AT) == 0)
        & (get4(r, FOURTH_SLOT_AT) == 0)
        & (get8(r, FIFTH_SLOT_AT) == 0)
        & (get8(r, SEVENTH_SLOT_AT) == 0)
        & (flags / 4 % 2 != 1)
        & rho_ok(float_at(r, CURVE_NUMBER_AT))
}

pub fn curve_good(r: &[u8]) -> bool
    ensures { result ≡ good_curve r.now }
{
    match get1(r, CURVE_KIND_AT) {
        1 => line_good(r),
        2 => arc_good(r),
        3 => circle_good(r),
        4 => bezier_good(r),
        5 => conic_good(r),
        _ => false,
    }
}

pub fn relation_good(r: &[u8]) -> bool
    ensures { result ≡ good_relation r.now }
{
    let second = get4(r, SECOND_ID_AT);
    let value = get8(r, VALUE_AT);
    match get1(r, 0) {
        1 | 2 | 3 | 4 | 7 => value == 0,
        5 | 8 | 9 => (second == 0) & measure_ok(float_at(r, VALUE_AT)),
        6 => measure_ok(float_at(r, VALUE_AT)),
        _ => false,
    }
}
