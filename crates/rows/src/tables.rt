// Where an image's tables stand, by the counts in its header. Bytes that are not there are left out.
ghost use Rattle.std.specs.Prelude.{◌≡◌, take, drop};
ghost use Rattle.big_endian.specs.Fields.{part};
ghost use Rattle.image.specs.Image.{next_at};
ghost use Rattle.rows.specs.Rows.{point_table, curve_table, relation_table};

use big_endian::{get2, get4};
use image::layout::{
    CURVE_COUNT_AT, CURVE_SIZE, HEADER_SIZE, NEXT_ID_AT, POINT_COUNT_AT, POINT_SIZE,
    RELATION_COUNT_AT, RELATION_SIZE,
};
use sketch::Id;
use std::cmp::min;

// The first n bytes, or as many of them as there are.
pub fn front(s: &[u8], n: usize) -> &[u8]
    ensures { result.now ≡ take n s.now }
{
    &s[..min(n, s.len())]
}

// The bytes from a place on, none where there are no more.
pub fn rest(s: &[u8], at: usize) -> &[u8]
    ensures { result.now ≡ drop at s.now }
{
    &s[min(at, s.len())..]
}

// The n bytes at a place, or as many of them as there are.
fn bytes_at(s: &[u8], at: usize, n: usize) -> &[u8]
    ensures { result.now ≡ part s.now at n }
{
    front(rest(s, at), n)
}

// The next id.
pub fn next_id(s: &[u8]) -> Id
    ensures { result ≡ next_at s.now }
{
    get4(s, NEXT_ID_AT)
}

// The points' records.
pub fn points_of(s: &[u8]) -> &[u8]
    ensures { result.now ≡ point_table s.now }
{
    let np = get2(s, POINT_COUNT_AT) as usize;
    bytes_at(s, HEADER_SIZE, np * POINT_SIZE)
}

// The curves' records.
pub fn curves_of(s: &[u8]) -> &[u8]
    ensures { result.now ≡ curve_table s.now }
{
    let np = get2(s, POINT_COUNT_AT) as usize;
    let nc = get2(s, CURVE_COUNT_AT) as usize;
    bytes_at(s, HEADER_SIZE + np * POINT_SIZE, nc * CURVE_SIZE)
}

// The relations' records.
pub fn relations_of(s: &[u8]) -> &[u8]
    ensures { result.now ≡ relation_table s.now }
{
    let np = get2(s, POINT_COUNT_AT) as usize;
    let nc = get2(s, CURVE_COUNT_AT) as usize;
    let nr = get2(s, RELATION_COUNT_AT) as usize;
    bytes_at(
        s,
        HEADER_SIZE + np * POINT_SIZE + nc * CURVE_SIZE,
        nr * RELATION_SIZE,
    )
}
