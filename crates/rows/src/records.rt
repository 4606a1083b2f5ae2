// A table's records as values, each by its place. Past the last stands an empty record, whose fields are all 0.
ghost use Rattle.std.specs.Prelude.{◌≡◌, ◌≤◌, ◌<◌, length};
ghost use Rattle.image.specs.Records.{point_size, curve_size, relation_size};
ghost use Rattle.image.specs.Decode.{read_point, read_curve, read_relation};
ghost use Rattle.rows.specs.Rows.{row_in, points_in, curves_in, relations_in};

use image::{CURVE_SIZE, POINT_SIZE, RELATION_SIZE, read_curve, read_point, read_relation};
use sketch::{Curve, Point, Relation};

pub fn point_count(points: &[u8]) -> usize
    ensures { result ≡ length (points_in points.now) }
{
    points.len() / POINT_SIZE
}

pub fn curve_count(curves: &[u8]) -> usize
    ensures { result ≡ length (curves_in curves.now) }
{
    curves.len() / CURVE_SIZE
}

pub fn relation_count(relations: &[u8]) -> usize
    ensures { result ≡ length (relations_in relations.now) }
{
    relations.len() / RELATION_SIZE
}

// A record of one size as it is.
pub(crate) fn record_at<const SIZE: usize>(t: &[u8], i: usize) -> &[u8]
    requires { (0 < SIZE) × (SIZE ≤ 65536) }
    ensures { result.now ≡ row_in SIZE t.now i }
{
    let (rows, _) = t.as_chunks::<SIZE>();
    if i < rows.len() { &rows[i] } else { &t[..0] }
}

pub fn point_at(points: &[u8], i: usize) -> Point
    ensures { result ≡ read_point (row_in point_size points.now i) }
{
    read_point(record_at::<POINT_SIZE>(points, i))
}

// A curve's record as it is, for a caller that needs a part of it.
pub fn curve_record(curves: &[u8], i: usize) -> &[u8]
    ensures { result.now ≡ row_in curve_size curves.now i }
{
    record_at::<CURVE_SIZE>(curves, i)
}

pub fn curve_at(curves: &[u8], i: usize) -> Curve
    ensures { result ≡ read_curve (row_in curve_size curves.now i) }
{
    read_curve(curve_record(curves, i))
}

// The record is read in one place: the reading is then compiled in place, with its length known.
pub fn relation_at(relations: &[u8], i: usize) -> Relation
    ensures { result ≡ read_relation (row_in relation_size relations.now i) }
{
    read_relation(record_at::<RELATION_SIZE>(relations, i))
}
