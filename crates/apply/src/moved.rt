// The image with a point moved, and with the relation that its pin adds.
ghost use Rattle.std.specs.Prelude.{◌≡◌, map, ◌+◌, ◌*◌, ◌/◌, ◌≤◌, ◌<◌, length};
ghost use Rattle.big_endian.specs.Fields.{over};
ghost use Rattle.sketch.specs.Drawing.{limits};
ghost use Rattle.image.specs.Records.{point_size, relation_size};
ghost use Rattle.image.specs.Encode.{encode_relation};
ghost use Rattle.rows.specs.Rows.{points_in, relations_in};
ghost use Rattle.edit_plan.specs.Steps.{nothing};
ghost use Rattle.refusal.specs.Refusals.{refusal_number};
ghost use Rattle.apply.specs.Answers.{answer_of};
ghost use Rattle.apply.specs.Applied.{Answered};
ghost use Rattle.apply.specs.Moved.{pinned_by, move_refusal, MoveRefused, MoveWritten};
ghost use Rattle.apply.specs.Clauses.{row_bytes, points_with, image_moved, RowsMoved};

use crate::limits::Limited;
use crate::runs::{image_size, put_rows};
use crate::{Applied, TableCounts};
use edit_plan::{Pin, Removed, pin_relation};
use geom::Vec2;
use image::{
    CURVE_SIZE, HEADER_SIZE, POINT_SIZE, RELATION_SIZE, write_header, write_point, write_relation,
};
use refusal::Refusal;
use rows::{Tables, point_at};
use sketch::{Id, Point, coordinate_ok};

// How many relations a pin of the point p adds.
#[tactic(auto, unfolding(crate::specs::Moved::pinned_by))]
pub fn count_pinned(pin: Pin, p: Id) -> usize
    ensures { result ≡ length (pinned_by pin p) }
{
    match pin {
        Pin::On(_) => 1,
        Pin::At(e) => usize::from(e != p),
    }
}

// Writes the points, that at place k as p.
fn write_points_with(points: &[u8], k: usize, p: Point, out: &mut [u8], at: usize)
    requires { (k < length points.now / point_size) × (at + length points.now / point_size * point_size ≤ length out.old) }
    ensures { out.new ≡ over out.old at (row_bytes (points_with k p points.now)) }
{
    let n = points.len() / POINT_SIZE;
    let a = put_rows(points, POINT_SIZE, 0, k, out, at);
    write_point(out, a, p);
    put_rows(points, POINT_SIZE, k + 1, n, out, a + POINT_SIZE);
}

// Writes the relation that a pin of the point p adds.
fn write_pinned(pin: Pin, p: Id, out: &mut [u8], at: usize)
    requires { at + length (pinned_by pin p) * relation_size ≤ length out.old }
    ensures { out.new ≡ over out.old at (row_bytes (map encode_relation (pinned_by pin p))) }
{
    if count_pinned(pin, p) != 0 {
        write_relation(out, at, pin_relation(pin, p));
    }
}

// Writes the image with the point at place k as p, which is pinned, where it fits.
fn write_moved<'a>(
    t: &Limited<'a>,
    k: usize,
    p: Point,
    pin: Pin,
    out: &mut [u8],
) -> Result<Applied, Refusal>
    requires { (k < length t.now.points.now / point_size) × (length t.now.relations.now / relation_size + length (pinned_by pin p.id) ≤ limits.relations) }
    ensures { Answered 0 (image_moved t.now.next t.now.points.now t.now.curves.now t.now.relations.now k p pin) nothing out.old out.new (answer_of result) }
{
    let np = t.points.len() / POINT_SIZE;
    let nc = t.curves.len() / CURVE_SIZE;
    let old = t.relations.len() / RELATION_SIZE;
    let nr = old + count_pinned(pin, p.id);
    let size = image_size(TableCounts {
        points: np,
        curves: nc,
        relations: nr,
    });
    if out.len() < size {
        return Err(Refusal::ShortBuffer);
    }
    let from = HEADER_SIZE + np * POINT_SIZE;
    write_header(out, t.next, np, nc, nr);
    write_points_with(t.points, k, p, out, HEADER_SIZE);
    let to = put_rows(t.curves, CURVE_SIZE, 0, nc, out, from);
    let last = put_rows(t.relations, RELATION_SIZE, 0, old, out, to);
    write_pinned(pin, p.id, out, last);
    Ok(Applied {
        removed: Removed::NOTHING,
        size,
    })
}

// What refuses the move of the point at place k to v.
fn refusal_of<'a>(t: &Limited<'a>, k: usize, v: Vec2, pin: Pin) -> Result<(), Refusal>
    ensures { refusal_number result ≡ move_refusal (points_in t.now.points.now) (relations_in t.now.relations.now) k v pin }
{
    if t.points.len() / POINT_SIZE <= k {
        return Err(Refusal::NoCurve);
    }
    if !(coordinate_ok(v.x) & coordinate_ok(v.y)) {
        return Err(Refusal::PointFarAway);
    }
    let p = point_at(t.points, k);
    if 256 < t.relations.len() / RELATION_SIZE + count_pinned(pin, p.id) {
        return Err(Refusal::TableFull);
    }
    Ok(())
}

// The point at place k moved to v in tables.
fn move_in<'a>(
    t: &Limited<'a>,
    k: usize,
    v: Vec2,
    pin: Pin,
    out: &mut [u8],
) -> Result<Applied, Refusal>
    ensures { RowsMoved t.now.next t.now.points.now t.now.curves.now t.now.relations.now k v pin out.old out.new (answer_of result) }
{
    refusal_of(t, k, v, pin)?;
    let old = point_at(t.points, k);
    let p = Point {
        x: v.x,
        y: v.y,
        ..old
    };
    write_moved(t, k, p, pin, out)
}

// What refuses the move of the point at place k of an image to v, but for a short buffer.
pub fn move_refusal<'a>(t: &Tables<'a>, k: usize, v: Vec2, pin: Pin) -> Result<(), Refusal>
    ensures { MoveRefused t.now.image.now k v pin (refusal_number result) }
{
    let tables = Limited::of(t)?;
    refusal_of(&tables, k, v, pin)
}

// The point at place k of an image moved to v, and pinned there. All refusals are decided before a byte is written.
pub fn apply_move<'a>(
    t: &Tables<'a>,
    k: usize,
    v: Vec2,
    pin: Pin,
    out: &mut [u8],
) -> Result<Applied, Refusal>
    ensures { MoveWritten t.now.image.now k v pin out.old out.new (answer_of result) }
{
    let tables = Limited::of(t)?;
    move_in(&tables, k, v, pin, out)
}
