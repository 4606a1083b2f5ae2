// The plan of a line's extend, straight from an image's records: an end moves on to the nearest curve that it meets.
ghost use Rattle.std.specs.Prelude.{◌≡◌, cond};
ghost use Rattle.sketch.specs.Lookup.{among};
ghost use Rattle.sketch.specs.Drawing.{uses_of};
ghost use Rattle.edit_plan.specs.Tables.{uses, others};
ghost use Rattle.image.specs.Decode.{read_curve};
ghost use Rattle.rows.specs.Rows.{curves_in};
ghost use Rattle.hit_search.specs.Values.{support};
ghost use Rattle.extend.specs.ImageExtendContracts.{PlansMoveIn, PlansEndIn, PlansExtendIn};

use crate::EndMove;
use edit_plan::curve_uses;
use geom::Vec2;
use hit_search::Nearest;
use hit_search::image_search::nearest_hit;
use image::{read_curve, read_curve_id, read_kind};
use planning::image_pins::pin_at;
use refusal::Refusal;
use rows::{Tables, curve_at, curve_count, curve_record, point_at, point_place};
use shape::Shape;
use sketch::{CurveKind, Id};
use sketch_geometry::positions::position_of;

// Whether the curve of a record uses the point p. Slots are read only of a Bézier curve.
fn record_uses(r: &[u8], p: Id) -> bool
    ensures { result ≡ among p (uses_of (read_curve r.now).kind (read_curve r.now).slots) }
{
    match read_kind(r) {
        CurveKind::Line(a, b) => (p == a) | (p == b),
        CurveKind::Arc(o, a, b) => (p == o) | (p == a) | (p == b),
        CurveKind::Circle(o, _) => p == o,
        _ => curve_uses(read_curve(r), p),
    }
}

// Whether a curve of the table, but for the one with an id, uses the point p.
fn used_by_other(curves: &[u8], id: Id, p: Id) -> bool
    ensures { result ≡ among p (uses (others id (curves_in curves.now))) }
{
    for i in 0..curve_count(curves) {
        let r = curve_record(curves, i);
        if id != read_curve_id(r) && record_uses(r, p) {
            return true;
        }
    }
    false
}

// The end at a place goes to the nearest hit, if there is one, and no other lies as near.
#[tactic(auto, unfolding(crate::specs::Extend::plan_move, planning::specs::Planning::guard_plan))]
fn plan_move(
    nearest: Option<Nearest>,
    at_b: bool,
    place: usize,
    t: &Tables,
) -> Result<EndMove, Refusal>
    ensures { PlansMoveIn t.now.image.now nearest at_b place result }
{
    let Some(hit) = nearest else {
        return Err(Refusal::NothingMet);
    };
    if hit.tied {
        return Err(Refusal::Tie);
    }
    Ok(EndMove {
        at_b,
        place,
        to: hit.at,
        pin: pin_at(hit.at, hit.by, t),
    })
}

// The end of a line that moves: b or (false) a.
fn moving_end(at_b: bool, i: Id, j: Id) -> Id
    ensures { result ≡ cond at_b j i }
{
    if at_b { j } else { i }
}

// The end b or (false) a of a line: it is held where another curve uses it, or it is fixed. An end of a good image's line is one of its points.
fn plan_end(
    t: &Tables,
    id: Id,
    a: Vec2,
    b: Vec2,
    at_b: bool,
    end: Id,
    at: Vec2,
) -> Result<EndMove, Refusal>
    ensures { PlansEndIn t.now.image.now id at (support a b at_b) end result }
{
    if used_by_other(t.curves, id, end) {
        return Err(Refusal::EndHeld);
    }
    let Some(place) = point_place(t.points, t.near, end) else {
        return Err(Refusal::EndHeld);
    };
    if point_at(t.points, place).fixed {
        return Err(Refusal::EndHeld);
    }
    let line = Shape::from_line(a, b);
    let foot = line.point(line.param(at));
    let nearest = nearest_hit(a, b, at_b, foot, id, t)?;
    plan_move(nearest, at_b, place, t)
}

// The end nearer to the pick, b where they are as near, of a line alone. Whether the relations are met is asked before.
pub(crate) fn plan_extend(t: &Tables, place: usize, at: Vec2) -> Result<EndMove, Refusal>
    ensures { PlansExtendIn t.now.image.now place at result }
{
    let c = curve_at(t.curves, place);
    let CurveKind::Line(i, j) = c.kind else {
        return Err(Refusal::WrongKind);
    };
    let a = position_of(i, t.points, t.near);
    let b = position_of(j, t.points, t.near);
    let at_b = at.dist(b) <= at.dist(a);
    plan_end(t, c.id, a, b, at_b, moving_end(at_b, i, j), at)
}
