// What refuses a plan: from counts alone, before anything is written.
ghost use Rattle.std.specs.Prelude.{◌≡◌, true, [], ℕ, ◌+◌, ◌≤◌, ltb, length};
ghost use Rattle.sketch.specs.Drawing.{limits};
ghost use Rattle.sketch.specs.Lists.{guard_number};
ghost use Rattle.refusal.specs.Refusals.{refusal_number};
ghost use Rattle.edit_plan.specs.Changes.{extent_of};
ghost use Rattle.edit_plan.specs.Room.{left_over, room_for};
ghost use Rattle.edit_plan.specs.Suited.{suits_open, suits_closed, suits};
ghost use Rattle.rows.specs.Rows.{points_in, curves_in, relations_in};
ghost use Rattle.apply.specs.Clauses.{left_rows};

use crate::limits::Limited;
use crate::relation_rows::count_left;
use edit_plan::{Extent, Orphans, Plan, extent_of, room_for};
use image::{CURVE_SIZE, POINT_SIZE, RELATION_SIZE};
use refusal::Refusal;
use sketch::{Curve, CurveKind};

// Whether a line or an arc can be cut so.
#[tactic(auto, unfolding(edit_plan::specs::Suited::suits_open))]
fn suits_open(plan: Plan) -> bool
    ensures { result ≡ suits_open plan }
{
    match plan {
        Plan::Whole | Plan::Cut(_, _) | Plan::Divide(_) => true,
        Plan::CutTwo(_, _, lead) => !lead,
        Plan::DivideTwo(_, _) | Plan::Move(_, _, _) => false,
    }
}

// Whether a circle can be cut so.
#[tactic(auto, unfolding(edit_plan::specs::Suited::suits_closed))]
fn suits_closed(plan: Plan) -> bool
    ensures { result ≡ suits_closed plan }
{
    matches!(
        plan,
        Plan::Whole | Plan::CutTwo(_, _, _) | Plan::DivideTwo(_, _)
    )
}

// Whether a plan suits a curve of a kind.
#[tactic(auto, unfolding(edit_plan::specs::Suited::suits))]
fn suits_kind(kind: CurveKind, plan: Plan) -> bool
    ensures { result ≡ suits kind plan }
{
    match kind {
        CurveKind::Line(_, _) | CurveKind::Arc(_, _, _) => suits_open(plan),
        CurveKind::Circle(_, _) => suits_closed(plan),
        CurveKind::Bezier(_) | CurveKind::Conic(_, _, _, _) => false,
    }
}

// How many relations are left once the curve is released; or how many there are, where so many don't fill the table.
fn count_released(relations: &[u8], e: Extent) -> usize
    ensures { (more : ℕ) → more ≤ 2 → ltb (result + more) limits.relations ≡ ltb (length (left_rows e [] relations.now) + more) limits.relations }
{
    let n = relations.len() / RELATION_SIZE;
    if n < 254 {
        return n;
    }
    count_left(relations, e, Orphans::NONE)
}

// What refuses the plan for the curve c.
pub(crate) fn refusal_in<'a>(t: &Limited<'a>, c: Curve, plan: Plan) -> Result<(), Refusal>
    ensures { refusal_number result ≡ guard_number (suits c.kind plan) 10 (room_for c.kind plan t.now.next (length (points_in t.now.points.now)) (length (curves_in t.now.curves.now)) (left_over (extent_of c.kind c.id plan) (relations_in t.now.relations.now))) }
{
    if !suits_kind(c.kind, plan) {
        return Err(Refusal::WrongKind);
    }
    let e = extent_of(c.kind, c.id, plan);
    let left = count_released(t.relations, e);
    room_for(
        c.kind,
        plan,
        t.next,
        t.points.len() / POINT_SIZE,
        t.curves.len() / CURVE_SIZE,
        left,
    )
}
