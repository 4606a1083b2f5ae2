// What a plan writes, all from the curve, the plan and the next id.
ghost use Rattle.std.specs.Prelude.{◌≡◌, suc, ◌+◌, ◌≤◌, leb};
ghost use Rattle.edit_plan.specs.Changes.{pin_relation, halves_of, half_circles, no_halves, cut_once, divide_once, cut_middle, change_for};
ghost use Rattle.edit_plan.specs.Room.{takes};
ghost use Rattle.sketch.specs.Lists.{ite};
ghost use Rattle.sketch.specs.Drawing.{limits};

use crate::pieces::{
    end_of, gone_piece, is_circle, kept_piece, new_curve, new_point, piece, pin_relation, recut,
    start_of, tie_relation,
};
use crate::{Change, Halves, PinnedPoint, Plan, Removed};
use geom::Vec2;
use sketch::{Curve, CurveKind, Id, MAX_NEXT_ID, Relation};

// A line or an arc in two, at v.
fn halves(kind: CurveKind, v: Vec2, next: Id) -> Halves
    requires { next + 2 ≤ limits.ids }
    ensures { result ≡ halves_of kind v next }
{
    Halves {
        point: new_point(next, v),
        second_point: None,
        from: start_of(kind),
        at: next,
        to: end_of(kind),
        half: next + 1,
        next: next + 2,
    }
}

// A circle in two: from v to u, and back.
fn half_circles(v: Vec2, u: Vec2, next: Id) -> Halves
    requires { next + 3 ≤ limits.ids }
    ensures { result ≡ half_circles v u next }
{
    let i = next + 1;
    Halves {
        point: new_point(next, v),
        second_point: Some(new_point(i, u)),
        from: next,
        at: i,
        to: next,
        half: next + 2,
        next: next + 3,
    }
}

// Nothing in two.
fn no_halves(next: Id) -> Halves
    ensures { result ≡ no_halves next }
{
    Halves {
        point: new_point(0, Vec2::ZERO),
        second_point: None,
        from: 0,
        at: 0,
        to: 0,
        half: 0,
        next,
    }
}

// One half is removed, and the ends of the other are pinned.
fn cut_once(
    c: Curve,
    h: Halves,
    lead: bool,
    relation: Relation,
    second_relation: Option<Relation>,
) -> Change
    ensures { result ≡ cut_once c h lead relation second_relation }
{
    Change {
        next: h.next,
        point: h.point,
        second_point: h.second_point,
        kept: recut(c, kept_piece(c.kind, lead, h.from, h.at, h.to)),
        added: None,
        relation,
        second_relation,
        third_relation: None,
        removed: gone_piece(h.half, lead, h.from, h.at, h.to),
    }
}

// Both halves stay, and are tied.
fn divide_once(c: Curve, h: Halves) -> Change
    ensures { result ≡ divide_once c h }
{
    Change {
        next: h.next,
        point: h.point,
        second_point: h.second_point,
        kept: recut(c, piece(c.kind, h.from, h.at)),
        added: Some(new_curve(h.half, piece(c.kind, h.at, h.to), c.construction)),
        relation: tie_relation(c.kind, c.id, h.half),
        second_relation: None,
        third_relation: None,
        removed: Removed::NOTHING,
    }
}

// A circle becomes the arc between its cuts, or the other one.
fn cut_circle(c: Curve, w: PinnedPoint, v: PinnedPoint, lead: bool, next: Id) -> Change
    requires { next + 3 ≤ limits.ids }
    ensures { result ≡ cut_once c (half_circles w.at v.at next) lead (pin_relation w.pin next) (Some (pin_relation v.pin (suc next))) }
{
    let first = pin_relation(w.pin, next);
    let second = pin_relation(v.pin, next + 1);
    cut_once(c, half_circles(w.at, v.at, next), lead, first, Some(second))
}

// The middle piece of a line or an arc is removed; its last piece is new.
fn cut_middle(c: Curve, w: PinnedPoint, v: PinnedPoint, next: Id) -> Change
    requires { next + 4 ≤ limits.ids }
    ensures { result ≡ cut_middle c w v next }
{
    let i = next + 1;
    let g = next + 3;
    Change {
        next: next + 4,
        point: new_point(next, w.at),
        second_point: Some(new_point(i, v.at)),
        kept: recut(c, piece(c.kind, start_of(c.kind), next)),
        added: Some(new_curve(g, piece(c.kind, i, end_of(c.kind)), c.construction)),
        relation: pin_relation(w.pin, next),
        second_relation: Some(pin_relation(v.pin, i)),
        third_relation: Some(tie_relation(c.kind, c.id, g)),
        removed: Removed {
            curve: next + 2,
            from: next,
            to: i,
        },
    }
}

// What the plan writes for the curve c.
#[tactic(auto, unfolding(crate::specs::Changes::change_for, crate::specs::Room::takes))]
pub(crate) fn change_for(c: Curve, plan: Plan, next: Id) -> Change
    requires { next + takes c.kind plan ≤ limits.ids }
    ensures { result ≡ change_for c plan next }
{
    match plan {
        Plan::Cut(w, lead) => cut_once(
            c,
            halves(c.kind, w.at, next),
            lead,
            pin_relation(w.pin, next),
            None,
        ),
        Plan::CutTwo(w, v, lead) => if is_circle(c.kind) {
            cut_circle(c, w, v, lead, next)
        } else {
            cut_middle(c, w, v, next)
        },
        Plan::Divide(v) => divide_once(c, halves(c.kind, v, next)),
        Plan::DivideTwo(v, u) => divide_once(c, half_circles(v, u, next)),
        _ => divide_once(c, no_halves(next)),
    }
}

// How many ids the plan takes.
#[tactic(auto, unfolding(crate::specs::Room::takes))]
fn ids_taken(kind: CurveKind, plan: Plan) -> Id
    ensures { (result ≡ takes kind plan) × (result ≤ 4) }
{
    match plan {
        Plan::Whole | Plan::Move(_, _, _) => 0,
        Plan::Cut(_, _) | Plan::Divide(_) => 2,
        Plan::CutTwo(_, _, _) => if is_circle(kind) { 3 } else { 4 },
        Plan::DivideTwo(_, _) => 3,
    }
}

// What the plan writes for the curve c, whatever the next id is: where too few ids are left after it, those from 0 on are taken.
pub fn plan_change(c: Curve, plan: Plan, next: Id) -> Change
    ensures { result ≡ change_for c plan (ite (leb (next + takes c.kind plan) limits.ids) next 0) }
{
    if MAX_NEXT_ID - ids_taken(c.kind, plan) < next {
        return change_for(c, plan, 0);
    }
    change_for(c, plan, next)
}
