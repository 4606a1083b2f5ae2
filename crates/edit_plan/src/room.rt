// Whether there is room for what a plan adds: the tests 22, 23 and 24 of every addition, in order, on numbers alone.
ghost use Rattle.std.specs.Prelude.{◌≡◌, ◌+◌, ◌≤◌};
ghost use Rattle.sketch.specs.Drawing.{limits};
ghost use Rattle.refusal.specs.Refusals.{refusal_number};
ghost use Rattle.edit_plan.specs.Room.{one_place, additions_for, point_room, curve_room, room_with, room_for};

use crate::extents::is_whole;
use crate::pieces::is_circle;
use crate::{Additions, Plan};
use geom::Vec2;
use refusal::Refusal;
use sketch::{CurveKind, Id, MAX_NEXT_ID, coordinate_ok};

// One point, one curve and one relation.
fn one_place(at: Vec2) -> Additions
    ensures { result ≡ one_place at }
{
    Additions {
        first: at,
        second: at,
        points: 0,
        curves: 0,
        relations: 0,
    }
}

#[tactic(auto, unfolding(crate::specs::Room::additions_for))]
fn additions_for(kind: CurveKind, plan: Plan) -> Additions
    ensures { result ≡ additions_for kind plan }
{
    match plan {
        Plan::Cut(w, _) => one_place(w.at),
        Plan::CutTwo(w, v, _) => if is_circle(kind) {
            Additions {
                second: v.at,
                points: 1,
                relations: 1,
                ..one_place(w.at)
            }
        } else {
            Additions {
                second: v.at,
                points: 1,
                curves: 1,
                relations: 2,
                ..one_place(w.at)
            }
        },
        Plan::Divide(v) => one_place(v),
        Plan::DivideTwo(v, u) => Additions {
            second: u,
            points: 1,
            ..one_place(v)
        },
        _ => one_place(Vec2::ZERO),
    }
}

// What refuses a point more.
#[tactic(auto, unfolding(sketch::specs::Lists::guard_number))]
fn point_room(next: Id, n: usize, v: Vec2) -> Result<(), Refusal>
    ensures { refusal_number result ≡ point_room limits next n v 0 }
{
    if next >= MAX_NEXT_ID {
        return Err(Refusal::IdsSpent);
    }
    if n >= 512 {
        return Err(Refusal::TableFull);
    }
    if !(coordinate_ok(v.x) & coordinate_ok(v.y)) {
        return Err(Refusal::PointFarAway);
    }
    Ok(())
}

// What refuses a curve more.
#[tactic(auto, unfolding(sketch::specs::Lists::guard_number))]
fn curve_room(next: Id, n: usize) -> Result<(), Refusal>
    ensures { refusal_number result ≡ curve_room limits next n 0 }
{
    if next >= MAX_NEXT_ID {
        return Err(Refusal::IdsSpent);
    }
    if n >= 128 {
        return Err(Refusal::TableFull);
    }
    Ok(())
}

// The first refusal of all that is added: of points and curves with the numbers given, the relations being `full`.
fn room(next: Id, points: usize, curves: usize, full: bool, d: Additions) -> Result<(), Refusal>
    requires { (d.points ≤ 1) × (d.curves ≤ 1) }
    ensures { refusal_number result ≡ room_with limits next points curves full d }
{
    point_room(next, points, d.first)?;
    point_room(next + d.points, points + d.points as usize, d.second)?;
    let i = next + d.points + 1;
    curve_room(i, curves)?;
    curve_room(i + d.curves, curves + d.curves as usize)?;
    if full {
        return Err(Refusal::TableFull);
    }
    Ok(())
}

// What refuses the plan's additions: of points and curves with the numbers given, where so many relations are left once the curve is
// released.
pub fn room_for(
    kind: CurveKind,
    plan: Plan,
    next: Id,
    points: usize,
    curves: usize,
    left: usize,
) -> Result<(), Refusal>
    ensures { refusal_number result ≡ room_for kind plan next points curves left }
{
    if is_whole(plan) {
        return Ok(());
    }
    let d = additions_for(kind, plan);
    room(next, points, curves, 256 - d.relations <= left, d)
}
