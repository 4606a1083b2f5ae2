// The pin of a new end, from an image's records: to the curve that cut there, or to the end of it that lies there.
ghost use Rattle.std.proofs.Math.Option.{some};
ghost use Rattle.planning.specs.ImagePlans.{PinIn};
ghost use Rattle.planning.specs.ImageContracts.{PinToIn};

use edit_plan::Pin;
use float::bounds::BELOW_1E_6;
use geom::Vec2;
use rows::{Tables, curve_at, curve_place};
use sketch::{CurveKind, Id};
use sketch_geometry::positions::position_of;

// An end of the curve `by` that is nearer than 1e-6, or the curve.
fn pin_to(q: Vec2, by: Id, from: Id, to: Id, t: &Tables) -> Pin
    ensures { PinToIn t.now.points.now by (some (from, to)) q result }
{
    if position_of(from, t.points, t.near).dist2(q) < BELOW_1E_6 {
        return Pin::At(from);
    }
    if position_of(to, t.points, t.near).dist2(q) < BELOW_1E_6 {
        return Pin::At(to);
    }
    Pin::On(by)
}

// The pin of a new end at q, where the curve `by` cuts.
pub fn pin_at(q: Vec2, by: Id, t: &Tables) -> Pin
    ensures { PinIn t.now.image.now by q result }
{
    let Some(k) = curve_place(t.curves, t.near, by) else {
        return Pin::On(by);
    };
    match curve_at(t.curves, k).kind {
        CurveKind::Line(a, b) => pin_to(q, by, a, b, t),
        CurveKind::Arc(_, a, b) => pin_to(q, by, a, b, t),
        _ => Pin::On(by),
    }
}
