// Where the endless line of a support meets one curve of an image, straight from its records.
ghost use Rattle.std.specs.Prelude.{◌≤◌, length};
ghost use Rattle.bernstein.specs.Answers.{answer_in};
ghost use Rattle.hit_search.specs.Clauses.{Fits};
ghost use Rattle.hit_search.specs.ImageContracts.{ControlsIn, CurveHitsIn};

use crate::boundaries::boundary;
use crate::{Controls, SupportLine};
use bernstein::{Found, Stopped};
use geom::Vec2;
use rows::Tables;
use sketch::{Curve, CurveKind, Id};
use sketch_geometry::positions::{position_of, shape_of};
use support::Piece;
use support::search::{hits, hits_along};

// The coordinates of the points in the first `count` slots.
fn controls(slots: [Id; 8], count: usize, t: &Tables) -> Controls
    ensures { ControlsIn t.now.points.now slots count result }
{
    let mut xs = [0.0; 8];
    let mut ys = [0.0; 8];
    for i in 0..count.min(8) {
        let p = position_of(slots[i], t.points, t.near);
        xs[i] = p.x;
        ys[i] = p.y;
    }
    Controls { xs, ys }
}

// The hits of a support with a curve, put to the front of hx and hy, under a budget.
pub(crate) fn curve_hits<'b>(
    line: &SupportLine,
    foot: Vec2,
    c: Curve,
    budget: usize,
    t: &Tables,
    hx: &'b mut [f64],
    hy: &'b mut [f64],
) -> Result<Found, Stopped>
    requires { (28 ≤ length hx.old) × (28 ≤ length hy.old) }
    ensures curve_hits_in { CurveHitsIn t.now.points.now line.now foot c budget hx.old hy.old hx.new hy.new (answer_in result) }
    ensures fits { Fits hx.new hy.new (answer_in result) }
{
    let a = line.a;
    let b = line.b;
    match c.kind {
        CurveKind::Bezier(n) => {
            let count = n as usize + 1;
            let k = controls(c.slots, count, t);
            hits(a, b, Piece::Bezier(count), k.xs, k.ys, hx, hy, budget)
        }
        CurveKind::Conic(i, j, k, rho) => {
            let p = position_of(i, t.points, t.near);
            let m = position_of(j, t.points, t.near);
            let q = position_of(k, t.points, t.near);
            let px = [p.x, m.x, q.x, 0.0, 0.0, 0.0, 0.0, 0.0];
            let py = [p.y, m.y, q.y, 0.0, 0.0, 0.0, 0.0, 0.0];
            hits(
                a,
                b,
                Piece::Conic(rho / (1.0 - rho)),
                px,
                py,
                hx,
                hy,
                budget,
            )
        }
        // Every other curve has an outline.
        _ => {
            let Some(sh) = shape_of(c.kind, t.points, t.near) else {
                return Ok(Found { count: 0, budget });
            };
            let bound = boundary(c.infinite, sh, foot);
            hits_along(a, b, line.direction, bound, hx, hy, budget)
        }
    }
}
