// Where the endless line of a support meets a freeform curve.
ghost use Rattle.std.specs.Prelude.{◌≤◌, [], ◌++◌, ◌≡◌, length, drop};
ghost use Rattle.bernstein.specs.Answers.{answer_in};
ghost use Rattle.bernstein.specs.Roots.{roots_of};
ghost use Rattle.support.specs.Hits as Defs;
ghost use Rattle.support.specs.Hits.{resolved, resolved_at, freeform_hits};
ghost use Rattle.support.specs.Pieces.{zip_points, HitsWritten};
ghost use Rattle.support.specs.Clauses.{freeform_of, Controls, HitsAtFront};

use crate::distance::{polynomial, vanishes};
use crate::points::curve_point;
use crate::{Form, ROOM};
use bernstein::{Found, Stopped};
use geom::Vec2;
use refusal::Refusal;
use shape::Shape;

// Whether one of the points lies nearer than 1e-7 to q.
fn has_near_hit<'a>(q: Vec2, xs: &'a [f64], ys: &'a [f64]) -> bool
    requires { length ys.now ≡ length xs.now }
    ensures { result ≡ Defs.has_near_hit q (zip_points xs.now ys.now) }
{
    xs.iter().zip(ys).any(|(x, y)| Vec2::new(*x, *y).dist2(q) < float::bounds::BELOW_1E_7)
}

// The points at the roots ts, to the front of qx and qy, but for those near an earlier one.
fn resolve<'a, 'b>(
    line: Shape,
    curve: Form,
    xs: &'a [f64],
    ys: &'a [f64],
    ts: &'a [f64],
    qx: &'b mut [f64],
    qy: &'b mut [f64],
    budget: usize,
) -> Result<Found, Stopped>
    requires { Controls curve xs.now ys.now × (length ts.now ≤ length qx.old) × (length ts.now ≤ length qy.old) }
    ensures { HitsAtFront (resolved line (freeform_of curve xs.now ys.now) [] ts.now budget) qx.new qy.new (answer_in result) }
{
    let mut count = 0usize;
    for t in ts {
        let q = curve_point(curve, xs, ys, *t);
        if !(line.dist2(q) <= float::bounds::ABOVE_1E_7) {
            return Err(Stopped {
                refusal: Refusal::OffLine,
                budget,
            });
        }
        if !has_near_hit(q, &qx[..count], &qy[..count]) {
            qx[count] = q.x;
            qy[count] = q.y;
            count += 1;
        }
    }
    Ok(Found { count, budget })
}

// The hits at the roots of the coefficients c, to the front of hx and hy.
fn hits_at_roots<'a, 'b>(
    line: Shape,
    curve: Form,
    xs: &'a [f64],
    ys: &'a [f64],
    c: &'a [f64],
    hx: &'b mut [f64],
    hy: &'b mut [f64],
    budget: usize,
) -> Result<Found, Stopped>
    requires { Controls curve xs.now ys.now × (28 ≤ length hx.old) × (28 ≤ length hy.old) }
    ensures { HitsWritten (resolved_at line (freeform_of curve xs.now ys.now) (roots_of c.now budget)) hx.old hy.old hx.new hy.new (answer_in result) }
{
    let mut ts = [0.0; ROOM];
    let answer = bernstein::search::roots(c, &mut ts, budget);
    // The scope asks each caller of the search to take its answer apart by `let .. else`.
    let Ok(roots) = answer else {
        return answer;
    };
    let mut qx = [0.0; ROOM];
    let mut qy = [0.0; ROOM];
    let hits = resolve(
        line,
        curve,
        xs,
        ys,
        &ts[..roots.count],
        &mut qx,
        &mut qy,
        roots.budget,
    )?;
    let n = hits.count;
    hx[..n].copy_from_slice(&qx[..n]);
    hy[..n].copy_from_slice(&qy[..n]);
    Ok(hits)
}

// The endless line through a and b against a freeform curve.
pub(crate) fn freeform_hits<'a, 'b>(
    a: Vec2,
    b: Vec2,
    curve: Form,
    xs: &'a [f64],
    ys: &'a [f64],
    hx: &'b mut [f64],
    hy: &'b mut [f64],
    budget: usize,
) -> Result<Found, Stopped>
    requires { Controls curve xs.now ys.now × (28 ≤ length hx.old) × (28 ≤ length hy.old) }
    ensures { HitsWritten (freeform_hits a b (freeform_of curve xs.now ys.now) budget) hx.old hy.old hx.new hy.new (answer_in result) }
{
    let Some(d) = Vec2::from_points(a, b).normalized() else {
        return Err(Stopped {
            refusal: Refusal::OffLine,
            budget,
        });
    };
    let c = polynomial(d, a, curve, xs, ys);
    let n = xs.len();
    if vanishes(&c[..n]) {
        return Err(Stopped {
            refusal: Refusal::Overlap,
            budget,
        });
    }
    hits_at_roots(Shape::Line(a, b), curve, xs, ys, &c[..n], hx, hy, budget)
}
