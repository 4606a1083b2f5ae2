// Where the endless line of a support meets a line or round.
ghost use Rattle.std.specs.Prelude.{◌≤◌, [], ◌∷◌, ◌≡◌, length};
ghost use Rattle.bernstein.specs.Answers.{answer_in};
ghost use Rattle.geom.specs.Plane.{◌-ᵥ◌, normalized};
ghost use Rattle.shape.specs.Intersections.{points};
ghost use Rattle.sketch.specs.Lists.{keep};
ghost use Rattle.support.specs.Hits as Defs;
ghost use Rattle.support.specs.Hits.{found, on_piece, shape_hits};
ghost use Rattle.support.specs.Pieces.{HitsWritten};

use bernstein::{Found, Stopped};
use geom::Vec2;
use refusal::Refusal;
use shape::{Crossings, Shape};

// Whether the piece is a line that lies along the support, from a in its direction: both its ends are within 1e-9 of it.
pub fn overlaps(a: Vec2, along: Option<Vec2>, sh: Shape) -> bool
    ensures { result ≡ Defs.overlaps a along sh }
{
    let (Shape::Line(p, q), Some(d)) = (sh, along) else {
        return false;
    };
    let first = float::abs(d.cross(Vec2::from_points(a, p)));
    let second = float::abs(d.cross(Vec2::from_points(a, q)));
    (first < 1e-9) & (second < 1e-9)
}

// Whether q lies within the ends of the piece, but for 1e-10 of the parameter.
pub fn on_piece(sh: Shape, q: Vec2) -> bool
    ensures { result ≡ on_piece sh q }
{
    let t = sh.param(q);
    match sh {
        Shape::Line(_, _) => (-1e-10 <= t) & (t <= 1.0 + 1e-10),
        Shape::Round(_, _, _, sweep) => t <= sweep + 1e-10,
    }
}

// One hit, to the front of hx and hy.
fn one_hit<'a>(
    p: Vec2,
    hx: &'a mut [f64],
    hy: &'a mut [f64],
    budget: usize,
) -> Result<Found, Stopped>
    requires { (28 ≤ length hx.old) × (28 ≤ length hy.old) }
    ensures { HitsWritten (found (p ∷ []) budget) hx.old hy.old hx.new hy.new (answer_in result) }
{
    hx[0] = p.x;
    hy[0] = p.y;
    Ok(Found { count: 1, budget })
}

fn two_hits<'a>(
    p: Vec2,
    q: Vec2,
    hx: &'a mut [f64],
    hy: &'a mut [f64],
    budget: usize,
) -> Result<Found, Stopped>
    requires { (28 ≤ length hx.old) × (28 ≤ length hy.old) }
    ensures { HitsWritten (found (p ∷ q ∷ []) budget) hx.old hy.old hx.new hy.new (answer_in result) }
{
    hx[0] = p.x;
    hy[0] = p.y;
    hx[1] = q.x;
    hy[1] = q.y;
    Ok(Found { count: 2, budget })
}

// The crossings that lie on the piece, to the front of hx and hy.
fn kept<'a>(
    sh: Shape,
    all: Crossings,
    hx: &'a mut [f64],
    hy: &'a mut [f64],
    budget: usize,
) -> Result<Found, Stopped>
    requires { (28 ≤ length hx.old) × (28 ≤ length hy.old) }
    ensures { HitsWritten (found (keep (on_piece sh) (points all)) budget) hx.old hy.old hx.new hy.new (answer_in result) }
{
    let none = Found { count: 0, budget };
    match all {
        Crossings::Zero => Ok(none),
        Crossings::One(p) => {
            if on_piece(sh, p) {
                one_hit(p, hx, hy, budget)
            } else {
                Ok(none)
            }
        }
        Crossings::Two(p, q) => match (on_piece(sh, p), on_piece(sh, q)) {
            (true, true) => two_hits(p, q, hx, hy, budget),
            (true, false) => one_hit(p, hx, hy, budget),
            (false, true) => one_hit(q, hx, hy, budget),
            (false, false) => Ok(none),
        },
    }
}

// The endless line through a and b, whose direction is given, against a line or round.
pub(crate) fn shape_hits_along<'a>(
    a: Vec2,
    b: Vec2,
    along: Option<Vec2>,
    sh: Shape,
    hx: &'a mut [f64],
    hy: &'a mut [f64],
    budget: usize,
) -> Result<Found, Stopped>
    requires { (28 ≤ length hx.old) × (28 ≤ length hy.old) }
    ensures { (along ≡ normalized (b -ᵥ a)) → HitsWritten (shape_hits a b sh budget) hx.old hy.old hx.new hy.new (answer_in result) }
{
    if overlaps(a, along, sh) {
        return Err(Stopped {
            refusal: Refusal::Overlap,
            budget,
        });
    }
    let all = shape::line_crossings(a, b, along, sh);
    kept(sh, all, hx, hy, budget)
}

// The same, where the direction is yet to be found.
pub(crate) fn shape_hits<'a>(
    a: Vec2,
    b: Vec2,
    sh: Shape,
    hx: &'a mut [f64],
    hy: &'a mut [f64],
    budget: usize,
) -> Result<Found, Stopped>
    requires { (28 ≤ length hx.old) × (28 ≤ length hy.old) }
    ensures { HitsWritten (shape_hits a b sh budget) hx.old hy.old hx.new hy.new (answer_in result) }
{
    let along = Vec2::from_points(a, b).normalized();
    shape_hits_along(a, b, along, sh, hx, hy, budget)
}
