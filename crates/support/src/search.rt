// The search for the hits of a support.
ghost use Rattle.std.specs.Prelude.{◌≡◌};
ghost use Rattle.bernstein.specs.Answers.{answer_in};
ghost use Rattle.geom.specs.Plane.{◌-ᵥ◌, normalized};
ghost use Rattle.support.specs.Hits.{shape_hits};
ghost use Rattle.support.specs.Pieces.{hits_of, with_room, HitsWritten};

use crate::freeform::freeform_hits;
use crate::points::at_most_8;
use crate::shapes::{shape_hits, shape_hits_along};
use crate::{Form, Piece, ROOM};
use bernstein::{Found, Stopped};
use geom::Vec2;
use refusal::Refusal;
use shape::Shape;

// Finds where the endless line through a and b meets a piece, whose control points, if it has any, are in xs and ys, and puts the places, in
// order, to the front of hx and hy. Refused are fewer than 28 floats lent for either (25), a line that lies along the support and a curve that
// nowhere leaves it (15), a support without a direction before a freeform curve and a hit more than 1e-7 off the support (16), and
// what the search for roots refuses.
pub fn hits<'a>(
    a: Vec2,
    b: Vec2,
    piece: Piece,
    xs: [f64; 8],
    ys: [f64; 8],
    hx: &'a mut [f64],
    hy: &'a mut [f64],
    budget: usize,
) -> Result<Found, Stopped>
    ensures { HitsWritten (with_room hx.old hy.old budget (hits_of a b piece xs ys budget)) hx.old hy.old hx.new hy.new (answer_in result) }
{
    if hx.len() < ROOM || hy.len() < ROOM {
        return Err(Stopped {
            refusal: Refusal::ShortBuffer,
            budget,
        });
    }
    match piece {
        Piece::Analytic(sh) => shape_hits(a, b, sh, hx, hy, budget),
        Piece::Bezier(n) => {
            let k = at_most_8(n);
            freeform_hits(a, b, Form::Polynomial, &xs[..k], &ys[..k], hx, hy, budget)
        }
        Piece::Conic(w) => {
            freeform_hits(a, b, Form::Rational(w), &xs[..3], &ys[..3], hx, hy, budget)
        }
    }
}

// The same for a line or round, given the direction of the support: for a caller that asks for the hits of one support with many.
pub fn hits_along<'a>(
    a: Vec2,
    b: Vec2,
    along: Option<Vec2>,
    sh: Shape,
    hx: &'a mut [f64],
    hy: &'a mut [f64],
    budget: usize,
) -> Result<Found, Stopped>
    ensures { (along ≡ normalized (b -ᵥ a)) → HitsWritten (with_room hx.old hy.old budget (shape_hits a b sh budget)) hx.old hy.old hx.new hy.new (answer_in result) }
{
    if hx.len() < ROOM || hy.len() < ROOM {
        return Err(Stopped {
            refusal: Refusal::ShortBuffer,
            budget,
        });
    }
    shape_hits_along(a, b, along, sh, hx, hy, budget)
}
