// The cuts that other curves make, one behind the other.
ghost use Rattle.std.specs.Prelude.{◌≡◌, ◌+◌, ◌≤◌, ◌<◌, ◌++◌, length, get_or, take};
ghost use Rattle.geom.specs.Plane.{origin};
ghost use Rattle.shape.specs.Intersections.{points, direction_of};
ghost use Rattle.cuts.specs.Bounded as B;
ghost use Rattle.cuts.specs.Cuts as C;
ghost use Rattle.cuts.specs.Cuts.{found_near, cut_step, cuts_by};
ghost use Rattle.cuts.specs.Crossings.{crossing_at};

use crate::bounded::{lies_on, on_bounded};
use crate::{Cut, Cutter};
use geom::Vec2;
use shape::{Crossings, Shape};

// Whether one of the cuts is nearer than 1e-6 to q.
fn seen(found: &[Cut], q: Vec2) -> bool
    ensures { result ≡ found_near found.now q }
{
    for k in found {
        if k.at.dist2(q) < float::bounds::BELOW_1E_6 {
            return true;
        }
    }
    false
}

// A point where the other curve may cut: if it is on both curves and none was found there, it goes behind the first n. The target is
// asked first: most points are off it.
fn candidate(sh: Shape, slack: f64, o: Cutter, q: Vec2, n: usize, cuts: &mut [Cut]) -> usize
    requires slack_value { slack ≡ B.slack sh }
    requires room { n < length cuts.old }
    ensures found { take result cuts.new ≡ cut_step sh o (take n cuts.old) q }
    ensures upper_bound { result ≤ n + 1 }
{
    if !lies_on(sh, slack, q) {
        return n;
    }
    if !o.infinite && !on_bounded(o.shape, q) {
        return n;
    }
    if seen(&cuts[..n], q) {
        return n;
    }
    cuts[n] = Cut {
        t: sh.param(q),
        at: q,
        by: o.id,
    };
    n + 1
}

// The ends of a line, or of an arc that is not full.
fn end_points(sh: Shape) -> Crossings
    ensures { points result ≡ C.end_points sh }
{
    match sh {
        Shape::Line(a, b) => Crossings::Two(a, b),
        Shape::Round(_, _, _, sweep) => {
            if sh.is_full() {
                return Crossings::Zero;
            }
            Crossings::Two(sh.point(0.0), sh.point(sweep))
        },
    }
}

fn count(c: Crossings) -> usize
    ensures { result ≡ length (points c) }
{
    match c {
        Crossings::Zero => 0,
        Crossings::One(_) => 1,
        Crossings::Two(_, _) => 2,
    }
}

// The point at k, if there is one.
fn nth(c: Crossings, k: usize) -> Vec2
    ensures { result ≡ crossing_at c k }
{
    match c {
        Crossings::Zero => Vec2::ZERO,
        Crossings::One(p) => p,
        Crossings::Two(p, q) => { if k == 0 { p } else { q } },
    }
}

// The point at k of two lists, one behind the other.
fn candidate_at(c: Crossings, d: Crossings, k: usize) -> Vec2
    requires { k < length (points c) + length (points d) }
    ensures { result ≡ get_or (points c ++ points d) k origin }
{
    let first = count(c);
    if k < first {
        return nth(c, k);
    }
    nth(d, k - first)
}

// The cuts of one other curve: where it crosses, then where its ends touch. All these points go through
// one call, which is then compiled in place: passing shapes on to calls costs more than the tests do.
pub(crate) fn cuts_by(
    sh: Shape,
    d: Option<Vec2>,
    slack: f64,
    o: Cutter,
    n: usize,
    cuts: &mut [Cut],
) -> usize
    requires slack_value { (slack ≡ B.slack sh) × (d ≡ direction_of sh) }
    requires room { n + 4 ≤ length cuts.old }
    ensures found { take result cuts.new ≡ cuts_by sh o (take n cuts.old) }
    ensures upper_bound { result ≤ n + 4 }
{
    let crossings = shape::intersections_by(sh, d, o.shape);
    let ends = end_points(o.shape);
    let mut m = n;
    for k in 0..count(crossings) + count(ends) {
        m = candidate(sh, slack, o, candidate_at(crossings, ends, k), m, cuts);
    }
    m
}
