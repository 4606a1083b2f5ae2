// The cuts that the other curves of an image make on one of its curves, straight from its records.
ghost use Rattle.std.specs.Prelude.{◌*◌, ◌≤◌, length, take};
ghost use Rattle.cuts.specs.ImageCuts.{BracketIn};
ghost use Rattle.cuts.specs.ImageContracts.{CutsOfFirst, BracketOfFirst};

use crate::bounded::slack;
use crate::brackets::{around, beside};
use crate::gather::cuts_by;
use crate::{Cut, Cutter, Neighbours};
use geom::Vec2;
use image::{read_curve_id, read_infinite, read_kind};
use rows::{Tables, curve_count, curve_record};
use shape::Shape;
use sketch::Id;
use sketch_geometry::positions::shape_of;

// What stands where no cut was found.
const NO_CUT: Cut = Cut {
    t: 0.0,
    at: Vec2::ZERO,
    by: 0,
};

// The cuts of the first n curves but the one with the id, in their order: at most four of each.
fn cuts_in(sh: Shape, id: Id, n: usize, t: &Tables, cuts: &mut [Cut]) -> usize
    requires { 4 * n ≤ length cuts.old }
    ensures cuts_of_first { CutsOfFirst t.now.image.now n sh id (take result cuts.new) }
    ensures upper_bound { result ≤ 4 * n }
{
    let slack = slack(sh);
    let d = shape::direction_of(sh);
    let mut found: usize = 0;
    for i in 0..n {
        let r = curve_record(t.curves, i);
        let other = read_curve_id(r);
        if other != id {
            if let Some(shape) = shape_of(read_kind(r), t.points, t.near) {
                let o = Cutter {
                    id: other,
                    infinite: read_infinite(r),
                    shape,
                };
                found = cuts_by(sh, d, slack, o, found, cuts);
            }
        }
    }
    found
}

// The cuts around tq of the first n curves, kept in an array of four for each.
fn bracket_in<const N: usize>(sh: Shape, tq: f64, id: Id, n: usize, t: &Tables) -> Neighbours
    requires { (4 * n ≤ N) × (N ≤ 512) }
    ensures { BracketOfFirst t.now.image.now n sh tq id result }
{
    let mut cuts = [NO_CUT; N];
    let found = cuts_in(sh, id, n, t, &mut cuts);
    if sh.is_full() {
        around(sh, tq, &cuts[..found])
    } else {
        beside(sh, tq, &cuts[..found])
    }
}

// Of the curves of an image but the one with the id, the cuts on both sides of tq: before and after it, or on a full curve behind and
// ahead, in order. A full curve under two cuts has none. A small drawing needs no large array, which costs more to clear than its cuts
// do.
pub fn bracket(sh: Shape, tq: f64, id: Id, t: &Tables) -> Neighbours
    ensures { BracketIn t.now.image.now sh tq id result }
{
    let n = curve_count(t.curves);
    if n <= 16 {
        return bracket_in::<64>(sh, tq, id, n, t);
    }
    if n <= 64 {
        return bracket_in::<256>(sh, tq, id, n, t);
    }
    if n > 128 {
        return Neighbours::Zero;
    }
    bracket_in::<512>(sh, tq, id, n, t)
}
