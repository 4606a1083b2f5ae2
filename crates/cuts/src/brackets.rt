// The cuts on both sides of a place on a curve.
ghost use Rattle.std.specs.Prelude.{◌≡◌, true, false, option_to_list};
ghost use Rattle.shape.specs.Measures.{is_full};
ghost use Rattle.cuts.specs.Nearest as N;
ghost use Rattle.cuts.specs.Nearest.{Fit};
ghost use Rattle.cuts.specs.Bracket as B;
ghost use Rattle.cuts.specs.Bracket.{neighbours, in_order};

use crate::nearest::nearest;
use crate::{Cut, Neighbours, Side};
use shape::Shape;

// On a curve with ends: the last before tq, and the first after it.
pub(crate) fn beside(sh: Shape, tq: f64, cuts: &[Cut]) -> Neighbours
    requires { is_full sh ≡ false }
    ensures { neighbours result ≡ B.beside tq (in_order sh cuts.now) }
{
    let r = sh.range();
    let margin = 1e-9 * (r.end - r.start);
    let low = r.start + margin;
    let high = r.end - margin;
    let before = nearest(Side::Before, true, low, high, tq, cuts);
    let after = nearest(Side::After, false, low, high, tq, cuts);
    match before {
        Some(k) => match after {
            Some(j) => Neighbours::Two(k, j),
            None => Neighbours::One(k),
        },
        None => match after {
            Some(j) => Neighbours::One(j),
            None => Neighbours::Zero,
        },
    }
}

// The first or the last on one side of tq, else of all.
fn or_of_all(side: Side, last: bool, tq: f64, cuts: &[Cut]) -> Option<Cut>
    ensures found { option_to_list result ≡ N.or_of_all last side tq cuts.now }
    ensures numbers { Fit cuts.now }
{
    match nearest(side, last, 0.0, 0.0, tq, cuts) {
        Some(k) => Some(k),
        None => nearest(Side::Any, last, 0.0, 0.0, tq, cuts),
    }
}

// On a full curve: the two around tq, going round.
pub(crate) fn around(sh: Shape, tq: f64, cuts: &[Cut]) -> Neighbours
    requires { is_full sh ≡ true }
    ensures { neighbours result ≡ B.around tq (in_order sh cuts.now) }
{
    if cuts.len() < 2 {
        return Neighbours::Zero;
    }
    let Some(behind) = or_of_all(Side::NotPast, true, tq, cuts) else {
        return Neighbours::Zero;
    };
    let Some(ahead) = or_of_all(Side::Past, false, tq, cuts) else {
        return Neighbours::Zero;
    };
    if float::before_in_order(ahead.t, behind.t) {
        Neighbours::Two(ahead, behind)
    } else {
        Neighbours::Two(behind, ahead)
    }
}
