// The first or the last of the cuts that a search is for, without sorting them.
ghost use Rattle.std.specs.Prelude.{◌≡◌, option_to_list};
ghost use Rattle.image.specs.Stored.{Binary64};
ghost use Rattle.cuts.specs.Nearest as N;
ghost use Rattle.cuts.specs.Nearest.{Fit};

use crate::{Cut, Side};

// Whether a search is for a cut at t. The ends are low and high.
fn wanted(side: Side, low: f64, high: f64, tq: f64, t: f64) -> bool
    ensures side { result ≡ N.wanted side low high tq t }
    ensures number { Binary64 t }
{
    match side {
        Side::Before => (low < t) & (t < high) & (t < tq),
        Side::After => (low < t) & (t < high) & (tq < t),
        Side::NotPast => !(tq < t),
        Side::Past => tq < t,
        Side::Any => true,
    }
}

// The better of a cut and the best found before it: of equals the last found stands last, and the first found first.
fn nearer(last: bool, best: Option<Cut>, k: Cut) -> Cut
    ensures { result ≡ N.nearer last best k }
{
    match best {
        Some(b) if float::before_in_order(k.t, b.t) == last => b,
        _ => k,
    }
}

// The first or the last of those wanted, if there is one.
pub(crate) fn nearest(
    side: Side,
    last: bool,
    low: f64,
    high: f64,
    tq: f64,
    cuts: &[Cut],
) -> Option<Cut>
    ensures found { option_to_list result ≡ N.nearest last (N.wanted side low high tq) cuts.now }
    ensures numbers { Fit cuts.now }
{
    let mut best: Option<Cut> = None;
    for k in cuts {
        if wanted(side, low, high, tq, k.t) {
            best = Some(nearer(last, best, *k));
        }
    }
    best
}
