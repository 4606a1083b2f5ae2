// The nearest of the hits beyond the end of a line that moves.
ghost use Rattle.std.specs.Prelude.{◌≡◌, cond, length};
ghost use Rattle.std.specs.Float.Ieee.{lt};
ghost use Rattle.float.specs.Numbers.{1e-6};
ghost use Rattle.support.specs.Pieces.{zip_points};
ghost use Rattle.hit_search.specs.NearestHit as E;
ghost use Rattle.hit_search.specs.NearestHit.{gap_of, best_of};
ghost use Rattle.hit_search.specs.Values.{support_in, some_best, best_in};

use crate::{Nearest, SupportLine};
use geom::Vec2;
use shape::Shape;
use sketch::Id;

// The budget of one edit.
pub(crate) const BUDGET: usize = 1000000;

// How far beyond the end that moves a place on the line lies.
#[tactic(auto, unfolding(crate::specs::NearestHit::gap_of))]
fn gap_of(line: &SupportLine, q: Vec2) -> f64
    ensures { result ≡ gap_of (support_in line.now) q }
{
    let t = Shape::from_line(line.a, line.b).param(q);
    if line.at_b {
        (t - 1.0) * line.length
    } else {
        -t * line.length
    }
}

// A hit beside the best so far.
#[tactic(auto, unfolding(crate::specs::NearestHit::better))]
fn better(gap: f64, q: Vec2, by: Id, best: Option<Nearest>) -> Nearest
    ensures { some_best result ≡ E.better gap q by (best_in best) }
{
    let fresh = Nearest {
        gap,
        at: q,
        by,
        tied: false,
    };
    let Some(old) = best else {
        return fresh;
    };
    if gap < old.gap - 1e-7 {
        return fresh;
    }
    if float::abs(gap - old.gap) <= 1e-7 && (old.by != by || 1e-7 < old.at.dist(q)) {
        return Nearest { tied: true, ..old };
    }
    old
}

// Only what lies more than 1e-6 beyond the end counts.
pub(crate) fn consider(
    line: &SupportLine,
    q: Vec2,
    by: Id,
    best: Option<Nearest>,
) -> Option<Nearest>
    ensures { best_in result ≡ cond (lt 1e-6 (gap_of (support_in line.now) q)) (E.better (gap_of (support_in line.now) q) q by (best_in best)) (best_in best) }
{
    let gap = gap_of(line, q);
    if 1e-6 < gap {
        return Some(better(gap, q, by, best));
    }
    best
}

// All hits of the curve `by`, by their coordinates.
#[tactic(auto, unfolding(crate::specs::NearestHit::best_of, support::specs::Pieces::zip_points))]
pub(crate) fn best_along(
    line: &SupportLine,
    by: Id,
    best: Option<Nearest>,
    hx: &[f64],
    hy: &[f64],
) -> Option<Nearest>
    ensures { best_in result ≡ best_of (support_in line.now) by (best_in best) (zip_points hx.now hy.now) }
{
    let mut nearest = best;
    for (x, y) in hx.iter().zip(hy) {
        nearest = consider(line, Vec2::new(*x, *y), by, nearest);
    }
    nearest
}
