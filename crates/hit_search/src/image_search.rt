// The search for the place that the end of a line moves to, straight from an image's records.
ghost use Rattle.std.specs.Prelude.{◌≡◌, [], ◌∷◌};
ghost use Rattle.sketch.specs.Lists.{keep};
ghost use Rattle.shape.specs.Intersections.{points};
ghost use Rattle.support.specs.Hits.{on_piece};
ghost use Rattle.hit_search.specs.NearestHit.{best_of};
ghost use Rattle.hit_search.specs.Values.{support, support_in, best_in};
ghost use Rattle.hit_search.specs.ImageContracts.{SearchesCurveIn};
ghost use Rattle.hit_search.specs.ImageSearch.{FindsNearestHitIn};

use crate::boundaries::boundary;
use crate::image_hits::curve_hits;
use crate::search::{BUDGET, best_along, consider};
use crate::{Nearest, Progress, SupportLine};
use geom::Vec2;
use image::{read_curve, read_curve_id, read_infinite, read_kind};
use refusal::Refusal;
use rows::{Tables, curve_count, curve_record};
use shape::{Crossings, Shape, line_crossings};
use sketch::{Curve, Id};
use sketch_geometry::positions::shape_of;
use support::shapes::{on_piece, overlaps};

// One freeform curve more.
fn search_curve(
    line: &SupportLine,
    foot: Vec2,
    c: Curve,
    so_far: Progress,
    t: &Tables,
) -> Result<Progress, Refusal>
    ensures { SearchesCurveIn t.now.points.now line.now foot c so_far result }
{
    let mut hx = [0.0; 28];
    let mut hy = [0.0; 28];
    let hits = curve_hits(line, foot, c, so_far.budget, t, &mut hx, &mut hy);
    // By the scope, a caller takes the answer of a search apart by `let .. else`.
    let Ok(found) = hits else {
        return Err(hits.unwrap_err().refusal);
    };
    Ok(Progress {
        best: best_along(
            line,
            c.id,
            so_far.best,
            &hx[..found.count],
            &hy[..found.count],
        ),
        budget: found.budget,
    })
}

// A crossing of the line with the curve `by`, where it lies within the piece.
#[tactic(auto, unfolding(crate::specs::NearestHit::best_of))]
fn consider_on(
    line: &SupportLine,
    sh: Shape,
    q: Vec2,
    by: Id,
    best: Option<Nearest>,
) -> Option<Nearest>
    ensures { best_in result ≡ best_of (support_in line.now) by (best_in best) (keep (on_piece sh) (q ∷ [])) }
{
    if on_piece(sh, q) {
        return consider(line, q, by, best);
    }
    best
}

// All crossings of the line with the line or round `by`. They are no list: most curves are not met.
#[tactic(auto, unfolding(crate::specs::NearestHit::best_of, shape::specs::Intersections::points))]
fn consider_all(
    line: &SupportLine,
    sh: Shape,
    all: Crossings,
    by: Id,
    best: Option<Nearest>,
) -> Option<Nearest>
    ensures { best_in result ≡ best_of (support_in line.now) by (best_in best) (keep (on_piece sh) (points all)) }
{
    match all {
        Crossings::Zero => best,
        Crossings::One(p) => consider_on(line, sh, p, by, best),
        Crossings::Two(p, q) => {
            let first = consider_on(line, sh, p, by, best);
            consider_on(line, sh, q, by, first)
        }
    }
}

// The support through a and b.
fn support_through(a: Vec2, b: Vec2, at_b: bool) -> SupportLine
    ensures { support_in result ≡ support a b at_b }
{
    SupportLine {
        a,
        b,
        direction: Vec2::from_points(a, b).normalized(),
        length: a.dist(b),
        at_b,
    }
}

// All curves of an image but the one with an id, in order, within one budget.
pub fn nearest_hit(
    a: Vec2,
    b: Vec2,
    at_b: bool,
    foot: Vec2,
    id: Id,
    t: &Tables,
) -> Result<Option<Nearest>, Refusal>
    ensures { FindsNearestHitIn t.now.image.now a b at_b foot id result }
{
    let line = support_through(a, b, at_b);
    let mut so_far = Progress {
        best: None,
        budget: BUDGET,
    };
    for i in 0..curve_count(t.curves) {
        let r = curve_record(t.curves, i);
        let other = read_curve_id(r);
        if id != other {
            match shape_of(read_kind(r), t.points, t.near) {
                Some(sh) => {
                    let bound = boundary(read_infinite(r), sh, foot);
                    if overlaps(line.a, line.direction, bound) {
                        return Err(Refusal::Overlap);
                    }
                    let all = line_crossings(line.a, line.b, line.direction, bound);
                    so_far.best = consider_all(&line, bound, all, other, so_far.best);
                }
                None => {
                    so_far = search_curve(&line, foot, read_curve(r), so_far, t)?;
                }
            }
        }
    }
    Ok(so_far.best)
}
