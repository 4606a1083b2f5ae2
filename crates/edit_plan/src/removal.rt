// What is left of a relation where a curve is cut or removed: it is kept, released or dropped.
ghost use Rattle.std.specs.Prelude.{◌≡◌, option_to_list};
ghost use Rattle.sketch.specs.Lists.{every};
ghost use Rattle.sketch.specs.Lookup.{among};
ghost use Rattle.sketch.specs.Drawing.{points_of};
ghost use Rattle.edit_plan.specs.Tables.{curves_of};
ghost use Rattle.edit_plan.specs.Steps.{drop_if, release_relation};
ghost use Rattle.edit_plan.specs.Changes.{chord, orphan_list, staying, left_by, left_of};

use crate::{Extent, Orphans};
use sketch::{Id, Relation};

// The relation, unless it is dropped.
fn drop_if(drop: bool, v: Relation) -> Option<Relation>
    ensures { option_to_list result ≡ drop_if drop v }
{
    (!drop).then_some(v)
}

// What is left of a relation where a curve is cut.
#[tactic(auto, unfolding(crate::specs::Steps::release_relation, crate::specs::Steps::measured))]
fn release_relation(v: Relation, e: Extent) -> Option<Relation>
    ensures { option_to_list result ≡ release_relation e.id (chord e) v }
{
    match v {
        Relation::Equal(a, b) => drop_if(e.line & ((a == e.id) | (b == e.id)), v),
        Relation::Length(l, x) if l == e.id => e
            .line
            .then_some(Relation::Distance(e.from, e.to, x)),
        Relation::Midpoint(_, l) => drop_if(l == e.id, v),
        Relation::ArcLength(c, _) => drop_if(c == e.id, v),
        Relation::ArcSweep(c, _) => drop_if(c == e.id, v),
        _ => Some(v),
    }
}

// Whether a relation names the curve g.
#[tactic(auto, unfolding(crate::specs::Tables::curves_of))]
fn names(v: Relation, g: Id) -> bool
    ensures { result ≡ among g (curves_of v) }
{
    match v {
        Relation::PointOnCurve(_, c) => g == c,
        Relation::Collinear(a, b) => (g == a) | (g == b),
        Relation::Equal(a, b) => (g == a) | (g == b),
        Relation::Length(l, _) => g == l,
        Relation::Midpoint(_, l) => g == l,
        Relation::ArcLength(c, _) => g == c,
        Relation::ArcSweep(c, _) => g == c,
        _ => false,
    }
}

// Whether every point that a relation names stays.
#[tactic(auto, unfolding(sketch::specs::Drawing::points_of))]
fn keeps_all_points(v: Relation, os: Orphans) -> bool
    ensures { result ≡ every (staying (orphan_list os)) (points_of v) }
{
    match v {
        Relation::Coincident(p, q) => !os.contains(p) & !os.contains(q),
        Relation::PointOnCurve(p, _) => !os.contains(p),
        Relation::Distance(p, q, _) => !os.contains(p) & !os.contains(q),
        Relation::Midpoint(p, _) => !os.contains(p),
        _ => true,
    }
}

// What is left of a relation where a curve is cut or removed.
fn left_by(v: Relation, e: Extent) -> Option<Relation>
    ensures { option_to_list result ≡ left_by e v }
{
    if e.whole {
        return drop_if(names(v, e.id), v);
    }
    release_relation(v, e)
}

// What is left of a relation where a curve is cut or removed and points are removed with it.
pub fn left_of(v: Relation, e: Extent, os: Orphans) -> Option<Relation>
    ensures { option_to_list result ≡ left_of e (orphan_list os) v }
{
    let w = left_by(v, e)?;
    drop_if(!keeps_all_points(w, os), w)
}
