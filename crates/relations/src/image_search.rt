// The search for the first relation of an image that is not met, straight from its records, also once a point has moved.
ghost use Rattle.std.specs.Prelude.{◌≡◌, length, map};
ghost use Rattle.edit_plan.specs.Tables.{moved};
ghost use Rattle.image.specs.Image.{image_fault, drawing_of};
ghost use Rattle.relations.specs.Met.{met, first_unmet, below};
ghost use Rattle.relations.specs.Moves.{names, first_named_unmet};
ghost use Rattle.relations.specs.ImageContracts.{MetAfter};

use crate::measures::{close, is_collinear, is_midpoint, length_or_radius_of, on, same};
use crate::whole_shapes::whole_shape;
use geom::Vec2;
use rows::{Tables, relation_at, relation_count};
use sketch::{Id, Relation};
use sketch_geometry::Moved;
use sketch_geometry::positions::position_after;

// Whether one relation is met.
fn is_met(relation: Relation, t: &Tables, moved: Option<Moved>) -> bool
    ensures { MetAfter t.now.points.now t.now.curves.now moved relation result }
{
    match relation {
        Relation::Coincident(p, q) => close(
            position_after(p, t.points, t.near, moved),
            position_after(q, t.points, t.near, moved),
        ),
        Relation::PointOnCurve(p, c) => on(
            whole_shape(c, t, moved),
            position_after(p, t.points, t.near, moved),
        ),
        Relation::Collinear(a, b) => is_collinear(
            whole_shape(a, t, moved),
            whole_shape(b, t, moved),
        ),
        Relation::Equal(a, b) => {
            let s = whole_shape(a, t, moved);
            let t = whole_shape(b, t, moved);
            same(length_or_radius_of(s), length_or_radius_of(t))
        }
        Relation::Length(l, v) => {
            let s = whole_shape(l, t, moved);
            same(length_or_radius_of(s), v)
        }
        Relation::Distance(p, q, v) => {
            let a = position_after(p, t.points, t.near, moved);
            let b = position_after(q, t.points, t.near, moved);
            same(a.dist(b), v)
        }
        Relation::Midpoint(p, l) => is_midpoint(
            position_after(p, t.points, t.near, moved),
            whole_shape(l, t, moved),
        ),
        Relation::ArcLength(_, _) => true,
        Relation::ArcSweep(_, _) => true,
    }
}

// Whether a relation names the point p or the curve c.
fn names(relation: Relation, p: Id, c: Id) -> bool
    ensures { result ≡ names p c relation }
{
    match relation {
        Relation::Coincident(a, b) => (p == a) | (p == b),
        Relation::PointOnCurve(a, g) => (p == a) | (c == g),
        Relation::Collinear(g, h) => (c == g) | (c == h),
        Relation::Equal(g, h) => (c == g) | (c == h),
        Relation::Length(g, _) => c == g,
        Relation::Distance(a, b, _) => (p == a) | (p == b),
        Relation::Midpoint(a, g) => (p == a) | (c == g),
        Relation::ArcLength(g, _) => c == g,
        Relation::ArcSweep(g, _) => c == g,
    }
}

// The place of the first relation that is not met.
pub fn first_unmet(t: &Tables) -> Option<usize>
    ensures { image_fault t.now.image.now ≡ 0 → result ≡ below (length (drawing_of t.now.image.now).relations) (first_unmet (drawing_of t.now.image.now)) }
{
    let n = relation_count(t.relations);
    for i in 0..n {
        if !is_met(relation_at(t.relations, i), t, None) {
            return Some(i);
        }
    }
    None
}

// The place of the first relation that names the point p or the curve c and is not met once p is at v.
pub fn first_unmet_after(t: &Tables, p: Id, v: Vec2, c: Id) -> Option<usize>
    ensures { image_fault t.now.image.now ≡ 0 → result ≡ below (length (drawing_of t.now.image.now).relations) (first_named_unmet p v c (drawing_of t.now.image.now)) }
{
    let n = relation_count(t.relations);
    let moved = Some(Moved { point: p, to: v });
    for k in 0..n {
        let relation = relation_at(t.relations, k);
        if names(relation, p, c) && !is_met(relation, t, moved) {
            return Some(k);
        }
    }
    None
}

// Whether a relation is met once the point p is at v; it need not be one of the image's.
pub fn is_met_after(relation: Relation, t: &Tables, p: Id, v: Vec2) -> bool
    ensures { image_fault t.now.image.now ≡ 0 → result ≡ met (map (moved p v) (drawing_of t.now.image.now).points) (drawing_of t.now.image.now).curves relation }
{
    is_met(relation, t, Some(Moved { point: p, to: v }))
}
