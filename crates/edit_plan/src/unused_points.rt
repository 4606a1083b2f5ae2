// Which points go with a curve, or with a piece of it: those that no other curve uses.
ghost use Rattle.std.specs.Prelude.{◌≡◌, not, take, [], ◌↔◌, IsTrue, option_to_list};
ghost use Rattle.sketch.specs.Lists.{keep};
ghost use Rattle.sketch.specs.Lookup.{among};
ghost use Rattle.sketch.specs.Drawing.{uses_of};
ghost use Rattle.edit_plan.specs.Changes.{own_points, candidates_for, orphan_list};

use crate::pieces::{end_of, start_of};
use crate::{Orphans, Plan};
use sketch::{Curve, CurveKind, Id};

// Whether a point is among the first n slots.
fn in_slots(slots: &[Id], n: usize, p: Id) -> bool
    ensures { result ≡ among p (take n slots.now) }
{
    slots[..n.min(slots.len())].contains(&p)
}

// Whether a curve uses a point.
#[tactic(auto, unfolding(sketch::specs::Drawing::uses_of))]
pub fn curve_uses(c: Curve, p: Id) -> bool
    ensures { result ≡ among p (uses_of c.kind c.slots) }
{
    match c.kind {
        CurveKind::Line(a, b) => (p == a) | (p == b),
        CurveKind::Arc(o, a, b) => (p == o) | (p == a) | (p == b),
        CurveKind::Circle(o, _) => p == o,
        CurveKind::Bezier(n) => in_slots(&c.slots, n as usize + 1, p),
        CurveKind::Conic(a, q, b, _) => (p == a) | (p == q) | (p == b),
    }
}

// The point, unless the curve uses it.
fn still_unused(point: Option<Id>, c: Curve) -> Option<Id>
    ensures { option_to_list result ≡ keep (λ p. not (among p (uses_of c.kind c.slots))) (option_to_list point) }
{
    let p = point?;
    if curve_uses(c, p) { None } else { point }
}

impl Orphans {
    pub const NONE: Orphans = Orphans {
        first: None,
        second: None,
        third: None,
    };

    pub fn is_empty(self) -> bool
        ensures { IsTrue result ↔ (orphan_list self ≡ []) }
    {
        self.first.is_none() && self.second.is_none() && self.third.is_none()
    }

    pub fn contains(self, p: Id) -> bool
        ensures { result ≡ among p (orphan_list self) }
    {
        self.first == Some(p) || self.second == Some(p) || self.third == Some(p)
    }

    // Those of the points that the curve c doesn't use.
    pub fn unless_used(self, c: Curve) -> Orphans
        ensures { orphan_list result ≡ keep (λ p. not (among p (uses_of c.kind c.slots))) (orphan_list self) }
    {
        Orphans {
            first: still_unused(self.first, c),
            second: still_unused(self.second, c),
            third: still_unused(self.third, c),
        }
    }
}

// All points of a line, an arc or a circle.
#[tactic(auto, unfolding(crate::specs::Changes::own_points))]
fn own_points(kind: CurveKind) -> Orphans
    ensures { result ≡ own_points kind }
{
    match kind {
        CurveKind::Line(a, b) => Orphans {
            first: Some(a),
            second: Some(b),
            third: None,
        },
        CurveKind::Arc(o, a, b) => Orphans {
            first: Some(o),
            second: Some(a),
            third: Some(b),
        },
        CurveKind::Circle(o, _) => Orphans {
            first: Some(o),
            ..Orphans::NONE
        },
        _ => Orphans::NONE,
    }
}

// The points that may be orphaned: all points of a curve that is removed, the far end of one that loses its first or its last piece.
#[tactic(auto, unfolding(crate::specs::Changes::candidates_for))]
pub fn candidates_of(kind: CurveKind, plan: Plan) -> Orphans
    ensures { result ≡ candidates_for kind plan }
{
    match plan {
        Plan::Whole => own_points(kind),
        Plan::Cut(_, lead) => Orphans {
            first: Some(if lead { start_of(kind) } else { end_of(kind) }),
            ..Orphans::NONE
        },
        _ => Orphans::NONE,
    }
}
