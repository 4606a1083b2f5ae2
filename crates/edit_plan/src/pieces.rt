// Pieces of curves, and what comes with them: new points, new curves, pins and ties.
ghost use Rattle.std.specs.Prelude.{◌≡◌};
ghost use Rattle.edit_plan.specs.Changes as O;
ghost use Rattle.edit_plan.specs.Changes.{is_circle, start_of, end_of, piece_of, kept_piece, gone_as, pin_relation};
ghost use Rattle.edit_plan.specs.Steps.{is_line, tie_relation};
ghost use Rattle.edit_plan.specs.Tables.{new_point, new_curve};

use crate::{Pin, Removed};
use geom::Vec2;
use sketch::{Curve, CurveKind, Id, Point, Relation};

#[tactic(auto, unfolding(crate::specs::Changes::is_circle))]
pub(crate) fn is_circle(kind: CurveKind) -> bool
    ensures { result ≡ is_circle kind }
{
    matches!(kind, CurveKind::Circle(_, _))
}

// The start of a line or an arc, 0 for other curves.
#[tactic(auto, unfolding(crate::specs::Changes::start_of))]
pub(crate) fn start_of(kind: CurveKind) -> Id
    ensures { result ≡ start_of kind }
{
    match kind {
        CurveKind::Line(a, _) | CurveKind::Arc(_, a, _) => a,
        _ => 0,
    }
}

// The end of a line or an arc, 0 for other curves.
#[tactic(auto, unfolding(crate::specs::Changes::end_of))]
pub(crate) fn end_of(kind: CurveKind) -> Id
    ensures { result ≡ end_of kind }
{
    match kind {
        CurveKind::Line(_, b) | CurveKind::Arc(_, _, b) => b,
        _ => 0,
    }
}

// The piece of a curve from point to point.
#[tactic(auto, unfolding(crate::specs::Changes::piece_of))]
pub(crate) fn piece(kind: CurveKind, from: Id, to: Id) -> CurveKind
    ensures { result ≡ piece_of kind from to }
{
    match kind {
        CurveKind::Line(_, _) => CurveKind::Line(from, to),
        CurveKind::Arc(c, _, _) | CurveKind::Circle(c, _) => CurveKind::Arc(c, from, to),
        _ => kind,
    }
}

// Of the pieces from a to m and from m to b, the one that stays.
pub(crate) fn kept_piece(kind: CurveKind, lead: bool, a: Id, m: Id, b: Id) -> CurveKind
    ensures { result ≡ kept_piece kind lead a m b }
{
    if lead {
        piece(kind, m, b)
    } else {
        piece(kind, a, m)
    }
}

// The other one, under the id g.
pub(crate) fn gone_piece(g: Id, lead: bool, a: Id, m: Id, b: Id) -> Removed
    ensures { result ≡ gone_as g lead a m b }
{
    if lead {
        Removed {
            curve: g,
            from: a,
            to: m,
        }
    } else {
        Removed {
            curve: g,
            from: m,
            to: b,
        }
    }
}

// The relation that a pin adds for a point.
#[tactic(auto, unfolding(crate::specs::Changes::pin_relation))]
pub fn pin_relation(pin: Pin, p: Id) -> Relation
    ensures { result ≡ pin_relation pin p }
{
    match pin {
        Pin::On(c) => Relation::PointOnCurve(p, c),
        Pin::At(e) => Relation::Coincident(p, e),
    }
}

pub(crate) fn tie_relation(kind: CurveKind, a: Id, b: Id) -> Relation
    ensures { result ≡ tie_relation (is_line kind) a b }
{
    match kind {
        CurveKind::Line(_, _) => Relation::Collinear(a, b),
        _ => Relation::Equal(a, b),
    }
}

pub(crate) fn new_point(id: Id, v: Vec2) -> Point
    ensures { result ≡ new_point id v }
{
    Point {
        id,
        fixed: false,
        x: v.x,
        y: v.y,
    }
}

pub(crate) fn new_curve(id: Id, kind: CurveKind, construction: bool) -> Curve
    ensures { result ≡ new_curve id kind construction }
{
    Curve {
        id,
        construction,
        centerline: false,
        infinite: false,
        kind,
        slots: [0; 8],
    }
}

// The curve with another kind; its id and its flags stay.
pub(crate) fn recut(c: Curve, kind: CurveKind) -> Curve
    ensures { result ≡ O.recut c kind }
{
    Curve { kind, ..c }
}
