// A plan is what an edit decided to do with a curve, and what it changes: from the curve, the plan and numbers alone.
#![tactic(auto)]

mod changes;
mod extents;
mod pieces;
mod removal;
mod room;
mod unused_points;

pub use changes::plan_change;
pub use extents::extent_of;
use geom::Vec2;
pub use pieces::pin_relation;
pub use removal::left_of;
pub use room::room_for;
use sketch::{Curve, Id, Point, Relation};
pub use unused_points::{candidates_of, curve_uses};

// The constraint on a new end: on the curve that cut there, or at an end of it, which is a point.
#[derive(Clone, Copy)]
pub enum Pin {
    On(Id),
    At(Id),
}

// A point where a curve is cut, and the new end's pin.
#[derive(Clone, Copy)]
pub struct PinnedPoint {
    pub at: Vec2,
    pub pin: Pin,
}

// What an edit does to a curve.
// Whole: it is removed. Cut: it is cut, and the first (true) or the second of two pieces is removed. CutTwo: it is cut twice,
// and a piece is removed: of a circle the first (true) or the second, else the middle one. Divide, DivideTwo: it is cut, and
// every piece stays. Move: its start or (true) its end moves.
#[derive(Clone, Copy)]
pub enum Plan {
    Whole,
    Cut(PinnedPoint, bool),
    CutTwo(PinnedPoint, PinnedPoint, bool),
    Divide(Vec2),
    DivideTwo(Vec2, Vec2),
    Move(bool, Vec2, Pin),
}

// The removed curve's id with its two ends; zeros for ends that it has not, and three zeros where nothing is removed.
#[derive(Clone, Copy)]
pub struct Removed {
    pub curve: Id,
    pub from: Id,
    pub to: Id,
}

impl Removed {
    pub const NOTHING: Removed = Removed {
        curve: 0,
        from: 0,
        to: 0,
    };
}

// The curve that is cut, or removed whole (`whole`), with the ends of a line (`line`) or an arc; zeros where there are none.
#[derive(Clone, Copy)]
pub struct Extent {
    pub id: Id,
    pub line: bool,
    pub whole: bool,
    pub from: Id,
    pub to: Id,
}

// Up to three points that are removed with a curve, or with a piece of it.
#[derive(Clone, Copy)]
pub struct Orphans {
    pub first: Option<Id>,
    pub second: Option<Id>,
    pub third: Option<Id>,
}

// What a cut or a division adds: a point, a curve and a relation, and how many more of each. Where no second point is
// added, its place is that of the first. These are no options, so that the tests of room stand one after another: what
// is not added passes the test that the first passed.
#[derive(Clone, Copy)]
struct Additions {
    first: Vec2,
    second: Vec2,
    points: Id,
    curves: Id,
    relations: usize,
}

// A curve in two: the new points, the way through the last of them, the id of its second half and the next id then.
#[derive(Clone, Copy)]
struct Halves {
    point: Point,
    second_point: Option<Point>,
    from: Id,
    at: Id,
    to: Id,
    half: Id,
    next: Id,
}

// What a cut or a division writes: one point or two, the curve that stays, a new piece or none, and up to three relations.
#[derive(Clone, Copy)]
pub struct Change {
    pub next: Id,
    pub point: Point,
    pub second_point: Option<Point>,
    pub kept: Curve,
    pub added: Option<Curve>,
    pub relation: Relation,
    pub second_relation: Option<Relation>,
    pub third_relation: Option<Relation>,
    pub removed: Removed,
}
