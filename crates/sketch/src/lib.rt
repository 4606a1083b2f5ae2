// A sketch: points, curves on them and relations between both, in tables of bounded size.
#![tactic(auto)]

mod lookup;
mod validity;
mod values;

pub use lookup::{has, note, place, place_near, sort_at};
pub use validity::{fault, sketch_fault};
pub use values::{coordinate_ok, measure_ok, radius_ok, rho_ok};

// Ids of points and curves.
pub type Id = u32;

// Its size in bytes, in images and messages.
pub const ID_SIZE: usize = 4;

// The largest next id: ids are below it.
pub const MAX_NEXT_ID: Id = 4294967295;

// Fields stand in an order that leaves no padding: a struct is laid out as it is written.
#[derive(Clone, Copy)]
pub struct Point {
    pub id: Id,
    pub fixed: bool,
    pub x: f64,
    pub y: f64,
}

// A curve's points by id: a line's ends; an arc's centre, start and end; a circle's centre, and its radius; a
// Bézier curve's degree, its points being in the slots beside it; a conic's start, apex and end, and its rho.
#[derive(Clone, Copy)]
pub enum CurveKind {
    Line(Id, Id),
    Arc(Id, Id, Id),
    Circle(Id, f64),
    Bezier(u8),
    Conic(Id, Id, Id, f64),
}

// The sorts of curves that relations tell apart.
#[derive(Clone, Copy, PartialEq, Eq)]
pub enum Sort {
    Line,
    // An arc or a circle.
    Round,
    Freeform,
}

#[derive(Clone, Copy)]
pub struct Curve {
    pub id: Id,
    pub construction: bool,
    pub centerline: bool,
    pub infinite: bool,
    pub kind: CurveKind,
    pub slots: [Id; 8],
}

#[derive(Clone, Copy)]
pub enum Relation {
    Coincident(Id, Id),
    PointOnCurve(Id, Id),
    Collinear(Id, Id),
    Equal(Id, Id),
    Length(Id, f64),
    Distance(Id, Id, f64),
    Midpoint(Id, Id),
    ArcLength(Id, f64),
    ArcSweep(Id, f64),
}

// An array of enums can't be a field; one of structs that hold them can.
#[derive(Clone, Copy)]
pub struct RelationSlot {
    pub relation: Relation,
}

// What lies past a count is no part of the sketch.
#[derive(Clone, Copy)]
pub struct Sketch {
    pub next: Id,
    pub npoints: usize,
    pub ncurves: usize,
    pub nrelations: usize,
    pub points: [Point; 512],
    pub curves: [Curve; 128],
    pub relations: [RelationSlot; 256],
}
