// Where the points of an image lie, and the shapes of its curves, straight from its records.
ghost use Rattle.std.specs.Prelude.{◌≡◌};
ghost use Rattle.geom.specs.Plane.{vec};
ghost use Rattle.image.specs.Decode.{read_point};
ghost use Rattle.sketch_geometry.specs.Geometry.{nowhere};
ghost use Rattle.sketch_geometry.specs.Positions.{PositionIn, PositionAfter, ShapeFrom};

use crate::Moved;
use geom::Vec2;
use image::{POINT_SIZE, read_x, read_y};
use rows::point_record_of;
use shape::Shape;
use sketch::{CurveKind, Id};

// No place: what is measured from it is a NaN.
fn nowhere() -> Vec2
    ensures { result ≡ nowhere }
{
    Vec2::new(0.0 / 0.0, 0.0 / 0.0)
}

// Where the point of a record lies.
fn coordinates(r: &[u8]) -> Vec2
    ensures { result ≡ vec (read_point r.now).x (read_point r.now).y }
{
    Vec2::new(read_x(r), read_y(r))
}

// The point with an id; `near` guesses its place.
pub fn position_of<'a>(id: Id, points: &'a [u8], near: &'a [u16]) -> Vec2
    ensures { PositionIn points.now id result }
{
    let r = point_record_of(points, near, id);
    if r.len() < POINT_SIZE {
        return nowhere();
    }
    coordinates(r)
}

// The point with an id, once a point may have moved.
pub fn position_after<'a>(id: Id, points: &'a [u8], near: &'a [u16], moved: Option<Moved>) -> Vec2
    ensures { PositionAfter points.now moved id result }
{
    match moved {
        Some(m) if m.point == id => {
            if point_record_of(points, near, id).len() < POINT_SIZE {
                return nowhere();
            }
            m.to
        }
        _ => position_of(id, points, near),
    }
}

// The shape of a curve by its kind; a freeform curve has none.
pub fn shape_of<'a>(kind: CurveKind, points: &'a [u8], near: &'a [u16]) -> Option<Shape>
    ensures { ShapeFrom points.now kind result }
{
    match kind {
        CurveKind::Line(a, b) => {
            let p = position_of(a, points, near);
            let q = position_of(b, points, near);
            Some(Shape::from_line(p, q))
        }
        CurveKind::Arc(c, a, b) => {
            let o = position_of(c, points, near);
            let p = position_of(a, points, near);
            let q = position_of(b, points, near);
            Some(Shape::from_arc(o, p, q))
        }
        CurveKind::Circle(c, r) => {
            let o = position_of(c, points, near);
            Some(Shape::from_circle(o, r))
        }
        _ => None,
    }
}
