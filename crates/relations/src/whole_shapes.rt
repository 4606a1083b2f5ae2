// What relations measure of a curve, straight from an image's records, once a point may have moved.
ghost use Rattle.relations.specs.ImageContracts.{WholeOfKind, WholeIn};

use image::{CURVE_SIZE, read_kind};
use rows::{Tables, curve_record_of};
use shape::Shape;
use sketch::{CurveKind, Id};
use sketch_geometry::Moved;
use sketch_geometry::positions::position_after;

// A curve's shape by its kind, an arc as its whole circle; a freeform curve has none.
fn whole_of_kind(kind: CurveKind, t: &Tables, moved: Option<Moved>) -> Option<Shape>
    ensures { WholeOfKind t.now.points.now moved kind result }
{
    match kind {
        CurveKind::Line(a, b) => {
            let p = position_after(a, t.points, t.near, moved);
            let q = position_after(b, t.points, t.near, moved);
            Some(Shape::from_line(p, q))
        }
        CurveKind::Arc(c, a, _) => {
            let o = position_after(c, t.points, t.near, moved);
            let p = position_after(a, t.points, t.near, moved);
            Some(Shape::from_circle(o, p.dist(o)))
        }
        CurveKind::Circle(c, r) => {
            let o = position_after(c, t.points, t.near, moved);
            Some(Shape::from_circle(o, r))
        }
        _ => None,
    }
}

// The same of the curve with an id, if there is one.
pub(crate) fn whole_shape(id: Id, t: &Tables, moved: Option<Moved>) -> Option<Shape>
    ensures { WholeIn t.now.points.now t.now.curves.now moved id result }
{
    let r = curve_record_of(t.curves, t.near, id);
    if r.len() < CURVE_SIZE {
        return None;
    }
    whole_of_kind(read_kind(r), t, moved)
}
