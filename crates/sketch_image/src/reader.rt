// The reader of images: the test of the bytes, then the tables that good bytes encode.
ghost use Rattle.std.specs.Prelude.{◌≡◌, map, ◌≤◌, length, take};
ghost use Rattle.sketch.specs.Drawing.{view};
ghost use Rattle.sketch.specs.Valid.{sketch_fault};
ghost use Rattle.image.specs.Image.{drawing_of, image_fault};
ghost use Rattle.rows.specs.Rows.{points_in, curves_in, relations_in};
ghost use Rattle.sketch_image.specs.SketchImage.{read_of, ReadAnswer};

use refusal::Refusal;
use rows::{
    curve_at, curve_count, curves_of, image_fault, next_id, point_at, point_count, points_of,
    relation_at, relation_count, relations_of,
};
use sketch::{Curve, CurveKind, Point, Relation, RelationSlot, Sketch};

// What a table holds past its count.
const NO_POINT: Point = Point {
    id: 0,
    fixed: false,
    x: 0.0,
    y: 0.0,
};

const NO_CURVE: Curve = Curve {
    id: 0,
    construction: false,
    centerline: false,
    infinite: false,
    kind: CurveKind::Line(0, 0),
    slots: [0; 8],
};

const NO_RELATION: RelationSlot = RelationSlot {
    relation: Relation::Coincident(0, 0),
};

fn read_points(points: &[u8], n: usize) -> [Point; 512]
    requires { (n ≤ 512) × (n ≡ length (points_in points.now)) }
    ensures { take n result ≡ points_in points.now }
{
    let mut slots = [NO_POINT; 512];
    for i in 0..n {
        slots[i] = point_at(points, i);
    }
    slots
}

fn read_curves(curves: &[u8], n: usize) -> [Curve; 128]
    requires { (n ≤ 128) × (n ≡ length (curves_in curves.now)) }
    ensures { take n result ≡ curves_in curves.now }
{
    let mut slots = [NO_CURVE; 128];
    for i in 0..n {
        slots[i] = curve_at(curves, i);
    }
    slots
}

fn read_relations(relations: &[u8], n: usize) -> [RelationSlot; 256]
    requires { (n ≤ 256) × (n ≡ length (relations_in relations.now)) }
    ensures { map (λ t. t.relation) (take n result) ≡ relations_in relations.now }
{
    let mut slots = [NO_RELATION; 256];
    for i in 0..n {
        slots[i] = RelationSlot {
            relation: relation_at(relations, i),
        };
    }
    slots
}

// The sketch that a good image encodes. It is made out of line: in one function with the test, its tables are made for a refusal too.
#[inline(never)]
fn decode_sketch(s: &[u8]) -> Sketch
    requires { image_fault s.now ≡ 0 }
    ensures { (view result ≡ drawing_of s.now) × (sketch_fault result ≡ 0) }
{
    let point_rows = points_of(s);
    let curve_rows = curves_of(s);
    let relation_rows = relations_of(s);
    let npoints = point_count(point_rows);
    let ncurves = curve_count(curve_rows);
    let nrelations = relation_count(relation_rows);
    let points = read_points(point_rows, npoints);
    let curves = read_curves(curve_rows, ncurves);
    let relations = read_relations(relation_rows, nrelations);
    Sketch {
        next: next_id(s),
        npoints,
        ncurves,
        nrelations,
        points,
        curves,
        relations,
    }
}

// Reads an image: its sketch, or the first rule that it breaks. The bytes are tested first, and tables made of good ones only:
// a refusal costs no table, and no table is copied to be tested.
pub fn read(s: &[u8]) -> Result<Sketch, Refusal>
    ensures { ReadAnswer s.now (read_of result) }
{
    let mut near = [0u16; 1024];
    image_fault(s, &mut near)?;
    Ok(decode_sketch(s))
}
