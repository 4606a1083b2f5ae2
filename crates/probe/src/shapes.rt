// Measures of a shape, and the crossings of two. A shape comes as a kind and six numbers.
ghost use Rattle.std.specs.Prelude.{◌≡◌, ◌+◌, ◌<◌, length};
ghost use Rattle.geom.specs.Plane.{vec};
ghost use Rattle.shape.specs.Intersections.{crossings};
ghost use Rattle.shape.specs.Measures as M;
ghost use Rattle.shape.specs.Measures.{is_full};
ghost use Rattle.probe.specs.Shapes.{shape_from_numbers, set_range, set_point, Crossed};

use geom::Vec2;
use shape::{Crossings, Shape};

const LINE: u32 = 0;

const ARC: u32 = 1;

// A line by its ends, an arc by its centre and its ends; with any other kind a circle by its centre and its radius.
fn shape_from_numbers(kind: u32, n: &[f64; 6]) -> Shape
    ensures { result ≡ shape_from_numbers kind n.now }
{
    let p = Vec2::new(n[0], n[1]);
    let q = Vec2::new(n[2], n[3]);
    match kind {
        LINE => Shape::from_line(p, q),
        ARC => Shape::from_arc(p, q, Vec2::new(n[4], n[5])),
        _ => Shape::from_circle(p, n[2]),
    }
}

// A point's coordinates to a place in a buffer and the place behind it.
fn put_point(out: &mut [f64], at: usize, p: Vec2)
    requires { at + 1 < length out.old }
    ensures { out.new ≡ set_point out.old at p }
{
    out[at] = p.x;
    out[at + 1] = p.y;
}

#[unsafe(no_mangle)]
pub extern "C" fn mulkefi_param(kind: u32, n: &[f64; 6], x: f64, y: f64) -> f64
    ensures { result ≡ M.param (shape_from_numbers kind n.now) (vec x y) }
{
    shape_from_numbers(kind, n).param(Vec2::new(x, y))
}

#[unsafe(no_mangle)]
pub extern "C" fn mulkefi_dist(kind: u32, n: &[f64; 6], x: f64, y: f64) -> f64
    ensures { result ≡ M.dist (shape_from_numbers kind n.now) (vec x y) }
{
    shape_from_numbers(kind, n).dist(Vec2::new(x, y))
}

#[unsafe(no_mangle)]
pub extern "C" fn mulkefi_is_full(kind: u32, n: &[f64; 6]) -> bool
    ensures { result ≡ is_full (shape_from_numbers kind n.now) }
{
    shape_from_numbers(kind, n).is_full()
}

#[unsafe(no_mangle)]
pub extern "C" fn mulkefi_range(kind: u32, n: &[f64; 6], out: &mut [f64; 2])
    ensures { out.new ≡ set_range out.old (M.range (shape_from_numbers kind n.now)) }
{
    let r = shape_from_numbers(kind, n).range();
    out[0] = r.start;
    out[1] = r.end;
}

#[unsafe(no_mangle)]
pub extern "C" fn mulkefi_point(kind: u32, n: &[f64; 6], t: f64, out: &mut [f64; 2])
    ensures { out.new ≡ set_point out.old 0 (M.point (shape_from_numbers kind n.now) t) }
{
    put_point(out, 0, shape_from_numbers(kind, n).point(t));
}

#[unsafe(no_mangle)]
pub extern "C" fn mulkefi_project(kind: u32, n: &[f64; 6], x: f64, y: f64, out: &mut [f64; 2])
    ensures { out.new ≡ set_point out.old 0 (M.project (shape_from_numbers kind n.now) (vec x y)) }
{
    put_point(out, 0, shape_from_numbers(kind, n).project(Vec2::new(x, y)));
}

// How many crossings there are, with their coordinates in order at the front of the buffer.
#[unsafe(no_mangle)]
pub extern "C" fn mulkefi_crossings(
    kind: u32,
    n: &[f64; 6],
    other: u32,
    m: &[f64; 6],
    out: &mut [f64; 4],
) -> u32
    ensures { Crossed (crossings (shape_from_numbers kind n.now) (shape_from_numbers other m.now)) out.old out.new result }
{
    match shape::intersections(shape_from_numbers(kind, n), shape_from_numbers(other, m)) {
        Crossings::Zero => 0,
        Crossings::One(p) => {
            put_point(out, 0, p);
            1
        }
        Crossings::Two(p, q) => {
            put_point(out, 0, p);
            put_point(out, 2, q);
            2
        }
    }
}
