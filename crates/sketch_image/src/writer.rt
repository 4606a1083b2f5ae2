// The writer of images.
ghost use Rattle.std.specs.Prelude.{◌≡◌, map, ◌+◌, ◌*◌, ◌≤◌, length};
ghost use Rattle.big_endian.specs.Fields.{over};
ghost use Rattle.refusal.specs.Refusals.{refusal_number};
ghost use Rattle.sketch.specs.Lists.{concat_map};
ghost use Rattle.image.specs.Encode.{encode_point, encode_curve, encode_relation};
ghost use Rattle.image.specs.Stored.{Each};
ghost use Rattle.image.specs.Records.{curve_size, point_size, relation_size};
ghost use Rattle.sketch_image.specs.SketchImage.{ImageWritten};

use crate::size::image_size;
use image::layout::{CURVE_SIZE, HEADER_SIZE, POINT_SIZE, RELATION_SIZE};
use image::{write_curve, write_header, write_point, write_relation};
use refusal::Refusal;
use sketch::{Curve, Point, RelationSlot, Sketch};

fn write_points(buf: &mut [u8], from: usize, points: &[Point])
    requires { from + length points.now * point_size ≤ length buf.old }
    ensures { buf.new ≡ over buf.old from (concat_map encode_point points.now) }
{
    for (i, p) in points.iter().enumerate() {
        write_point(buf, from + i * POINT_SIZE, *p);
    }
}

fn write_curves(buf: &mut [u8], from: usize, curves: &[Curve])
    requires { (from + length curves.now * curve_size ≤ length buf.old) × Each (λ c. length c.slots ≡ 8) curves.now }
    ensures { buf.new ≡ over buf.old from (concat_map encode_curve curves.now) }
{
    for (i, c) in curves.iter().enumerate() {
        write_curve(buf, from + i * CURVE_SIZE, *c);
    }
}

fn write_relations(buf: &mut [u8], from: usize, relations: &[RelationSlot])
    requires { from + length relations.now * relation_size ≤ length buf.old }
    ensures { buf.new ≡ over buf.old from (concat_map encode_relation (map (λ s. s.relation) relations.now)) }
{
    for (i, slot) in relations.iter().enumerate() {
        write_relation(buf, from + i * RELATION_SIZE, slot.relation);
    }
}

// Writes a sketch's image to the buffer's front. A sketch that no image gives is refused as its image would be, then a buffer
// that is too short, and the buffer is left.
pub fn write(sk: Sketch, buf: &mut [u8]) -> Result<(), Refusal>
    ensures { ImageWritten sk buf.old buf.new (refusal_number result) }
{
    sketch::sketch_fault(&sk)?;
    let np = sk.npoints;
    let nc = sk.ncurves;
    let nr = sk.nrelations;
    if buf.len() < image_size(np, nc, nr) {
        return Err(Refusal::ShortBuffer);
    }
    let points = &sk.points[..np];
    let curves = &sk.curves[..nc];
    let relations = &sk.relations[..nr];
    let curves_at = HEADER_SIZE + np * POINT_SIZE;
    let relations_at = curves_at + nc * CURVE_SIZE;
    write_header(buf, sk.next, np, nc, nr);
    write_points(buf, HEADER_SIZE, points);
    write_curves(buf, curves_at, curves);
    write_relations(buf, relations_at, relations);
    Ok(())
}
