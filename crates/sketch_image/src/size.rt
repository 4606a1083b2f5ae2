// The size of an image, by the counts of what it holds.
ghost use Rattle.std.specs.Prelude.{◌≡◌, ◌&&◌, leb};
ghost use Rattle.sketch.specs.Lists.{ite};
ghost use Rattle.sketch.specs.Drawing.{limits};
ghost use Rattle.image.specs.Image.{size_of};

use image::layout::{CURVE_SIZE, HEADER_SIZE, POINT_SIZE, RELATION_SIZE};

// The bytes of an image of so many points, curves and relations; 0 where one of these is over its limit.
pub fn image_size(np: usize, nc: usize, nr: usize) -> usize
    ensures { result ≡ ite (leb np limits.points && leb nc limits.curves && leb nr limits.relations) (size_of np nc nr) 0 }
{
    if 512 < np || 128 < nc || 256 < nr {
        return 0;
    }
    HEADER_SIZE + np * POINT_SIZE + nc * CURVE_SIZE + nr * RELATION_SIZE
}
