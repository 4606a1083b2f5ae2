// Which relations of a sketch are met.
ghost use Rattle.probe.specs.Relations.{UnmetAnswer, RelationsTested, verdict_of};

use crate::read_altered;
use image::MAX_IMAGE_SIZE;
use refusal::Refusal;
use relations::image_search::first_unmet;
use rows::Tables;
use sketch::{Id, Sketch};
use sketch_image::image_size;

// Looks for the first relation of a sketch that is not met, in its image. A sketch that no image gives is refused.
fn unmet(sk: Sketch) -> Result<Option<usize>, Refusal>
    ensures { UnmetAnswer sk (verdict_of result) }
{
    let mut image = [0u8; MAX_IMAGE_SIZE];
    sketch_image::write(sk, &mut image)?;
    let size = image_size(sk.npoints, sk.ncurves, sk.nrelations);
    let near = [0u16; 1024];
    Ok(first_unmet(&Tables::new(&image[..size], &near)))
}

// Reads an image and looks, in its sketch with another next id and other counts, for the first relation that is not met: 0 where all are,
// and else its place plus 256; or the number by which the image or the sketch is refused.
#[unsafe(no_mangle)]
pub extern "C" fn mulkefi_relations_test(
    bytes: &[u8],
    next: Id,
    points: u32,
    curves: u32,
    relations: u32,
) -> u32
    ensures { RelationsTested bytes.now next points curves relations result }
{
    let sk = match read_altered(bytes, next, points, curves, relations) {
        Ok(sk) => sk,
        Err(refusal) => return u32::from(refusal.number()),
    };
    match unmet(sk) {
        Ok(None) => 0,
        Ok(Some(place)) => 256 + place as u32,
        Err(refusal) => u32::from(refusal.number()),
    }
}
