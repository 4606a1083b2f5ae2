// A sketch written and read again.
ghost use Rattle.sketch_image.specs.SketchImage.{read_of};
ghost use Rattle.sketch_image.specs.RoundTrip.{ReadBack};

use crate::reader::read;
use crate::size::image_size;
use crate::writer::write;
use refusal::Refusal;
use sketch::Sketch;

// Writes a sketch's image to the buffer's front and reads it again: the same sketch. Where the sketch can't be written, the
// answer is the writer's refusal, and the buffer is left.
pub fn write_and_read(sk: Sketch, buf: &mut [u8]) -> Result<Sketch, Refusal>
    ensures { ReadBack sk buf.old buf.new (read_of result) }
{
    write(sk, buf)?;
    let size = image_size(sk.npoints, sk.ncurves, sk.nrelations);
    read(&buf[..size])
}
