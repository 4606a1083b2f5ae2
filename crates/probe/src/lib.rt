// Entry points in C's convention, through which the comparison and the benchmarks reach the engine.
#![tactic(auto)]

mod catching_up;
mod edits;
mod numbers;
mod polynomials;
mod refusals;
mod replicas;
mod shapes;
mod typed_edits;
mod verdicts;

ghost use Rattle.std.specs.Prelude.{◌≡◌, ◌+◌, ◌*◌};
ghost use Rattle.image.specs.Image as I;
ghost use Rattle.message.specs.Message as M;
ghost use Rattle.refusal.specs.Refusals.{refusal_number};
ghost use Rattle.probe.specs.Probe.{ImageCopied, MessageCopied, AlteredRead, SketchTested};

use message::Mark;
use refusal::Refusal;
use refusals::number_of;
use sketch::{Id, Sketch};

// The image's version, times 256, and the message's.
#[unsafe(no_mangle)]
pub extern "C" fn mulkefi_versions() -> u32
    ensures { result ≡ I.version * 256 + M.version }
{
    u32::from(image::IMAGE_VERSION) * 256 + u32::from(message::MESSAGE_VERSION)
}

// The number that an image is refused by, or 0.
#[unsafe(no_mangle)]
pub extern "C" fn mulkefi_image_test(bytes: &[u8]) -> u32
    ensures { result ≡ I.image_fault bytes.now }
{
    match sketch_image::read(bytes) {
        Ok(_) => 0,
        Err(refusal) => u32::from(refusal.number()),
    }
}

fn copy_image(bytes: &[u8], out: &mut [u8]) -> Result<(), Refusal>
    ensures { ImageCopied bytes.now out.old out.new (refusal_number result) }
{
    // The sketch is taken out by `match`: `?` would make one copy more.
    match sketch_image::read(bytes) {
        Ok(sk) => sketch_image::write(sk, out),
        Err(refusal) => Err(refusal),
    }
}

// Reads an image and writes it again.
#[unsafe(no_mangle)]
pub extern "C" fn mulkefi_image_copy(bytes: &[u8], out: &mut [u8]) -> u32
    ensures { ImageCopied bytes.now out.old out.new result }
{
    number_of(copy_image(bytes, out))
}

fn copy_message(bytes: &[u8], mark: Mark, out: &mut [u8]) -> Result<(), Refusal>
    ensures { MessageCopied mark bytes.now out.old out.new (refusal_number result) }
{
    message::write_message(message::read_message(bytes, mark)?, mark, out)
}

// Reads a message at a mark and writes it again.
#[unsafe(no_mangle)]
pub extern "C" fn mulkefi_message_copy(bytes: &[u8], mark: Mark, out: &mut [u8]) -> u32
    ensures { MessageCopied mark bytes.now out.old out.new result }
{
    number_of(copy_message(bytes, mark, out))
}

// The sketch that an image gives, with another next id and other counts.
fn read_altered(
    bytes: &[u8],
    next: Id,
    points: u32,
    curves: u32,
    relations: u32,
) -> Result<Sketch, Refusal>
    ensures { AlteredRead bytes.now next points curves relations result }
{
    let mut sk = sketch_image::read(bytes)?;
    sk.next = next;
    sk.npoints = points as usize;
    sk.ncurves = curves as usize;
    sk.nrelations = relations as usize;
    Ok(sk)
}

// Reads an image and tests its sketch with another next id and other counts.
#[unsafe(no_mangle)]
pub extern "C" fn mulkefi_sketch_test(
    bytes: &[u8],
    next: Id,
    points: u32,
    curves: u32,
    relations: u32,
) -> u32
    ensures { SketchTested bytes.now next points curves relations result }
{
    match read_altered(bytes, next, points, curves, relations) {
        Ok(sk) => number_of(sketch::sketch_fault(&sk)),
        Err(refusal) => u32::from(refusal.number()),
    }
}
