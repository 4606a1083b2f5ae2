// Edits of an image: one a call, and one many times over for timing.
ghost use Rattle.std.specs.Prelude.{◌≡◌};
ghost use Rattle.refusal.specs.Refusals.{refusal_number};
ghost use Rattle.geom.specs.Plane.{vec};
ghost use Rattle.image.specs.Image.{image_fault};
ghost use Rattle.probe.specs.Refusals.{number_or_sum, number_and_place};
ghost use Rattle.probe.specs.Edits.{EditMade, edits_sum};
ghost use Rattle.probe.specs.EditContracts.{ReportPut, EditAdds, EditsSum};

use crate::refusals::{number_and_place, number_or_sum, with_place};
use big_endian::put4;
use edit_plan::Removed;
use geom::Vec2;
use message::Operation;
use refusal::Refusal;
use sketch::Id;

// A report's size in bytes.
pub const REPORT: usize = 12;

// The report to the front of a buffer that has room for it.
pub fn put_report(removed: Removed, out: &mut [u8])
    ensures { ReportPut removed out.old out.new }
{
    put4(out, 0, u64::from(removed.curve));
    put4(out, 4, u64::from(removed.from));
    put4(out, 8, u64::from(removed.to));
}

// What an image is refused by.
pub fn test_image(bytes: &[u8]) -> Result<(), Refusal>
    ensures { refusal_number result ≡ image_fault bytes.now }
{
    let mut near = [0u16; 1024];
    rows::image_fault(bytes, &mut near)
}

// An edit of an image by its operation's number: the report, and the image behind it. A buffer that is too short for the report is lent from its end on.
fn edit_image(
    operation: u32,
    bytes: &[u8],
    curve: Id,
    at: Vec2,
    out: &mut [u8],
) -> Result<(), Refusal>
    ensures { EditMade operation bytes.now curve at out.old out.new (number_and_place result) }
{
    let operation = match Operation::try_from(operation) {
        Ok(operation) => operation,
        Err(unknown) => {
            test_image(bytes)?;
            return Err(unknown);
        }
    };
    let start = out.len().min(REPORT);
    let edited = modify::edit_image(operation, bytes, curve, at, &mut out[start..])?;
    put_report(edited.removed, out);
    Ok(())
}

// An edit of an image by its operation's number.
#[unsafe(no_mangle)]
pub extern "C" fn mulkefi_edit(
    operation: u32,
    bytes: &[u8],
    curve: Id,
    x: f64,
    y: f64,
    out: &mut [u8],
) -> u32
    ensures { EditMade operation bytes.now curve (vec x y) out.old out.new result }
{
    number_and_place(edit_image(operation, bytes, curve, Vec2 { x, y }, out))
}

// What one edit adds to a sum: a refusal's number with its place, or the next id and the id of the removed curve.
fn edit_adds(operation: Operation, bytes: &[u8], curve: Id, at: Vec2, out: &mut [u8]) -> u32
    ensures { EditAdds operation bytes.now curve at out.old result }
{
    match modify::edit_image(operation, bytes, curve, at, out) {
        Ok(edited) => rows::next_id(&out[..]).wrapping_add(edited.removed.curve),
        Err(refusal) => with_place(refusal),
    }
}

fn edits_sum(operation: Operation, bytes: &[u8], curve: Id, at: Vec2, times: u32) -> u32
    ensures { EditsSum operation bytes.now curve at times result }
{
    let mut out = [0u8; image::MAX_IMAGE_SIZE];
    let mut sum = 0u32;
    for i in 0..times {
        sum = sum.wrapping_add(edit_adds(operation, bytes, curve, at, &mut out));
    }
    sum
}

// The sum of so many edits of an image by an operation's number.
fn edits_sum_by_number(
    operation: u32,
    bytes: &[u8],
    curve: Id,
    at: Vec2,
    times: u32,
) -> Result<u32, Refusal>
    ensures { number_or_sum result ≡ edits_sum operation bytes.now curve at times }
{
    test_image(bytes)?;
    let operation = Operation::try_from(operation)?;
    Ok(edits_sum(operation, bytes, curve, at, times))
}

// Makes an edit of an image so many times, each of the same bytes.
#[unsafe(no_mangle)]
pub extern "C" fn mulkefi_edit_repeated(
    operation: u32,
    bytes: &[u8],
    curve: Id,
    x: f64,
    y: f64,
    times: u32,
) -> u32
    ensures { result ≡ edits_sum operation bytes.now curve (vec x y) times }
{
    number_or_sum(edits_sum_by_number(operation, bytes, curve, Vec2 { x, y }, times))
}
