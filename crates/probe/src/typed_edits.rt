// Edits by the call over a sketch by value: one a call, and one many times over for timing.
ghost use Rattle.std.specs.Prelude.{◌≡◌};
ghost use Rattle.refusal.specs.Refusals.{refusal_number};
ghost use Rattle.geom.specs.Plane.{vec};
ghost use Rattle.sketch.specs.Drawing.{view};
ghost use Rattle.sketch.specs.Valid.{sketch_fault};
ghost use Rattle.edit_plan.specs.Outcome.{accepted};
ghost use Rattle.probe.specs.Refusals.{number_or_sum, number_and_place};
ghost use Rattle.probe.specs.Edits.{Wrote, EditMade, edit_adds, repeated, edits_sum};

use crate::edits::{REPORT, put_report};
use crate::refusals::{number_and_place, number_or_sum, with_place};
use geom::Vec2;
use message::Operation;
use modify::Edited;
use refusal::Refusal;
use sketch::{Id, Sketch};

// The report and then the image to the buffer's front; where the buffer is too short, it is left.
fn write_edited(edited: Edited, out: &mut [u8]) -> Result<(), Refusal>
    requires { sketch_fault edited.sketch ≡ 0 }
    ensures { Wrote (accepted (view edited.sketch) edited.removed) out.old out.new (refusal_number result) }
{
    if out.len() < REPORT {
        return Err(Refusal::ShortBuffer);
    }
    sketch_image::write(edited.sketch, &mut out[REPORT..])?;
    put_report(edited.removed, out);
    Ok(())
}

// An edit by its operation's number of the sketch that an image gives.
fn edit_sketch(
    operation: u32,
    bytes: &[u8],
    curve: Id,
    at: Vec2,
    out: &mut [u8],
) -> Result<(), Refusal>
    ensures { EditMade operation bytes.now curve at out.old out.new (number_and_place result) }
{
    let sk = sketch_image::read(bytes)?;
    let operation = Operation::try_from(operation)?;
    let edited = modify::edit(operation, sk, curve, at)?;
    write_edited(edited, out)
}

// Reads an image and makes an edit by its operation's number.
#[unsafe(no_mangle)]
pub extern "C" fn mulkefi_edit_typed(
    operation: u32,
    bytes: &[u8],
    curve: Id,
    x: f64,
    y: f64,
    out: &mut [u8],
) -> u32
    ensures { EditMade operation bytes.now curve (vec x y) out.old out.new result }
{
    number_and_place(edit_sketch(operation, bytes, curve, Vec2 { x, y }, out))
}

// What one edit adds to a sum: a refusal's number with its place, or the next id and the id of the removed curve.
fn edit_adds(operation: Operation, sk: Sketch, curve: Id, at: Vec2) -> u32
    requires { sketch_fault sk ≡ 0 }
    ensures { result ≡ edit_adds operation (view sk) curve at }
{
    match modify::edit(operation, sk, curve, at) {
        Ok(edited) => edited.sketch.next.wrapping_add(edited.removed.curve),
        Err(refusal) => with_place(refusal),
    }
}

fn edits_sum(operation: Operation, sk: Sketch, curve: Id, at: Vec2, times: u32) -> u32
    requires { sketch_fault sk ≡ 0 }
    ensures { result ≡ repeated times (edit_adds operation (view sk) curve at) }
{
    let mut sum = 0u32;
    for i in 0..times {
        sum = sum.wrapping_add(edit_adds(operation, sk, curve, at));
    }
    sum
}

// The sum of so many edits, by an operation's number, of the sketch that an image gives.
fn edits_sum_by_number(
    operation: u32,
    bytes: &[u8],
    curve: Id,
    at: Vec2,
    times: u32,
) -> Result<u32, Refusal>
    ensures { number_or_sum result ≡ edits_sum operation bytes.now curve at times }
{
    let sk = sketch_image::read(bytes)?;
    let operation = Operation::try_from(operation)?;
    Ok(edits_sum(operation, sk, curve, at, times))
}

// Reads an image and makes an edit of its sketch so many times, each on what was read.
#[unsafe(no_mangle)]
pub extern "C" fn mulkefi_edit_typed_repeated(
    operation: u32,
    bytes: &[u8],
    curve: Id,
    x: f64,
    y: f64,
    times: u32,
) -> u32
    ensures { result ≡ edits_sum operation bytes.now curve (vec x y) times }
{
    number_or_sum(edits_sum_by_number(operation, bytes, curve, Vec2 { x, y }, times))
}
