// Trim, split and extend of an image, from its records to a lent buffer.
ghost use Rattle.std.specs.Prelude.{◌≤◌};
ghost use Rattle.refusal.specs.Refusals.{Accepted};
ghost use Rattle.extend.specs.Answers.{answer_of};
ghost use Rattle.modify.specs.ImageEdits.{EditWritten};
ghost use Rattle.modify.specs.ImageContracts.{AppliesPlanned, EditsAt};

use apply::{Applied, apply_plan};
use edit_plan::Plan;
use extend::extend_image;
use geom::Vec2;
use message::Operation;
use planning::image_plans::{plan_split, plan_trim};
use refusal::Refusal;
use rows::{Tables, curve_count, curve_place, curves_of, image_fault, point_count, points_of};
use sketch::{Id, coordinate_ok};

// A plan for the curve at a place applied.
fn apply_to_image(t: &Tables, place: usize, plan: Plan, out: &mut [u8]) -> Result<Applied, Refusal>
    ensures { AppliesPlanned t.now.image.now place (Accepted plan) out.old out.new (answer_of result) }
{
    apply_plan(t, place, plan, out)
}

// An edit of the curve at a place.
fn edit_at(
    operation: Operation,
    t: &Tables,
    place: usize,
    at: Vec2,
    out: &mut [u8],
) -> Result<Applied, Refusal>
    ensures { EditsAt operation t.now.image.now place at out.old out.new (answer_of result) }
{
    match operation {
        Operation::Trim => {
            let plan = plan_trim(t, place, at)?;
            apply_to_image(t, place, plan, out)
        }
        Operation::Split => {
            let plan = plan_split(t, place, at)?;
            apply_to_image(t, place, plan, out)
        }
        Operation::Extend => extend_image(t, place, at, out),
    }
}

// The tests that all edits begin with, and the edit. `near` is for guesses of where ids stand.
fn edit_with<'b>(
    operation: Operation,
    image: &[u8],
    curve: Id,
    at: Vec2,
    near: &'b mut [u16],
    out: &'b mut [u8],
) -> Result<Applied, Refusal>
    ensures { EditWritten operation image.now curve at out.old out.new (answer_of result) }
{
    image_fault(image, near)?;
    if !(coordinate_ok(at.x) && coordinate_ok(at.y)) {
        return Err(Refusal::BadPick);
    }
    let tables = Tables::new(image, &near[..]);
    let Some(place) = curve_place(tables.curves, tables.near, curve) else {
        return Err(Refusal::NoCurve);
    };
    edit_at(operation, &tables, place, at, out)
}

// An edit with room for so many guesses.
fn edit_by_guesses<const GUESSES: usize>(
    operation: Operation,
    image: &[u8],
    curve: Id,
    at: Vec2,
    out: &mut [u8],
) -> Result<Applied, Refusal>
    requires { GUESSES ≤ 1024 }
    ensures { EditWritten operation image.now curve at out.old out.new (answer_of result) }
{
    let mut near = [0u16; GUESSES];
    edit_with(operation, image, curve, at, &mut near, out)
}

// One edit of an image's curve, picked at a point. Accepted, the new image stands at the front of `out`; refused, `out` is left.
pub fn edit_image(
    operation: Operation,
    image: &[u8],
    curve: Id,
    at: Vec2,
    out: &mut [u8],
) -> Result<Applied, Refusal>
    ensures { EditWritten operation image.now curve at out.old out.new (answer_of result) }
{
    // Of a small drawing most ids are low: few guesses do, which cost less to make room for.
    if point_count(points_of(image)) <= 64 && curve_count(curves_of(image)) <= 32 {
        return edit_by_guesses::<128>(operation, image, curve, at, out);
    }
    edit_by_guesses::<1024>(operation, image, curve, at, out)
}
