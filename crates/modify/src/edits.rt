// Trim, split and extend of a sketch by value: its image is written, edited, and read again.
ghost use Rattle.message.specs.declared.Operation.TheVariants as Operation;
ghost use Rattle.modify.specs.Answers.{edited_of};
ghost use Rattle.modify.specs.Edits.{EditAnswer};

use crate::Edited;
use crate::image_edits::edit_image;
use geom::Vec2;
use image::MAX_IMAGE_SIZE;
use message::Operation;
use refusal::Refusal;
use sketch::{Id, Sketch};
use sketch_image::image_size;

// One edit of a sketch's curve, picked at a point.
pub fn edit(operation: Operation, sk: Sketch, curve: Id, at: Vec2) -> Result<Edited, Refusal>
    ensures { EditAnswer operation sk curve at (edited_of sk result) }
{
    let mut image = [0u8; MAX_IMAGE_SIZE];
    sketch_image::write(sk, &mut image)?;
    let size = image_size(sk.npoints, sk.ncurves, sk.nrelations);
    let mut out = [0u8; MAX_IMAGE_SIZE];
    let edited = edit_image(operation, &image[..size], curve, at, &mut out)?;
    let sketch = sketch_image::read(&out[..edited.size])?;
    Ok(Edited {
        sketch,
        removed: edited.removed,
    })
}

pub fn trim(sk: Sketch, curve: Id, at: Vec2) -> Result<Edited, Refusal>
    ensures { EditAnswer Operation.Trim sk curve at (edited_of sk result) }
{
    edit(Operation::Trim, sk, curve, at)
}

pub fn split(sk: Sketch, curve: Id, at: Vec2) -> Result<Edited, Refusal>
    ensures { EditAnswer Operation.Split sk curve at (edited_of sk result) }
{
    edit(Operation::Split, sk, curve, at)
}

pub fn extend(sk: Sketch, curve: Id, at: Vec2) -> Result<Edited, Refusal>
    ensures { EditAnswer Operation.Extend sk curve at (edited_of sk result) }
{
    edit(Operation::Extend, sk, curve, at)
}
