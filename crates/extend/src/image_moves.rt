// The extend of a line of an image. The image is left as it is, and the moved point goes as a value beside it, until nothing refuses any more.
ghost use Rattle.extend.specs.Answers.{answer_of};
ghost use Rattle.extend.specs.ImageExtend.{ExtendsImage};
ghost use Rattle.extend.specs.ImageExtendContracts.{PinMet, MovesIfMet};

use crate::image_extend::plan_extend;
use apply::{Applied, apply_move, count_pinned, move_refusal};
use edit_plan::{Pin, pin_relation};
use geom::Vec2;
use refusal::Refusal;
use relations::image_search::{first_unmet, first_unmet_after, is_met_after};
use rows::{Tables, curve_at, point_at, relation_count};
use sketch::{CurveKind, Id};

// Whether the relation that a pin of the point p adds is met once p is at v.
fn is_pin_met(pin: Pin, p: Id, v: Vec2, t: &Tables) -> bool
    ensures { PinMet t.now.image.now pin p v result }
{
    count_pinned(pin, p) == 0 || is_met_after(pin_relation(pin, p), t, p, v)
}

// The point at place k moved to v and pinned there, if the relations are met then: else the place of the first that is not. Only those
// that name the point, or the one curve that uses it, can change by the move.
fn move_if_met(
    t: &Tables,
    id: Id,
    k: usize,
    v: Vec2,
    pin: Pin,
    out: &mut [u8],
) -> Result<Applied, Refusal>
    ensures { MovesIfMet t.now.image.now id k v pin out.old out.new (answer_of result) }
{
    move_refusal(t, k, v, pin)?;
    let p = point_at(t.points, k);
    if let Some(unmet) = first_unmet_after(t, p.id, v, id) {
        return Err(Refusal::RelationsBroken(unmet));
    }
    if !is_pin_met(pin, p.id, v, t) {
        // The relation that the pin adds would stand past the present ones.
        return Err(Refusal::RelationsBroken(relation_count(t.relations)));
    }
    apply_move(t, k, v, pin, out)
}

// The extend of the curve at a place of an image, picked at a point: refused for anything but a line, and then by the place of the first
// relation that is not met.
pub fn extend_image(t: &Tables, place: usize, at: Vec2, out: &mut [u8]) -> Result<Applied, Refusal>
    ensures { ExtendsImage t.now.image.now place at out.old out.new (answer_of result) }
{
    let c = curve_at(t.curves, place);
    let CurveKind::Line(_, _) = c.kind else {
        return Err(Refusal::WrongKind);
    };
    if let Some(unmet) = first_unmet(t) {
        return Err(Refusal::RelationsUnmet(unmet));
    }
    let end = plan_extend(t, place, at)?;
    move_if_met(t, c.id, end.place, end.to, end.pin, out)
}
