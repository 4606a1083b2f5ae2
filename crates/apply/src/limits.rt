// Tables within their limits.
ghost use Rattle.std.specs.Prelude.{◌≡◌, true, MatchResult};
ghost use Rattle.image.specs.Image.{next_at};
ghost use Rattle.apply.specs.Clauses.{TablesWithin};

use image::{CURVE_SIZE, POINT_SIZE, RELATION_SIZE};
use refusal::Refusal;
use rows::{Tables, next_id};
use sketch::Id;

// The next id and the tables of an image, each within its limit as those of a good image are.
#[derive(Clone, Copy)]
pub(crate) struct Limited<'a> {
    pub next: Id,
    pub points: &'a [u8],
    pub curves: &'a [u8],
    pub relations: &'a [u8],
    ghost within: { TablesWithin points.now curves.now relations.now },
}

fn within_limits<'a>(t: &Tables<'a>) -> bool
    ensures { (result ≡ true → TablesWithin t.now.points.now t.now.curves.now t.now.relations.now) × (TablesWithin t.now.points.now t.now.curves.now t.now.relations.now → result ≡ true) }
{
    (t.points.len() / POINT_SIZE <= 512)
        & (t.curves.len() / CURVE_SIZE <= 128)
        & (t.relations.len() / RELATION_SIZE <= 256)
}

impl<'a> Limited<'a> {
    // The tables of any bytes, refused where one is over its limit.
    pub(crate) fn of(t: &Tables<'a>) -> Result<Limited<'a>, Refusal>
        ensures { MatchResult result (λ l. (l.next ≡ next_at t.now.image.now) × (l.points.now ≡ t.now.points.now) × (l.curves.now ≡ t.now.curves.now) × (l.relations.now ≡ t.now.relations.now)) (λ e. TablesWithin t.now.points.now t.now.curves.now t.now.relations.now → ⊥) }
    {
        if !within_limits(t) {
            return Err(Refusal::BadCount);
        }
        Ok(Limited {
            next: next_id(t.image),
            points: t.points,
            curves: t.curves,
            relations: t.relations,
        })
    }
}
