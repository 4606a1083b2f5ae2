// The tables of an image with guesses of places, made once and handed on.
ghost use Rattle.std.specs.Prelude.{◌≡◌};
ghost use Rattle.big_endian.specs.Laws.{Bytes};
ghost use Rattle.rows.specs.Rows.{point_table, curve_table, relation_table};

use crate::tables::{curves_of, points_of, relations_of};

// The bytes of an image, whatever they are, its tables in them, and guesses of the places of points and curves by id.
#[derive(Clone, Copy)]
pub struct Tables<'a> {
    pub image: &'a [u8],
    pub points: &'a [u8],
    pub curves: &'a [u8],
    pub relations: &'a [u8],
    pub near: &'a [u16],
    ghost bytes: { Bytes image.now },
    ghost own_points: { points.now ≡ point_table image.now },
    ghost own_curves: { curves.now ≡ curve_table image.now },
    ghost own_relations: { relations.now ≡ relation_table image.now },
}

impl<'a> Tables<'a> {
    // Any bytes have tables, empty ones at least.
    pub fn new(image: &'a [u8], near: &'a [u16]) -> Tables<'a>
        ensures image_is { result.image.now ≡ image.now }
        ensures near_is { result.near.now ≡ near.now }
    {
        Tables {
            image,
            points: points_of(image),
            curves: curves_of(image),
            relations: relations_of(image),
            near,
        }
    }
}
