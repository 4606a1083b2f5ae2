// Lines and rounds by value: their measures, and where two of them cross.
#![tactic(auto)]

use geom::Vec2;

mod crossing;
mod measure;
mod turning;

pub use crossing::{direction_of, intersections, intersections_by, line_crossings};
pub use turning::turn;

// A line from one point to another; or a round, an arc or a circle: centre, radius, the turn at which it starts, and how far it sweeps.
#[derive(Clone, Copy)]
pub enum Shape {
    Line(Vec2, Vec2),
    Round(Vec2, f64, f64, f64),
}

// The parameters that a shape runs through.
#[derive(Clone, Copy)]
pub struct Range {
    pub start: f64,
    pub end: f64,
}

// The points in which two shapes cross, in order.
#[derive(Clone, Copy)]
pub enum Crossings {
    Zero,
    One(Vec2),
    Two(Vec2, Vec2),
}
