// Images: the input is an image, and an accepted one is written back.
use crate::written::holds_image;

pub(crate) fn alike(outcome: u8, input: &[u8]) -> bool {
    match sketch_image::read(input) {
        Ok(sketch) => outcome == 0 && holds_image(sketch, input),
        Err(refusal) => outcome == refusal.number(),
    }
}
