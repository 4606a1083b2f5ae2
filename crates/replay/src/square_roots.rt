// Square roots: the input is the pattern of a number and the pattern of its root, in eight bytes each.
use crate::patterns::{has_pattern, number};
use big_endian::get8;

const SIZE: usize = 16;

pub(crate) fn alike(outcome: u8, input: &[u8]) -> bool {
    if input.len() != SIZE {
        return false;
    }
    let root = float::sqrt(number(get8(input, 0)));
    outcome == 0 && has_pattern(root, get8(input, 8))
}
