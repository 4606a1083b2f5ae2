// Largest magnitudes: the input is how many numbers there are, in a byte, how many finite ones come first and the pattern of
// the largest magnitude, 0 where one is not finite, in eight bytes each, and the patterns of the numbers.
use crate::patterns::{MOST_NUMBERS, has_pattern, numbers};
use big_endian::{get1, get8};

const HEAD: usize = 17;

pub(crate) fn alike(outcome: u8, input: &[u8]) -> bool {
    let n = usize::from(get1(input, 0));
    if MOST_NUMBERS < n || input.len() != HEAD + 8 * n {
        return false;
    }
    let c = numbers(&input[HEAD..]);
    let place = get8(input, 1) as usize;
    let largest = get8(input, 9);
    let holds = match float::largest_magnitude(&c[..n]) {
        Ok(m) => place == n && has_pattern(m, largest),
        Err(first) => place == first.place && largest == 0,
    };
    outcome == 0 && holds
}
