// Roots of polynomials: the input is how many floats are lent and how many coefficients there are, in a byte each, the
// budget and what is left of it, in eight bytes each, and the patterns of the coefficients and then of the roots.
use crate::patterns::{has_pattern, numbers};
use big_endian::{get1, get8};

const HEAD: usize = 18;

// As many floats as any entry lends, and as many coefficients as any has.
const MOST_LENT: usize = 40;

const MOST_COEFFICIENTS: usize = 20;

// What the lent floats hold before the call, so that a change of those that it should leave is seen.
const UNTOUCHED: f64 = 0.75;

// Whether so many roots with some patterns lie at the front of the lent floats, and the others are untouched.
fn holds_just(lent: &[f64; MOST_LENT], count: usize, patterns: &[u8]) -> bool {
    let Some((roots, others)) = lent.split_at_checked(count) else {
        return false;
    };
    patterns.len() == 8 * count
        && roots
            .iter()
            .zip(patterns.chunks_exact(8))
            .all(|(root, pattern)| has_pattern(*root, get8(pattern, 0)))
        && others.iter().all(|x| *x == UNTOUCHED)
}

pub(crate) fn alike(outcome: u8, input: &[u8]) -> bool {
    let lent = usize::from(get1(input, 0));
    let n = usize::from(get1(input, 1));
    let start = HEAD + 8 * n;
    if MOST_LENT < lent || MOST_COEFFICIENTS < n || input.len() < start {
        return false;
    }
    let c = numbers(&input[HEAD..start]);
    let patterns = &input[start..];
    let mut found = [UNTOUCHED; MOST_LENT];
    let budget = get8(input, 2) as usize;
    let left = get8(input, 10) as usize;
    let roots = bernstein::search::roots(&c[..n], &mut found[..lent], budget);
    let Ok(answer) = roots else {
        let stopped = roots.unwrap_err();
        return outcome == stopped.refusal.number()
            && stopped.budget == left
            && holds_just(&found, 0, patterns);
    };
    outcome == 0 && answer.budget == left && holds_just(&found, answer.count, patterns)
}
