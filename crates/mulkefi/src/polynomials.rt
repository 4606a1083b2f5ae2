// Roots of a polynomial in Bernstein form, and the largest magnitude of its coefficients or of any list.
ghost use Rattle.std.specs.Prelude.{length};
ghost use Rattle.bernstein.specs.Roots.{search_of};
ghost use Rattle.float.specs.Magnitude.{MagnitudeWritten};
ghost use Rattle.mulkefi.specs.Polynomials.{RootsWritten};

// Accepted, it answers 0: the roots stand in order at the front of `found`, and `answer` holds how many they are and the budget that is
// left. Refused, it answers the number and leaves both.
#[unsafe(no_mangle)]
pub extern "C" fn mulkefi_roots(
    c: &[f64],
    found: &mut [f64],
    budget: usize,
    answer: &mut [u64; 2],
) -> u32
    ensures { RootsWritten (search_of (length found.old) c.now budget) found.old found.new answer.old answer.new result }
{
    let searched = bernstein::search::roots(c, found, budget);
    // Each caller of `roots` takes its answer apart by `let .. else`: the scope binds this form.
    let Ok(roots) = searched else {
        return u32::from(searched.unwrap_err().refusal.number());
    };
    answer[0] = roots.count as u64;
    answer[1] = roots.budget as u64;
    0
}

// How many finite numbers the list begins with. Where that is all of them, `largest` becomes their largest magnitude; where not, it is the
// place of the first that is not finite, and `largest` is left.
#[unsafe(no_mangle)]
pub extern "C" fn mulkefi_largest_magnitude(c: &[f64], largest: &mut [f64; 1]) -> usize
    ensures { MagnitudeWritten c.now largest.old largest.new result }
{
    match float::largest_magnitude(c) {
        Err(not_finite) => not_finite.place,
        Ok(m) => {
            largest[0] = m;
            c.len()
        }
    }
}
