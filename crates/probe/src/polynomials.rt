// Polynomials in Bernstein form: value, roots, and the largest magnitude of the coefficients or of any list.
ghost use Rattle.std.specs.Prelude.{◌≡◌, length};
ghost use Rattle.bernstein.specs.Evaluate.{evaluate_of};
ghost use Rattle.bernstein.specs.Roots.{search_of};
ghost use Rattle.float.specs.Magnitude.{MagnitudeWritten};
ghost use Rattle.probe.specs.Polynomials.{RootsAndBudgetWritten};

#[unsafe(no_mangle)]
pub extern "C" fn mulkefi_evaluate(c: &[f64], t: f64) -> f64
    ensures { result ≡ evaluate_of c.now t }
{
    bernstein::evaluate(c, t)
}

// A refusal's number, or 0. How many roots were found, none where refused, and the budget that is left go to the answer.
#[unsafe(no_mangle)]
pub extern "C" fn mulkefi_roots(
    c: &[f64],
    found: &mut [f64],
    budget: usize,
    answer: &mut [u64; 2],
) -> u32
    ensures { RootsAndBudgetWritten (search_of (length found.old) c.now budget) found.old found.new answer.old answer.new result }
{
    let roots = bernstein::search::roots(c, found, budget);
    // Roots are taken apart by `let .. else`, which is this scope's form.
    let Ok(answered) = roots else {
        let stopped = roots.unwrap_err();
        answer[0] = 0;
        answer[1] = stopped.budget as u64;
        return u32::from(stopped.refusal.number());
    };
    answer[0] = answered.count as u64;
    answer[1] = answered.budget as u64;
    0
}

// How many finite numbers the list begins with. Where that is all of them, `largest` becomes their largest magnitude; where not, it is the
// place of the first that is not finite, and `largest` is left.
#[unsafe(no_mangle)]
pub extern "C" fn mulkefi_largest_magnitude(c: &[f64], largest: &mut [f64; 1]) -> usize
    ensures { MagnitudeWritten c.now largest.old largest.new result }
{
    match float::largest_magnitude(c) {
        Ok(m) => {
            largest[0] = m;
            c.len()
        }
        Err(first) => first.place,
    }
}
