// The list of observed values: coefficients, pairs, openings.
ghost use Rattle.std.specs.Prelude.{◌≡◌, ◌++◌, ◌+◌, ◌≤◌, length};
ghost use Rattle.std.proofs.Math.Seq.{paste};

// Copies the values to the words from index `at` on, word by word: the library's copy would ask memmove of whoever links it.
fn copy_into(observed: &mut [u32], at: usize, values: &[u32])
    requires { at + length values.now ≤ length observed.old }
    ensures { observed.new ≡ paste observed.old at values.now (length values.now) }
{
    let n = values.len();
    for j in 0..n {
        observed[at + j] = values[j];
    }
}

pub(crate) fn observe(coefficients: &[u32], pairs: &[u32], openings: &[u32], observed: &mut [u32])
    requires { length observed.old ≡ length coefficients.now + length pairs.now + length openings.now }
    ensures { observed.new ≡ coefficients.now ++ (pairs.now ++ openings.now) }
{
    let a = coefficients.len();
    let b = a + pairs.len();
    copy_into(observed, 0, coefficients);
    copy_into(observed, a, pairs);
    copy_into(observed, b, openings);
}
