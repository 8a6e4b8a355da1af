// Lines through two elements in words below p.
ghost use Rattle.std.specs.Prelude.{◌≡◌, ◌+◌, ◌*◌};
ghost use Rattle.algebra.specs.Ring.{num};
ghost use Rattle.algebra.specs.Multilinear.{line, fold_mle};
ghost use Rattle.field.specs.Element.{F, elem_of, words_of};
ghost use Rattle.field.specs.Canonical.{Canonical};
ghost use Rattle.field.specs.Slice.{elem_at};
ghost use Rattle.prover.specs.Words.{Words};
ghost use Rattle.prover.specs.RoundValues.{one_or_two};

use crate::canonical;
use crate::elements::read;

// The line through lo at 0 and hi at 1, at u.
pub(crate) fn line_at(lo: [u32; 4], hi: [u32; 4], u: [u32; 4]) -> [u32; 4]
    requires canonical { Canonical lo }
    requires canonical_2 { Canonical hi }
    requires canonical_3 { Canonical u }
    ensures { result ≡ words_of (line F (elem_of lo) (elem_of hi) (elem_of u)) }
{
    let d = canonical::sub(hi, lo);
    canonical::mul_add(lo, d, u)
}

// The same line at 2.
fn line_at_two(lo: [u32; 4], hi: [u32; 4]) -> [u32; 4]
    requires canonical { Canonical lo }
    requires canonical_2 { Canonical hi }
    ensures { result ≡ words_of (line F (elem_of lo) (elem_of hi) (num F 2)) }
{
    let step = canonical::sub(hi, lo);
    canonical::add(step, hi)
}

// The line through elements 2·y and 2·y + 1 of t, at 2 or at 1.
pub(crate) fn point(t: &[u32], y: usize, two: bool) -> [u32; 4]
    requires { Words t.now (8 * y + 8) }
    ensures { result ≡ words_of (fold_mle F (elem_at t.now) (one_or_two two) y) }
{
    let hi = read(t, 2 * y + 1);
    if two {
        let lo = read(t, 2 * y);
        return line_at_two(lo, hi);
    }
    hi
}
