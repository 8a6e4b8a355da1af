// Folds and round sums, from prover/sumcheck.rs.
ghost use Rattle.std.specs.Prelude.{◌≡◌, ◌+◌, ◌*◌, ◌^◌, ◌≤◌, true, length};
ghost use Rattle.algebra.specs.Ring.{num};
ghost use Rattle.algebra.specs.Multilinear.{fold_mle};
ghost use Rattle.field.specs.Element.{F, half_elem, elem_of, words_of};
ghost use Rattle.field.specs.Canonical.{Canonical};
ghost use Rattle.field.specs.Powers.{root};
ghost use Rattle.field.specs.Slice.{elem_at, canonical_words};
ghost use Rattle.tables.specs.FoldPle.{fold_ple};
ghost use Rattle.tables.specs.Window.{below};
ghost use Rattle.prover.specs.Words.{Words, CanonicalFrom};
ghost use Rattle.prover.specs.Written.{Written, elems_from};
ghost use Rattle.prover.specs.Checked.{Checked, Zeros, Steps};
ghost use Rattle.prover.specs.RowSum.{from_words, coefficients, row_sum};
ghost use Rattle.prover.specs.RoundValues.{round_bit, Values};
ghost use Rattle.prover.specs.PointBlocks.{point_sum, Weights};

use crate::elements::{fill, read, write};
use crate::lines::{line_at, point};
use crate::points::{BlockWeights, weighed};
use crate::rows::{fold_rows, fold_short_rows, kernels, split};
use field::element;
use field::slice::canonical;

// Whether every word is 0. It reads all of them, as `canonical` does.
fn zeros(xs: &[u32]) -> bool
    ensures { result ≡ true → Zeros xs.now }
{
    let mut ok = true;
    for x in xs {
        if *x != 0 {
            ok = false;
        }
    }
    ok
}

// How many rows of n words go at a time. Long ones go by blocks of 4,096 words where out is zeros, which can be put back; so they come
// from memory once.
fn step_of(n: usize, out: &[u32], rows: usize) -> usize
    requires { n ≤ 1024 }
    ensures { Steps out.now rows result }
{
    if n < 64 {
        return rows;
    }
    if !zeros(out) {
        return rows;
    }
    4096 / n
}

// Folds all rows of 4·groups words, `step` of them at a time: their words are looked at and then folded while they are near.
// Where one is not below p, the zeros that were there are put back.
fn fold_blocks(
    q: &[u32],
    k: &[u64; 4096],
    groups: usize,
    out: &mut [u32],
    rows: usize,
    step: usize,
) -> bool
    requires groups_bound { groups ≤ 256 }
    requires q_len { length q.now ≡ 4 * groups * rows }
    requires k_value { canonical_words k.now ≡ true }
    requires out_len { length out.old ≡ 4 * rows }
    requires steps { Steps out.old rows step }
    ensures { Checked q.now out.old rows (λ y. row_sum q.now (4 * groups * y) (coefficients groups k.now) (4 * groups)) result out.new }
{
    let n = 4 * groups;
    let mut y = 0;
    while y < rows {
        let m = (rows - y).min(step);
        let from = n * y;
        let to = n * (y + m);
        let part = &q[from..to];
        if !canonical(part) {
            fill(out, 0, y, [0, 0, 0, 0]);
            return false;
        }
        fold_rows(part, k, groups, out, y, m);
        y += m;
    }
    true
}

// Folds the rows of 2^l_skip words at u, all of q, if every word is below p; otherwise out stays as it was. Says which.
// The stack columns have whole rows, so that all of them fold as one; the kernels at u are made once.
pub(crate) fn fold_ple_evals(
    l_skip: u32,
    q: &[u32],
    u: [u32; 4],
    out: &mut [u32],
    rows: usize,
) -> bool
    requires l_skip_bound { l_skip ≤ 10 }
    requires q_len { length q.now ≡ 2 ^ l_skip * rows }
    requires out_len { length out.old ≡ 4 * rows }
    ensures { Checked q.now out.old rows (fold_ple F half_elem l_skip (root l_skip) (from_words q.now) (elem_of u)) result out.new }
{
    let n: usize = 1 << l_skip;
    let k = kernels(l_skip, u, n);
    if n < 4 {
        if !canonical(q) {
            return false;
        }
        fold_short_rows(q, &k, n, out, 0, rows);
        return true;
    }
    let groups = n / 4;
    let t = split(&k, groups);
    let step = step_of(n, out, rows);
    fold_blocks(q, &t, groups, out, rows, step)
}

// A quadratic's values at 1 and 2.
#[derive(Drop)]
pub(crate) struct Evals {
    pub(crate) one: [u32; 4],
    pub(crate) two: [u32; 4],
}

// One column's round in a block of n points, as long as its table has two entries or more: q from the column's own row on, and the
// block's weights at 1 and at 2.
pub(crate) fn sumcheck_round_poly_evals(
    q: &[u32],
    from: usize,
    n: usize,
    weights: &BlockWeights,
) -> Evals
    requires n_bound { (n ≤ 256) × (from ≤ 2 ^ 30) }
    requires words { Words q.now (8 * (from + n)) }
    requires weights { Weights n (elem_at weights.now.one) weights.now.one }
    requires weights_2 { Weights n (elem_at weights.now.two) weights.now.two }
    ensures { (result.one ≡ words_of (point_sum n (elem_at q.now) from F.one (elem_at weights.now.one))) × (result.two ≡ words_of (point_sum n (elem_at q.now) from (num F 2) (elem_at weights.now.two))) }
{
    Evals {
        one: weighed(q, from, &weights.one, n, false),
        two: weighed(q, from, &weights.two, n, true),
    }
}

// One column's round past its height, where its table is one entry: the pair of entries of q that the column's row falls in,
// and the bit that says in which of the two. The weight's factor is x where the bit is 1, else 1 − x.
pub(crate) fn bit_round_poly_evals(q: &[u32], bit: usize) -> Evals
    requires { Words q.now 8 }
    ensures { Values (round_bit (elem_at q.now) bit) result }
{
    let hi = point(q, 0, false);
    let line = point(q, 0, true);
    if bit == 0 {
        let two = element::neg(line);
        return Evals {
            one: [0, 0, 0, 0],
            two,
        };
    }
    let two = element::double(line);
    Evals { one: hi, two }
}

// Folds the 2·half elements from index `at` on at u, in place: their half values first, zeros after.
// Lists of an even number of elements that stand packed fold as one.
pub(crate) fn fold_mle_evals(t: &mut [u32], at: usize, half: usize, u: [u32; 4])
    requires half_in_bounds { 4 * (at + 2 * half) ≤ length t.old }
    requires canonical_from { CanonicalFrom t.old at (2 * half) }
    requires canonical { Canonical u }
    ensures { Written t.old at (2 * half) (below F half (fold_mle F (elems_from t.old at) (elem_of u))) t.new }
{
    for y in 0..half {
        let lo = read(t, at + 2 * y);
        let hi = read(t, at + (2 * y + 1));
        let e = line_at(lo, hi, u);
        write(t, at + y, e);
    }
    fill(t, at + half, half, [0, 0, 0, 0]);
}
