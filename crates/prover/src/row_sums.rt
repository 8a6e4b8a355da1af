// Sums of words times the entries of a table of at most 256 elements, over the rows of a part of a matrix that is laid block after block.
ghost use Rattle.std.specs.Prelude.{◌≡◌, ◌+◌, ◌*◌, ◌<◌, ◌≤◌, length};
ghost use Rattle.field.specs.Element.{◌⊕◌, words_of};
ghost use Rattle.field.specs.Slice.{elem_at};
ghost use Rattle.prover.specs.Words.{CanonicalFrom};
ghost use Rattle.prover.specs.Written.{Written};
ghost use Rattle.prover.specs.StridedSum.{strided_sum};

use crate::accumulator::Sums;
use crate::canonical;
use crate::elements::{read, write};

fn product(x: u32, k: u32) -> u64
    ensures { result ≡ x * k }
{
    x as u64 * k as u64
}

// The words at `at`, at + stride, .., m of them, each times its entry of t. No word need be below p.
fn strided(q: &[u32], at: usize, stride: usize, t: &[u32; 1024], m: usize) -> [u32; 4]
    requires m_bound { m ≤ 256 }
    requires m_in_bounds { at + stride * m < length q.now + stride }
    ensures { result ≡ words_of (strided_sum q.now at stride (elem_at t.now) m) }
{
    let mut s = Sums::NONE;
    for y in 0..m {
        let x = q[at + stride * y];
        let e = read(t, y);
        s = s.take(
            product(x, e[0]),
            product(x, e[1]),
            product(x, e[2]),
            product(x, e[3]),
        );
    }
    s.done()
}

// Each of the first `rows` entries of acc gains the sum of its row: m blocks of `stride` words, from `at` on.
pub(crate) fn add_rows(
    q: &[u32],
    at: usize,
    stride: usize,
    rows: usize,
    t: &[u32; 1024],
    m: usize,
    acc: &mut [u32],
)
    requires m_bound { m ≤ 256 }
    requires rows_le_stride { rows ≤ stride }
    requires m_in_bounds { at + stride * m ≤ length q.now }
    requires rows_in_bounds { 4 * rows ≤ length acc.old }
    requires canonical_from { CanonicalFrom acc.old 0 rows }
    ensures { Written acc.old 0 rows (λ i. elem_at acc.old i ⊕ strided_sum q.now (at + i) stride (elem_at t.now) m) acc.new }
{
    for i in 0..rows {
        let e = strided(q, at + i, stride, t, m);
        let old = read(acc, i);
        let x = canonical::add(old, e);
        write(acc, i, x);
    }
}
