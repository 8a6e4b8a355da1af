// Rows of words added up by kernels, each word times its kernel. A row of four words or more reads the kernels from four tables
// of coefficients, a shorter one as the elements that they are.
ghost use Rattle.std.specs.Prelude.{◌≡◌, ◌+◌, ◌*◌, ◌^◌, ◌<◌, ◌≤◌, true, length};
ghost use Rattle.field.specs.Word.{«p»};
ghost use Rattle.field.specs.Element.{elem_of, words_of};
ghost use Rattle.field.specs.Canonical.{Canonical};
ghost use Rattle.field.specs.Slice.{elem_at, canonical_words};
ghost use Rattle.prover.specs.Words.{Words};
ghost use Rattle.prover.specs.Written.{Written};
ghost use Rattle.prover.specs.RowSum.{coefficients, row_sum};
ghost use Rattle.prover.specs.KernelTables.{Split, KernelsAt};
ghost use Rattle.prover.specs.Products.{quarters_of, dot_of};

use crate::accumulator::Sums;
use crate::elements::{read, write};
use field::word::P64;
use tables::poly::eq_uni_kernels;

// The words at i, i + m, i + 2·m and i + 3·m of the part from `at` on.
fn quarters(xs: &[u32], at: usize, i: usize, m: usize) -> [u32; 4]
    requires i_lt_m { i < m }
    requires m_in_bounds { at + 4 * m ≤ length xs.now }
    ensures { result ≡ quarters_of xs.now at i m }
{
    let a = at + i;
    let b = a + m;
    let c = b + m;
    let d = c + m;
    [xs[a], xs[b], xs[c], xs[d]]
}

// Four words times the entries at i, i + 256, i + 512 and i + 768, all below p: a u64 holds the sum.
// The cut of an entry to 32 bits changes nothing, and tells the compiler that the product is one of 32 bits by 32.
fn dot4(a: [u32; 4], k: &[u64; 4096], i: usize) -> u64
    requires canonical { Canonical a }
    requires k_value { canonical_words k.now ≡ true }
    requires i_bound { i < 3328 }
    ensures { result ≡ dot_of a k.now i }
{
    a[0] as u64 * (k[i] as u32) as u64
        + a[1] as u64 * (k[i + 256] as u32) as u64
        + a[2] as u64 * (k[i + 512] as u32) as u64
        + a[3] as u64 * (k[i + 768] as u32) as u64
}

// A row of 4·groups words. Its quarters go side by side: words that follow each other are what the compiler makes vectors of.
fn row(q: &[u32], at: usize, k: &[u64; 4096], groups: usize) -> [u32; 4]
    requires groups_bound { groups ≤ 256 }
    requires words { Words q.now (at + 4 * groups) }
    requires k_value { canonical_words k.now ≡ true }
    ensures { result ≡ words_of (row_sum q.now at (coefficients groups k.now) (4 * groups)) }
{
    let mut s = Sums::NONE;
    for g in 0..groups {
        let e = quarters(q, at, g, groups);
        s = s.take(
            dot4(e, k, g),
            dot4(e, k, g + 1024),
            dot4(e, k, g + 2048),
            dot4(e, k, g + 3072),
        );
    }
    s.done()
}

// Row after row of 4·groups words, into the elements of out from index `at` on.
pub(crate) fn fold_rows(
    q: &[u32],
    k: &[u64; 4096],
    groups: usize,
    out: &mut [u32],
    at: usize,
    rows: usize,
)
    requires groups_bound { groups ≤ 256 }
    requires words { Words q.now (4 * groups * rows) }
    requires k_value { canonical_words k.now ≡ true }
    requires rows_in_bounds { 4 * (at + rows) ≤ length out.old }
    ensures { Written out.old at rows (λ y. row_sum q.now (4 * groups * y) (coefficients groups k.now) (4 * groups)) out.new }
{
    let n = 4 * groups;
    for y in 0..rows {
        let e = row(q, n * y, k, groups);
        write(out, at + y, e);
    }
}

// One product of words below p more, of at most four.
fn add_product(s: u64, x: u32, k: u32) -> u64
    requires s_bound { s ≤ 3 * 4053239664633446400 }
    requires x_lt_p { x < «p» }
    requires k_lt_p { k < «p» }
    ensures { result ≡ s + x * k }
{
    s + x as u64 * k as u64
}

// 2^63.
const HALF_U64: u64 = 9223372036854775808;

// A row of one or two words, with the kernels as elements. The sums are below 2^63, and a remainder is had faster of such words: the
// first remainder, which changes nothing, tells the compiler so.
fn short_row(q: &[u32], at: usize, k: &[u32; 4096], n: usize) -> [u32; 4]
    requires n_bound { n ≤ 2 }
    requires words { Words q.now (at + n) }
    requires k_value { canonical_words k.now ≡ true }
    ensures { result ≡ words_of (row_sum q.now at (elem_at k.now) n) }
{
    let mut s0: u64 = 0;
    let mut s1: u64 = 0;
    let mut s2: u64 = 0;
    let mut s3: u64 = 0;
    for i in 0..n {
        let x = q[at + i];
        let e = read(k, i);
        s0 = add_product(s0, x, e[0]);
        s1 = add_product(s1, x, e[1]);
        s2 = add_product(s2, x, e[2]);
        s3 = add_product(s3, x, e[3]);
    }
    [
        (s0 % HALF_U64 % P64) as u32,
        (s1 % HALF_U64 % P64) as u32,
        (s2 % HALF_U64 % P64) as u32,
        (s3 % HALF_U64 % P64) as u32,
    ]
}

// Row after row of one or two words.
pub(crate) fn fold_short_rows(
    q: &[u32],
    k: &[u32; 4096],
    n: usize,
    out: &mut [u32],
    at: usize,
    rows: usize,
)
    requires n_bound { n ≤ 2 }
    requires words { Words q.now (n * rows) }
    requires k_value { canonical_words k.now ≡ true }
    requires rows_in_bounds { 4 * (at + rows) ≤ length out.old }
    ensures { Written out.old at rows (λ y. row_sum q.now (n * y) (elem_at k.now) n) out.new }
{
    for y in 0..rows {
        let e = short_row(q, n * y, k, n);
        write(out, at + y, e);
    }
}

// The kernels at u, one element after the other.
pub(crate) fn kernels(l_skip: u32, u: [u32; 4], n: usize) -> [u32; 4096]
    requires l_skip_bound { l_skip ≤ 10 }
    requires n_value { n ≡ 2 ^ l_skip }
    ensures { KernelsAt l_skip (elem_of u) result }
{
    let mut k = [0u32; 4096];
    let all = 4 * n;
    let _ = eq_uni_kernels(l_skip, u, &mut k[..all]);
    k
}

// The coefficients of 4·groups elements, in four tables of 1,024 entries that follow each other. In a table the four quarters of
// the elements stand 256 entries apart: whatever a row's length, what it reads together stands at fixed distances. Every entry is
// filled; those past a quarter's end are not read.
pub(crate) fn split(k: &[u32; 4096], groups: usize) -> [u64; 4096]
    requires groups_bound { groups ≤ 256 }
    requires k_value { canonical_words k.now ≡ true }
    ensures { Split groups k.now result }
{
    let mut r = [0u64; 4096];
    for i in 0..4096 {
        let from = i / 256 % 4 * groups + i % 256;
        r[i] = k[4 * from + i / 1024] as u64;
    }
    r
}
