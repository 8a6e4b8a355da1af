// The rows of a column, block after block, each block times an entry of the eq table of r_1 to r_n_lift; and the same by the entry before.
ghost use Rattle.std.specs.Prelude.{◌≡◌, ◌+◌, ◌*◌, ◌^◌, ◌<◌, ◌≤◌, min, true, length};
ghost use Rattle.algebra.specs.Multilinear.{cube_factor};
ghost use Rattle.field.specs.Canonical.{Canonical};
ghost use Rattle.field.specs.Element.{F, ◌⊕◌, ◌⊗◌, elem_of, words_of};
ghost use Rattle.field.specs.Slice.{elem_at, canonical_words};
ghost use Rattle.tables.specs.Index.{before};
ghost use Rattle.tables.specs.Points.{coordinates};
ghost use Rattle.prover.specs.Words.{CanonicalFrom};
ghost use Rattle.prover.specs.Written.{Written};
ghost use Rattle.prover.specs.StridedSum.{strided_sum};

use crate::elements::write;
use crate::heights::eq_table;
use crate::points::block_entries;
use crate::row_sums::add_rows;
use crate::transforms::two_to;
use field::element::mul;
use field::slice::load;
use tables::poly_common::bit_factor;

// The factor of b's bits at the n coordinates of r from index `from` on.
fn corner(r: &[u32], from: usize, n: u32, b: usize) -> [u32; 4]
    requires { (n ≤ 20) × (from ≤ 21) }
    ensures { result ≡ words_of (cube_factor F (coordinates r.now from n) b) }
{
    let mut e = [1u32, 0, 0, 0];
    let mut left = b;
    for i in 0..n as usize {
        let f = bit_factor(load(r, from + i), left % 2);
        let x = mul(e, f);
        e = x;
        left /= 2;
    }
    e
}

// Entries 256·b to 256·b + 255 of the eq table of r_1 to r_lift with a starting element, or all of them where they are fewer.
fn block_table(lift: u32, b: usize, r: &[u32], start: [u32; 4], t: &mut [u32; 1024])
    requires lift_bound { (lift ≤ 20) × (256 * b < 2 ^ lift) }
    requires lift_in_bounds { 4 * (lift + 1) ≤ length r.now }
    requires r_value { canonical_words r.now ≡ true }
    requires canonical { Canonical start }
    ensures { Written t.old 0 (2 ^ min 8 lift) (λ x. elem_of start ⊗ cube_factor F (coordinates r.now 1 lift) (x + 256 * b)) t.new }
{
    if lift <= 8 {
        eq_table(start, lift, r, t, 0);
        return;
    }
    let high = corner(r, 9, lift - 8, b);
    let k = mul(start, high);
    eq_table(k, 8, r, t, 0);
}

// Each of the first `rows` entries of acc gains the sum of its row: `count` blocks of 2^l_skip words from `at` on, each times its entry of the eq table of
// r_1 to r_lift with a starting element.
pub(crate) fn table_rows(
    l_skip: u32,
    lift: u32,
    rows: usize,
    q: &[u32],
    at: usize,
    count: usize,
    r: &[u32],
    start: [u32; 4],
    acc: &mut [u32],
)
    requires l_skip_bound { (l_skip ≤ 10) × (lift ≤ 20) × (count ≤ 2 ^ lift) × (rows ≤ 2 ^ l_skip) }
    requires count_in_bounds { at + 2 ^ l_skip * count ≤ length q.now }
    requires lift_in_bounds { 4 * (lift + 1) ≤ length r.now }
    requires r_value { canonical_words r.now ≡ true }
    requires canonical { Canonical start }
    requires rows_in_bounds { 4 * rows ≤ length acc.old }
    requires canonical_from { CanonicalFrom acc.old 0 rows }
    ensures { Written acc.old 0 rows (λ i. elem_at acc.old i ⊕ elem_of start ⊗ strided_sum q.now (at + i) (2 ^ l_skip) (cube_factor F (coordinates r.now 1 lift)) count) acc.new }
{
    let stride = two_to(l_skip);
    let mut t = [0u32; 1024];
    let blocks = (count + 255) / 256;
    for b in 0..blocks {
        block_table(lift, b, r, start, &mut t);
        let m = block_entries(count, b);
        add_rows(q, at + stride * (256 * b), stride, rows, &t, m, acc);
    }
}

// The same for all 2^lift blocks of a column, each times the entry before its own, the last one before the first.
pub(crate) fn turned_rows(
    l_skip: u32,
    lift: u32,
    rows: usize,
    q: &[u32],
    at: usize,
    r: &[u32],
    start: [u32; 4],
    acc: &mut [u32],
)
    requires l_skip_bound { (l_skip ≤ 10) × (lift ≤ 20) × (rows ≤ 2 ^ l_skip) }
    requires lift_in_bounds { at + 2 ^ l_skip * 2 ^ lift ≤ length q.now }
    requires lift_in_bounds_2 { 4 * (lift + 1) ≤ length r.now }
    requires r_value { canonical_words r.now ≡ true }
    requires canonical { Canonical start }
    requires rows_in_bounds { 4 * rows ≤ length acc.old }
    requires canonical_from { CanonicalFrom acc.old 0 rows }
    ensures { Written acc.old 0 rows (λ i. elem_at acc.old i ⊕ elem_of start ⊗ strided_sum q.now (at + i) (2 ^ l_skip) (λ x. cube_factor F (coordinates r.now 1 lift) (before (2 ^ lift) x)) (2 ^ lift)) acc.new }
{
    let stride = two_to(l_skip);
    let entries: usize = 1 << lift;
    let last = entries - 1;
    table_rows(l_skip, lift, rows, q, at + stride, last, r, start, acc);
    let mut t = [0u32; 1024];
    let k = mul(start, corner(r, 1, lift, last));
    write(&mut t, 0, k);
    add_rows(q, at, stride, rows, &t, 1, acc);
}
