// The trace columns' openings at r: each column's rows are added up by the eq table of its blocks, then by the Lagrange kernels of its order.
ghost use Rattle.std.specs.Prelude.{◌≡◌, ℕ, ◌+◌, ◌-◌, ◌*◌, ◌^◌, ◌<◌, ◌≤◌, min, true, List, length};
ghost use Rattle.algebra.specs.Sum.{sum};
ghost use Rattle.field.specs.Element.{F, ◌⊗◌, words_of};
ghost use Rattle.field.specs.Slice.{elem_at, elem_words, canonical_words};
ghost use Rattle.weights.specs.LambdaPowers.{claims_of, claims_before};
ghost use Rattle.weights.specs.RunOf.{run_of};
ghost use Rattle.weights.specs.AtField.{true_claim_f};
ghost use Rattle.prover.specs.Words.{CanonicalFrom};
ghost use Rattle.prover.specs.Written.{Written};
ghost use Rattle.prover.specs.RowSum.{from_words};
ghost use Rattle.prover.specs.KernelTables.{OrderKernels};
ghost use Rattle.prover.specs.ColumnOpenings.{opened};
ghost use Rattle.prover.specs.StridedSum.{plain_row, turned_row};
ghost use Rattle.prover.specs.Live.{Placed};

use crate::canonical;
use crate::elements::{fill, read, write};
use crate::given::Given;
use crate::kernels::turned;
use crate::made::Made;
use crate::table_rows::{table_rows, turned_rows};
use crate::transforms::two_to;
use field::element::exp_power_of_2;
use field::slice::load;
use layout::columns::{lifted, walk_first, walk_next};
use tables::poly::eq_uni_kernels;

// The kernels of order 2^o at r_0 raised to that order, and at that times the generator of the order; unless they are there.
fn kernels_at(known: bool, l_skip: u32, o: u32, r: &[u32], plain: &mut [u32], rotated: &mut [u32])
    requires l_skip_bound { (l_skip ≤ 10) × (o ≤ l_skip) }
    requires o_in_bounds { 4 * 2 ^ o ≤ length plain.old }
    requires o_in_bounds_2 { 4 * 2 ^ o ≤ length rotated.old }
    requires order_kernels { known ≡ true → OrderKernels l_skip o r.now plain.old rotated.old }
    ensures { OrderKernels l_skip o r.now plain.new rotated.new }
{
    if known {
        return;
    }
    let end = 4 * two_to(o);
    let y = exp_power_of_2(load(r, 0), l_skip - o);
    let _ = eq_uni_kernels(o, y, &mut plain[..end]);
    let _ = eq_uni_kernels(o, turned(o, y), &mut rotated[..end]);
}

// The entries of acc that are `stride` apart, each times its kernel.
fn kernel_sum(o: u32, stride: usize, k: &[u32], acc: &[u32]) -> [u32; 4]
    requires o_bound { (o ≤ 10) × (0 < stride) }
    requires o_in_bounds { 4 * 2 ^ o ≤ length k.now }
    requires canonical_from { CanonicalFrom k.now 0 (2 ^ o) }
    requires o_in_bounds_2 { 4 * (stride * 2 ^ o) ≤ length acc.now }
    requires canonical_from_2 { CanonicalFrom acc.now 0 (stride * 2 ^ o) }
    ensures { result ≡ words_of (sum F (2 ^ o) (λ t. elem_at k.now t ⊗ elem_at acc.now (stride * t))) }
{
    let n = two_to(o);
    let mut e = [0u32, 0, 0, 0];
    for t in 0..n {
        let x = canonical::mul_add(e, read(k, t), read(acc, stride * t));
        e = x;
    }
    e
}

// A column's rows, by the eq table of its blocks.
fn column_rows(l_skip: u32, log: u32, start: usize, r: &[u32], matrices: &[u32], acc: &mut [u32])
    requires l_skip_bound { (l_skip ≤ 10) × (log - l_skip ≤ 20) }
    requires l_skip_in_bounds { start + 2 ^ l_skip * 2 ^ (log - l_skip) ≤ length matrices.now }
    requires l_skip_in_bounds_2 { 4 * (log - l_skip + 1) ≤ length r.now }
    requires r_value { canonical_words r.now ≡ true }
    requires l_skip_in_bounds_3 { 4 * 2 ^ l_skip ≤ length acc.old }
    ensures { Written acc.old 0 (2 ^ l_skip) (plain_row l_skip log start r.now matrices.now) acc.new }
{
    let lift = lifted(log, l_skip);
    let rows = two_to(l_skip);
    let blocks: usize = 1 << lift;
    fill(acc, 0, rows, [0, 0, 0, 0]);
    table_rows(
        l_skip,
        lift,
        rows,
        matrices,
        start,
        blocks,
        r,
        [1, 0, 0, 0],
        acc,
    );
}

// Its first row, each block by the entry before its own.
fn first_turned(l_skip: u32, log: u32, start: usize, r: &[u32], matrices: &[u32], acc: &mut [u32])
    requires l_skip_bound { (l_skip ≤ 10) × (log - l_skip ≤ 20) }
    requires l_skip_in_bounds { start + 2 ^ l_skip * 2 ^ (log - l_skip) ≤ length matrices.now }
    requires l_skip_in_bounds_2 { 4 * (log - l_skip + 1) ≤ length r.now }
    requires r_value { canonical_words r.now ≡ true }
    requires l_skip_in_bounds_3 { 4 * 2 ^ l_skip ≤ length acc.old }
    ensures { Written acc.old 0 1 (turned_row l_skip log start r.now matrices.now) acc.new }
{
    let lift = lifted(log, l_skip);
    write(acc, 0, [0, 0, 0, 0]);
    turned_rows(l_skip, lift, 1, matrices, start, r, [1, 0, 0, 0], acc);
}

// The openings of one column from index i on, the rotated one where it is flagged; how many they are.
fn open_column(
    l_skip: u32,
    log: u32,
    flag: u32,
    start: usize,
    r: &[u32],
    matrices: &[u32],
    plain: &[u32],
    rotated: &[u32],
    acc: &mut [u32],
    out: &mut [u32],
    i: usize,
) -> usize
    requires l_skip_bound { (l_skip ≤ 10) × (log - l_skip ≤ 20) }
    requires l_skip_in_bounds { start + 2 ^ l_skip * 2 ^ (log - l_skip) ≤ length matrices.now }
    requires l_skip_in_bounds_2 { 4 * (log - l_skip + 1) ≤ length r.now }
    requires r_value { canonical_words r.now ≡ true }
    requires l_skip_in_bounds_3 { (4 * 2 ^ l_skip ≤ length plain.now) × (4 * 2 ^ l_skip ≤ length rotated.now) × (4 * 2 ^ l_skip ≤ length acc.old) }
    requires order_kernels { OrderKernels l_skip (min l_skip log) r.now plain.now rotated.now }
    requires flag_in_bounds { 4 * (i + claims_of flag) ≤ length out.old }
    ensures value { result ≡ claims_of flag }
    ensures written { Written out.old i (claims_of flag) (opened l_skip log start r.now matrices.now) out.new }
{
    let gap = lifted(l_skip, log);
    let o = lifted(l_skip, gap);
    let stride = two_to(gap);
    column_rows(l_skip, log, start, r, matrices, acc);
    let x = kernel_sum(o, stride, plain, acc);
    write(out, i, x);
    if flag == 0 {
        return 1;
    }
    first_turned(l_skip, log, start, r, matrices, acc);
    let y = kernel_sum(o, stride, rotated, acc);
    write(out, i + 1, y);
    2
}

// Column after column: its opening and, where it is flagged, the one with its rows turned by one. The kernels are made once for columns of
// one order that follow each other.
pub(crate) fn column_claims(given: Given<'_>, made: Made, matrices: &[u32], out: &mut [u32])
    requires placed { Placed given.l_skip given.n_stack made.first given.lists.now made.columns made.stacked }
    requires r_len { length given.r.now ≡ 4 * (given.n_stack + 1) }
    requires r_value { canonical_words given.r.now ≡ true }
    requires matrices_len { length matrices.now ≡ made.stacked * 2 ^ (given.l_skip + given.n_stack) }
    requires by_index { (lambda : List ℕ) → length out.old ≡ 4 * claims_before (run_of given.l_skip given.n_stack made.first given.lists.now given.r.now lambda) made.columns }
    ensures { (lambda : List ℕ) → out.new ≡ elem_words (claims_before (run_of given.entry.l_skip given.entry.n_stack made.first given.entry.lists.now given.entry.r.now lambda) made.columns) (true_claim_f (run_of given.entry.l_skip given.entry.n_stack made.first given.entry.lists.now given.entry.r.now lambda) (from_words matrices.now)) }
{
    let Given {
        l_skip,
        n_stack,
        lists,
        r,
        ..
    } = given;
    let mut acc = [0u32; 4096];
    let mut plain = [0u32; 4096];
    let mut rotated = [0u32; 4096];
    let mut order: Option<u32> = None;
    let mut i: usize = 0;
    let mut c = walk_first(l_skip, n_stack, made.first, lists);
    for _k in 0..made.columns {
        let o = lifted(l_skip, lifted(l_skip, c.log));
        kernels_at(order == Some(o), l_skip, o, r, &mut plain, &mut rotated);
        order = Some(o);
        let more = open_column(
            l_skip, c.log, c.flag, c.start, r, matrices, &plain, &rotated, &mut acc, out, i,
        );
        i += more;
        c = walk_next(l_skip, n_stack, made.first, lists, c);
    }
}
