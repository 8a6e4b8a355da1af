// The tables of the distinct heights, one height after the other.
ghost use Rattle.std.specs.Prelude.{◌≡◌, ℕ, ◌+◌, ◌-◌, ◌*◌, ◌^◌, ◌≤◌, true, List, length, ◌≢◌};
ghost use Rattle.algebra.specs.Multilinear.{cube_factor};
ghost use Rattle.field.specs.Element.{F, ◌⊗◌, elem_of, words_of};
ghost use Rattle.field.specs.Canonical.{Canonical};
ghost use Rattle.field.specs.Powers.{root};
ghost use Rattle.field.specs.Slice.{elem_at, canonical_words};
ghost use Rattle.tables.specs.AtField.{eq_uni_f};
ghost use Rattle.tables.specs.Points.{coordinates};
ghost use Rattle.weights.specs.RunOf.{run_of};
ghost use Rattle.prover.specs.Written.{Written, elems_from};
ghost use Rattle.prover.specs.Rotated.{rotated};
ghost use Rattle.prover.specs.UniKernels.{eq_scale, rot_scale, rot_shift};
ghost use Rattle.prover.specs.Live.{Held};
ghost use Rattle.prover.specs.Given.{given};
ghost use Rattle.prover.specs.Heights.{Starting, size_of};
ghost use Rattle.prover.specs.CallNumbers.{live_tables};
ghost use Rattle.prover.specs.Calls.{start_eq, uni_eq, uni_rot, fold_tables};

use crate::elements::rotate;
use crate::kernels::{height_kernels, shift_kernel};
use crate::sumcheck::fold_mle_evals;
use layout::columns::lifted;
use tables::poly::evals_eq_hypercube;

// Which heights there are, by the lists, and the index at which each height's tables start.
#[derive(Clone, Copy)]
pub(crate) struct Heights<'a> {
    pub(crate) l_skip: u32,
    pub(crate) n_stack: u32,
    pub(crate) lists: &'a [u32],
    pub(crate) slots: &'a [usize; 32],
}

// The eq table of r_1 to r_n with a starting element, of 2^n entries, from index `at` on.
pub(crate) fn eq_table(start: [u32; 4], n: u32, r: &[u32], eq: &mut [u32], at: usize)
    requires canonical { Canonical start }
    requires n_bound { n ≤ 20 }
    requires n_in_bounds { 4 * (n + 1) ≤ length r.now }
    requires r_value { canonical_words r.now ≡ true }
    requires n_in_bounds_2 { 4 * (at + 2 ^ n) ≤ length eq.old }
    ensures { Written eq.old at (2 ^ n) (λ x. elem_of start ⊗ cube_factor F (coordinates r.now 1 n) x) eq.new }
{
    let entries: usize = 1 << n;
    let end = 4 * (n as usize + 1);
    let from = 4 * at;
    let to = 4 * (at + entries);
    let _ = evals_eq_hypercube(start, &r[4..end], &mut eq[from..to]);
}

// The unscaled eq table of one height, where it has entries.
fn start_height(lift: u32, entries: usize, r: &[u32], eq: &mut [u32], at: usize)
    requires entries_value { (entries ≢ 0) → entries ≡ 2 ^ lift }
    requires lift_bound { lift ≤ 20 }
    requires lift_in_bounds { 4 * (lift + 1) ≤ length r.now }
    requires r_value { canonical_words r.now ≡ true }
    requires entries_in_bounds { 4 * (at + entries) ≤ length eq.old }
    ensures { Written eq.old at entries (cube_factor F (coordinates r.now 1 lift)) eq.new }
{
    if entries == 0 {
        return;
    }
    eq_table([1, 0, 0, 0], lift, r, eq, at);
}

// The unscaled eq tables.
pub(crate) fn start_tables(heights: Heights<'_>, r: &[u32], eq: &mut [u32])
    requires n_stack_bound { (heights.n_stack ≤ 20) × (heights.l_skip + heights.n_stack ≤ 24) }
    requires slots { Starting heights }
    requires r_len { length r.now ≡ 4 * (heights.n_stack + 1) }
    requires r_value { canonical_words r.now ≡ true }
    requires eq_len { length eq.old ≡ 4 * size_of heights }
    ensures { eq.new ≡ start_eq heights.entry.l_skip heights.entry.n_stack heights.entry.lists.now r.now }
{
    let top = heights.l_skip + heights.n_stack + 1;
    for h in 0..top {
        let at = heights.slots[h as usize];
        let end = heights.slots[h as usize + 1];
        start_height(lifted(h, heights.l_skip), end - at, r, eq, at);
    }
}

// One height at u_0, where it has entries: the rotation table from the unscaled eq entries, then the eq table with the height's factor as its start.
fn scale_height(
    l_skip: u32,
    h: u32,
    entries: usize,
    r: &[u32],
    u: [u32; 4],
    shift: [u32; 4],
    eq: &mut [u32],
    k_rot: &mut [u32],
    at: usize,
)
    requires l_skip_bound { (l_skip ≤ 10) × (h ≤ 24) × (h - l_skip ≤ 20) }
    requires entries_value { (entries ≢ 0) → entries ≡ 2 ^ (h - l_skip) }
    requires shift_value { shift ≡ words_of (eq_uni_f l_skip (elem_of u) F.one ⊗ eq_uni_f l_skip (root l_skip ⊗ elem_at r.now 0) F.one) }
    requires l_skip_in_bounds { 4 * (h - l_skip + 1) ≤ length r.now }
    requires r_value { canonical_words r.now ≡ true }
    requires held { Held eq.old at entries }
    requires entries_in_bounds { 4 * (at + entries) ≤ length k_rot.old }
    ensures by_index { (n first : ℕ) (lists lambda : List ℕ) → Written eq.old at entries (λ x. eq_scale (run_of l_skip n first lists r.now lambda) h (elem_of u) ⊗ cube_factor F (coordinates r.now 1 (h - l_skip)) x) eq.new }
    ensures by_index_2 { (n first : ℕ) (lists lambda : List ℕ) → Written k_rot.old at entries (rotated (2 ^ (h - l_skip)) (elems_from eq.old at) (rot_scale (run_of l_skip n first lists r.now lambda) h (elem_of u)) (rot_shift (run_of l_skip n first lists r.now lambda) h (elem_of u))) k_rot.new }
{
    if entries == 0 {
        return;
    }
    let k = height_kernels(l_skip, h, r, u, shift);
    let a = k.rot;
    let b = k.shift;
    let c = k.eq;
    let lift = lifted(h, l_skip);
    rotate(eq, k_rot, at, lift, a, b);
    eq_table(c, lift, r, eq, at);
}

// All tables at u_0.
pub(crate) fn scale_tables(
    heights: Heights<'_>,
    r: &[u32],
    u: [u32; 4],
    eq: &mut [u32],
    k_rot: &mut [u32],
)
    requires l_skip_bound { (heights.l_skip ≤ 10) × (heights.n_stack ≤ 20) × (heights.l_skip + heights.n_stack ≤ 24) }
    requires slots { Starting heights }
    requires eq_len { length eq.old ≡ 4 * size_of heights }
    requires k_rot_len { length k_rot.old ≡ 4 * size_of heights }
    requires eq_value { canonical_words eq.old ≡ true }
    requires r_len { length r.now ≡ 4 * (heights.n_stack + 1) }
    requires r_value { canonical_words r.now ≡ true }
    ensures by_index { (counts lambda : List ℕ) → eq.new ≡ uni_eq (given heights.entry.l_skip heights.entry.n_stack counts heights.entry.lists.now r.now lambda) (elem_of u) }
    ensures by_index_2 { (counts lambda : List ℕ) → k_rot.new ≡ uni_rot (given heights.entry.l_skip heights.entry.n_stack counts heights.entry.lists.now r.now lambda) (elem_of u) eq.old }
{
    let shift = shift_kernel(heights.l_skip, r, u);
    let top = heights.l_skip + heights.n_stack + 1;
    for h in 0..top {
        let at = heights.slots[h as usize];
        let end = heights.slots[h as usize + 1];
        scale_height(heights.l_skip, h, end - at, r, u, shift, eq, k_rot, at);
    }
}

// The tables at u, in round `round`: each height's own, once.
pub(crate) fn fold_tables(heights: Heights<'_>, round: u32, u: [u32; 4], t: &mut [u32])
    requires n_stack_bound { (heights.n_stack ≤ 20) × (heights.l_skip + heights.n_stack ≤ 24) × (1 ≤ round) × (round ≤ heights.n_stack) }
    requires slots { Starting heights }
    requires t_len { length t.old ≡ 4 * size_of heights }
    requires n_stack_value { live_tables heights.l_skip heights.lists.now (round - 1) t.old (heights.l_skip + heights.n_stack + 1) ≡ true }
    requires canonical { Canonical u }
    ensures { t.new ≡ fold_tables heights.entry.l_skip heights.entry.n_stack heights.entry.lists.now round (elem_of u) t.old }
{
    let top = (heights.l_skip + heights.n_stack + 1) as usize;
    for h in 0..top {
        let at = heights.slots[h];
        let half = (heights.slots[h + 1] - at) >> round;
        fold_mle_evals(t, at, half, u);
    }
}
