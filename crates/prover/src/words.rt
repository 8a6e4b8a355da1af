// 10: words below p in what a call takes. No u_0 is refused for what it is: the fold at u_0 divides by nothing.
ghost use Rattle.std.specs.Prelude.{◌≡◌, ◌+◌, ◌-◌, ◌*◌, ◌^◌, ◌≤◌, length};
ghost use Rattle.field.specs.Number.{number_of};
ghost use Rattle.field.specs.Slice.{canonical_words};
ghost use Rattle.layout.specs.Answers.{answer_of};
ghost use Rattle.layout.specs.Checks.{or_else, word_number};
ghost use Rattle.prover.specs.Given.{work};
ghost use Rattle.prover.specs.Heights.{Starting, size_of};
ghost use Rattle.prover.specs.Blocks.{part};
ghost use Rattle.prover.specs.CallNumbers.{point_number, live, live_tables, live_number, uni_words, openings_words};

use crate::given::Given;
use crate::heights::Heights;
use field::answer::Refusal;
use field::slice::{canonical, canonical_four};

// 10 in r and lambda.
pub(crate) fn point_number(given: Given<'_>) -> Result<(), Refusal>
    ensures { result ≡ answer_of (point_number given.entry.r.now given.entry.lambda) }
{
    if !canonical(given.r) {
        return Err(Refusal::NotCanonical);
    }
    if !canonical_four(given.lambda) {
        return Err(Refusal::NotCanonical);
    }
    Ok(())
}

// Whether the words of the n elements from index `at` on are below p.
pub(crate) fn canonical_part(xs: &[u32], at: usize, n: usize) -> bool
    requires { 4 * (at + n) ≤ length xs.now }
    ensures { result ≡ canonical_words (part xs.now at n) }
{
    let from = 4 * at;
    let to = 4 * (at + n);
    canonical(&xs[from..to])
}

// The entries that are left of a table of e entries.
fn live_entries(e: usize, folds: u32) -> usize
    requires { folds ≤ 20 }
    ensures { result ≡ live e folds }
{
    if e == 0 {
        return 0;
    }
    let left = e >> folds;
    if left == 0 { 1 } else { left }
}

// Whether the words of every height's live entries are below p.
fn live_tables(heights: Heights<'_>, folds: u32, t: &[u32]) -> bool
    requires n_stack_bound { (heights.l_skip + heights.n_stack ≤ 24) × (folds ≤ 20) }
    requires slots { Starting heights }
    requires t_len { length t.now ≡ 4 * size_of heights }
    ensures { result ≡ live_tables heights.entry.l_skip heights.entry.lists.now folds t.now (heights.entry.l_skip + heights.entry.n_stack + 1) }
{
    let top = (heights.l_skip + heights.n_stack + 1) as usize;
    let mut ok = true;
    for h in 0..top {
        let at = heights.slots[h];
        let n = live_entries(heights.slots[h + 1] - at, folds);
        if !canonical_part(t, at, n) {
            ok = false;
        }
    }
    ok
}

// 10 in the live part of the work buffers.
pub(crate) fn live_number(
    heights: Heights<'_>,
    stacked: usize,
    folds: u32,
    q: &[u32],
    eq: &[u32],
    rot: &[u32],
    ub: &[u32],
) -> Result<(), Refusal>
    requires n_stack_bound { (heights.l_skip + heights.n_stack ≤ 24) × (folds ≤ heights.n_stack) × (heights.n_stack ≤ 20) × (stacked ≤ 2 ^ 30) }
    requires slots { Starting heights }
    requires q_len { length q.now ≡ 4 * (stacked * 2 ^ heights.n_stack) }
    requires eq_len { length eq.now ≡ 4 * size_of heights }
    requires rot_len { length rot.now ≡ 4 * size_of heights }
    ensures { result ≡ answer_of (live_number heights.entry.l_skip heights.entry.n_stack heights.entry.lists.now stacked folds (work q.now eq.now rot.now ub.now)) }
{
    let values = stacked << (heights.n_stack - folds);
    if !canonical_part(q, 0, values) {
        return Err(Refusal::NotCanonical);
    }
    if !live_tables(heights, folds, eq) {
        return Err(Refusal::NotCanonical);
    }
    if !live_tables(heights, folds, rot) {
        return Err(Refusal::NotCanonical);
    }
    if !canonical(ub) {
        return Err(Refusal::NotCanonical);
    }
    Ok(())
}

// What the fold at u_0 takes: 9 of the stacked matrices, 10. Where nothing else is wrong, the matrices' words are left to the
// fold, which reads them anyway.
pub(crate) fn uni_number(
    given: Given<'_>,
    stacked: usize,
    matrices: &[u32],
    u: [u32; 4],
    eq: &[u32],
) -> Result<(), Refusal>
    requires { (given.l_skip + given.n_stack ≤ 24) × (stacked ≤ 2 ^ 30) }
    ensures { or_else (number_of result) (word_number matrices.now) ≡ uni_words given.entry.l_skip given.entry.n_stack stacked given.entry.r.now given.entry.lambda matrices.now u eq.now }
{
    if matrices.len() != stacked << (given.l_skip + given.n_stack) {
        return Err(Refusal::WrongLength);
    }
    point_number(given)?;
    if !canonical_four(u) {
        return Err(Refusal::NotCanonical);
    }
    if !canonical(eq) {
        return Err(Refusal::NotCanonical);
    }
    Ok(())
}

// What the openings take: 9 of their slice, 10.
pub(crate) fn openings_number(
    given: Given<'_>,
    stacked: usize,
    out: usize,
    q: &[u32],
) -> Result<(), Refusal>
    requires { (stacked ≤ 2 ^ 30) × (4 * stacked ≤ length q.now) }
    ensures { result ≡ answer_of (openings_words stacked given.entry.r.now given.entry.lambda out q.now) }
{
    if out != 4 * stacked {
        return Err(Refusal::WrongLength);
    }
    point_number(given)?;
    if !canonical_part(q, 0, stacked) {
        return Err(Refusal::NotCanonical);
    }
    Ok(())
}
