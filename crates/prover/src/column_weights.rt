// The columns' weights past their heights.
ghost use Rattle.std.specs.Prelude.{◌≡◌, ℕ, ◌+◌, ◌-◌, ◌*◌, ◌/◌, ◌%◌, ◌^◌, ◌≤◌, List, length, if◌then◌else◌, nat_le};
ghost use Rattle.algebra.specs.Multilinear.{bit_factor};
ghost use Rattle.field.specs.Element.{F, ◌⊗◌, elem_of, words_of};
ghost use Rattle.field.specs.Slice.{elem_words};
ghost use Rattle.layout.specs.Placing.{row_of};
ghost use Rattle.layout.specs.Walked.{Walked};
ghost use Rattle.weights.specs.RunOf.{run_of};
ghost use Rattle.prover.specs.Given.{work};
ghost use Rattle.prover.specs.OwnSum.{tables_of, folded_tables};

use field::element;
use field::element::mul;
use field::slice::{load, store};
use layout::columns::{lifted, walk_first, walk_next};
use tables::poly_common::bit_factor;

// A column's weight at u: past n_lift one bit of the starting row enters.
fn next_weight(
    l_skip: u32,
    n_stack: u32,
    round: u32,
    log: u32,
    start: usize,
    u: [u32; 4],
    weight: [u32; 4],
) -> [u32; 4]
    requires { (l_skip + n_stack ≤ 24) × (1 ≤ round) × (round ≤ n_stack) }
    ensures { result ≡ words_of (if nat_le round (log - l_skip) then elem_of weight else (elem_of weight ⊗ bit_factor F (elem_of u) (row_of l_skip n_stack start / 2 ^ l_skip / 2 ^ (round - 1) % 2))) }
{
    if lifted(log, l_skip) < round {
        let height: usize = 1 << (l_skip + n_stack);
        let row = start % height;
        let f = bit_factor(u, (row >> (l_skip + round - 1)) % 2);
        return mul(weight, f);
    }
    element::canonical(weight)
}

// The columns' weights at u.
pub(crate) fn fold_weights(
    l_skip: u32,
    n_stack: u32,
    first: usize,
    lists: &[u32],
    columns: usize,
    round: u32,
    u: [u32; 4],
    ub: &mut [u32],
)
    requires n_stack_bound { (l_skip + n_stack ≤ 24) × (1 ≤ round) × (round ≤ n_stack) }
    requires walked { Walked l_skip n_stack first lists.now columns }
    requires ub_len { length ub.old ≡ 4 * columns }
    ensures { (point lambda q eq rot : List ℕ) → ub.new ≡ elem_words columns (folded_tables (run_of l_skip n_stack first lists.now point lambda) round (elem_of u) (tables_of l_skip lists.now (work q eq rot ub.old))).weight }
{
    let mut c = walk_first(l_skip, n_stack, first, lists);
    for k in 0..columns {
        let weight = load(ub, k);
        let e = next_weight(l_skip, n_stack, round, c.log, c.start, u, weight);
        store(ub, k, e);
        c = walk_next(l_skip, n_stack, first, lists, c);
    }
}
