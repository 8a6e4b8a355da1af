// What a run over given lists is lent: the lengths, in words, that its calls ask.
ghost use Rattle.std.specs.Prelude.{◌≡◌, ◌+◌, ◌^◌, ◌≤◌};
ghost use Rattle.prover.specs.Rooms.{taken_run, run_room};

use crate::made::coefficient_words;
use crate::plans::slots_of;
use field::answer::Refusal;
use layout::runs::read_lists;
use weights::claims::claim_count;

// The words of r, of the work buffers (k_rot_r is as long as eq_r), of the stacked matrices, of the openings, of the first
// polynomial's coefficients and of the claims.
#[derive(Clone, Copy)]
pub struct RunRoom {
    pub r: usize,
    pub q_evals: usize,
    pub eq_r: usize,
    pub eq_ub: usize,
    pub matrices: usize,
    pub openings: usize,
    pub coefficients: usize,
    pub claims: usize,
}

// Of lists that make so many stack columns, entries of the tables, columns and claims.
fn taken_run(
    l_skip: u32,
    n_stack: u32,
    stacked: usize,
    entries: usize,
    columns: usize,
    claims: usize,
) -> RunRoom
    requires n_stack_bound { (l_skip + n_stack ≤ 24) × (stacked ≤ 2 ^ 30) × (entries ≤ 2 ^ 30) × (columns ≤ 2 ^ 30) }
    requires l_skip_bound { (l_skip ≤ 10) × (claims ≤ 2 ^ 30) }
    ensures { result ≡ taken_run l_skip n_stack stacked entries columns claims }
{
    let values = stacked << n_stack;
    let cells = stacked << (l_skip + n_stack);
    let coefficients = coefficient_words(l_skip);
    RunRoom {
        r: 4 * (n_stack as usize + 1),
        q_evals: 4 * values,
        eq_r: 4 * entries,
        eq_ub: 4 * columns,
        matrices: cells,
        openings: 4 * stacked,
        coefficients,
        claims: 4 * claims,
    }
}

pub fn run_room(
    l_skip: u32,
    n_stack: u32,
    counts: &[u32],
    lists: &[u32],
) -> Result<RunRoom, Refusal>
    ensures { result ≡ run_room l_skip n_stack counts.now lists.now }
{
    let run = read_lists(l_skip, n_stack, counts, lists)?;
    run.length?;
    let slots = slots_of(l_skip, n_stack, lists);
    let entries = slots[(l_skip + n_stack + 1) as usize];
    let claims = claim_count(l_skip, n_stack, run.first, lists, run.columns);
    Ok(taken_run(l_skip, n_stack, run.stacked, entries, run.columns, claims))
}
