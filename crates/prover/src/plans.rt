// What a call of a run plans afresh: its lists, where the tables of the heights stand, and the lengths that it asks.
ghost use Rattle.std.specs.Prelude.{◌≡◌, ◌+◌, ◌-◌, ◌^◌, ◌≤◌, length};
ghost use Rattle.layout.specs.Answers.{answer_of};
ghost use Rattle.prover.specs.Given.{given_of};
ghost use Rattle.prover.specs.Slots.{occurs, entries, Slots};
ghost use Rattle.prover.specs.CallNumbers.{lengths_number, called_number, IsPlan};

use crate::given::Given;
use field::answer::Refusal;
use layout::columns::lifted;
use layout::runs::read_lists;

// What was planned: the matrices of the first commitment, the columns and stack columns of all, and the index at which each
// height's tables start.
#[derive(Clone, Copy)]
pub(crate) struct Plan {
    pub(crate) first: usize,
    pub(crate) columns: usize,
    pub(crate) stacked: usize,
    pub(crate) slots: [usize; 32],
}

// Whether there is a column of log height h.
fn height_occurs(lists: &[u32], h: u32) -> bool
    ensures { result ≡ occurs lists.now h }
{
    let m = lists.len() / 3;
    let mut found = false;
    for i in 0..m {
        if lists[3 * i] != 0 {
            if lists[3 * i + 1] == h {
                found = true;
            }
        }
    }
    found
}

// The entries of height h's tables.
fn entries_of(l_skip: u32, lists: &[u32], h: u32) -> usize
    requires { h ≤ l_skip + 20 }
    ensures { result ≡ entries l_skip lists.now h }
{
    if !height_occurs(lists, h) {
        return 0;
    }
    1 << lifted(h, l_skip)
}

// Where each height's tables start; the last one is where they end.
pub(crate) fn slots_of(l_skip: u32, n_stack: u32, lists: &[u32]) -> [usize; 32]
    requires { (n_stack ≤ 20) × (l_skip + n_stack ≤ 24) }
    ensures { Slots l_skip n_stack lists.now result }
{
    let mut slots = [0usize; 32];
    let top = l_skip + n_stack + 1;
    for h in 0..top {
        let e = entries_of(l_skip, lists, h);
        slots[h as usize + 1] = slots[h as usize] + e;
    }
    slots
}

// 9, of r and the work buffers.
fn lengths_number(
    n_stack: u32,
    values: usize,
    size: usize,
    columns: usize,
    r: usize,
    q: usize,
    eq: usize,
    rot: usize,
    ub: usize,
) -> Result<(), Refusal>
    requires { (n_stack ≤ 20) × (values ≤ 2 ^ 50) × (size ≤ 2 ^ 50) × (columns ≤ 2 ^ 50) }
    ensures { result ≡ answer_of (lengths_number n_stack values size columns r q eq rot ub) }
{
    if r != 4 * (n_stack as usize + 1) {
        return Err(Refusal::WrongLength);
    }
    if q != 4 * values {
        return Err(Refusal::WrongLength);
    }
    if eq != 4 * size {
        return Err(Refusal::WrongLength);
    }
    if rot != 4 * size {
        return Err(Refusal::WrongLength);
    }
    if ub != 4 * columns {
        return Err(Refusal::WrongLength);
    }
    Ok(())
}

// 1, 2, 4 to 7, then 8 where it is not the call's turn, then 9.
pub(crate) fn plan_of(
    given: Given<'_>,
    turned: bool,
    q: usize,
    eq: usize,
    rot: usize,
    ub: usize,
) -> Result<Plan, Refusal>
    ensures { IsPlan (given_of given.entry) (called_number (given_of given.entry) turned (length given.entry.r.now) q eq rot ub) result }
{
    let run = read_lists(given.l_skip, given.n_stack, given.counts, given.lists)?;
    if !turned {
        return Err(Refusal::OutOfTurn);
    }
    run.length?;
    let slots = slots_of(given.l_skip, given.n_stack, given.lists);
    let size = slots[(given.l_skip + given.n_stack + 1) as usize];
    let values = run.stacked << given.n_stack;
    lengths_number(
        given.n_stack,
        values,
        size,
        run.columns,
        given.r.len(),
        q,
        eq,
        rot,
        ub,
    )?;
    Ok(Plan {
        first: run.first,
        columns: run.columns,
        stacked: run.stacked,
        slots,
    })
}
