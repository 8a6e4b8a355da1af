// What a call without work buffers plans afresh, and the number of what it takes: the first polynomial, the trace columns' openings.
ghost use Rattle.std.specs.Prelude.{◌≡◌, ◌+◌, ◌-◌, ◌*◌, ◌^◌, ◌≤◌};
ghost use Rattle.layout.specs.Answers.{answer_of};
ghost use Rattle.prover.specs.Given.{given_of};
ghost use Rattle.prover.specs.CallNumbers.{listed_number, made_words};
ghost use Rattle.prover.specs.MadePlans.{IsMade};

use crate::given::Given;
use crate::words::point_number;
use field::answer::Refusal;
use field::slice::canonical;
use layout::runs::read_lists;

// What was planned: the matrices of the first commitment, and the columns and stack columns of all.
#[derive(Clone, Copy)]
pub(crate) struct Made {
    pub(crate) first: usize,
    pub(crate) columns: usize,
    pub(crate) stacked: usize,
}

// 1, 2, 4 to 7, then 8 where it is not the call's turn, then 9 of the lists.
pub(crate) fn made_plan(given: Given<'_>, turned: bool) -> Result<Made, Refusal>
    ensures { IsMade (given_of given.entry) (listed_number (given_of given.entry) turned) result }
{
    let run = read_lists(given.l_skip, given.n_stack, given.counts, given.lists)?;
    if !turned {
        return Err(Refusal::OutOfTurn);
    }
    run.length?;
    Ok(Made {
        first: run.first,
        columns: run.columns,
        stacked: run.stacked,
    })
}

// The words of the first polynomial's coefficients.
pub(crate) fn coefficient_words(l_skip: u32) -> usize
    requires { l_skip ≤ 10 }
    ensures { result ≡ 4 * (2 ^ (l_skip + 1) - 1) }
{
    let order: usize = 1 << (l_skip + 1);
    4 * (order - 1)
}

// 9 of r, of the stacked matrices and of the slice that is lent for the result, 10 of r, lambda and the matrices.
pub(crate) fn made_number(
    given: Given<'_>,
    stacked: usize,
    asked: usize,
    matrices: &[u32],
    out: usize,
) -> Result<(), Refusal>
    requires { (given.l_skip + given.n_stack ≤ 24) × (stacked ≤ 2 ^ 30) }
    ensures { result ≡ answer_of (made_words given.entry.l_skip given.entry.n_stack stacked asked given.entry.r.now given.entry.lambda matrices.now out) }
{
    if given.r.len() != 4 * (given.n_stack as usize + 1) {
        return Err(Refusal::WrongLength);
    }
    if matrices.len() != stacked << (given.l_skip + given.n_stack) {
        return Err(Refusal::WrongLength);
    }
    if out != asked {
        return Err(Refusal::WrongLength);
    }
    point_number(given)?;
    if !canonical(matrices) {
        return Err(Refusal::NotCanonical);
    }
    Ok(())
}
