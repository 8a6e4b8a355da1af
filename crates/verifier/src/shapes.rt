// Document 01's numbers 1 to 10 for a verdict, in their order.
ghost use Rattle.std.specs.Prelude.{◌≡◌, ◌^◌, ◌≤◌, length};
ghost use Rattle.layout.specs.Answers.{answer_of};
ghost use Rattle.verifier.specs.Asked.{asked_of};
ghost use Rattle.verifier.specs.Numbers.{slices_number, words_number, IsShape};

use crate::asked::Asked;
use field::answer::Refusal;
use field::slice::{canonical, canonical_four};
use layout::runs::read_lists;
use weights::claims::claim_count;

// A verdict's shape: the matrices of the first commitment and the columns of all.
#[derive(Clone, Copy)]
pub(crate) struct Shape {
    pub(crate) first: usize,
    pub(crate) columns: usize,
}

// 9, of the slices; `claims` is the number of claims that are asked.
fn slices_number(
    asked: Asked<'_>,
    stacked: usize,
    claims: usize,
    observed: usize,
) -> Result<(), Refusal>
    requires { (asked.l_skip ≤ 10) × (asked.n_stack ≤ 20) × (stacked ≤ 2 ^ 32) × (claims ≤ 2 ^ 32) }
    ensures { result ≡ answer_of (slices_number asked.entry.l_skip asked.entry.n_stack stacked claims (length asked.entry.r.now) (length asked.entry.challenges.now) (length asked.entry.claims.now) (length asked.entry.coefficients.now) (length asked.entry.pairs.now) (length asked.entry.openings.now) observed) }
{
    let n = asked.n_stack as usize;
    let order: usize = 1 << (asked.l_skip + 1);
    let coefficients = asked.coefficients.len();
    let pairs = asked.pairs.len();
    let openings = asked.openings.len();
    if asked.r.len() != 4 * (n + 1)
        || asked.challenges.len() != 4 * (n + 1)
        || asked.claims.len() != 4 * claims
        || coefficients != 4 * (order - 1)
        || pairs != 8 * n
        || openings != 4 * stacked
        || observed != coefficients + pairs + openings
    {
        return Err(Refusal::WrongLength);
    }
    Ok(())
}

// 10.
fn words_number(asked: Asked<'_>) -> Result<(), Refusal>
    ensures { result ≡ answer_of (words_number asked.entry.r.now asked.entry.lambda asked.entry.challenges.now asked.entry.claims.now asked.entry.coefficients.now asked.entry.pairs.now asked.entry.openings.now) }
{
    if !canonical(asked.r)
        || !canonical_four(asked.lambda)
        || !canonical(asked.challenges)
        || !canonical(asked.claims)
        || !canonical(asked.coefficients)
        || !canonical(asked.pairs)
        || !canonical(asked.openings)
    {
        return Err(Refusal::NotCanonical);
    }
    Ok(())
}

pub(crate) fn shape_of(asked: Asked<'_>, observed: &[u32]) -> Result<Shape, Refusal>
    ensures { IsShape (asked_of asked.entry observed.now) result }
{
    let run = read_lists(asked.l_skip, asked.n_stack, asked.counts, asked.lists)?;
    run.length?;
    let asks = claim_count(
        asked.l_skip,
        asked.n_stack,
        run.first,
        asked.lists,
        run.columns,
    );
    slices_number(asked, run.stacked, asks, observed.len())?;
    words_number(asked)?;
    Ok(Shape {
        first: run.first,
        columns: run.columns,
    })
}
