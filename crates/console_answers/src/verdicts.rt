// The verdict on what is held, and what it observed.
use console_lines::memory::{Held, Words};
use console_lines::replies::{Outcome, Refusal, Reply};
use field::answer;
use verifier::asked::Asked;
use verifier::stacked_reduction::{Verdict, verify_stacked_reduction};

// The slice that is observed in is lent as the last verdict left it.
fn judged(held: &mut Held) -> Result<Verdict, Refusal> {
    let out = held.observed.lent(held.lengths.observed)?;
    let lambda = held.lambda;
    let asked = Asked {
        l_skip: held.shape.l_skip,
        n_stack: held.shape.n_stack,
        counts: held.shape.counts.given(),
        lists: held.shape.triples.given(),
        r: held.point.given(),
        lambda,
        challenges: held.sent.challenges.given(),
        claims: held.sent.claims.given(),
        coefficients: held.sent.first.given(),
        pairs: held.sent.pairs.given(),
        openings: held.sent.opened.given(),
    };
    Ok(verify_stacked_reduction(asked, out))
}

// verdict: a yes, or a refusal with both sides where it has them.
pub fn verdict(held: &mut Held, words: &mut Words) -> Outcome {
    let verdict = judged(held)?;
    let left = verdict.left;
    let right = verdict.right;
    match verdict.answer {
        Ok(()) => Ok(Reply::Yes),
        Err(why @ (answer::Refusal::S0Mismatch | answer::Refusal::FinalSumMismatch)) => {
            words.grow(&left);
            words.grow(&right);
            Err(Refusal::Sides(why))
        }
        Err(why) => Err(why.into()),
    }
}

// observed
pub fn observed(held: &Held, words: &mut Words) -> Outcome {
    words.grow(held.observed.given());
    Ok(Reply::Done)
}
