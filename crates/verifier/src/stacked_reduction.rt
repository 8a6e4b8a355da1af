// The verdict, from verifier/stacked_reduction.rs.
ghost use Rattle.std.specs.Prelude.{◌≡◌, ◌+◌, ◌*◌};
ghost use Rattle.field.specs.Element.{F};
ghost use Rattle.field.specs.Slice.{elem_at};
ghost use Rattle.tables.specs.Points.{coordinates};
ghost use Rattle.tables.specs.OnSlices.{value_of};
ghost use Rattle.weights.specs.AtField.{carried_f, final_sum_f};
ghost use Rattle.weights.specs.RunOf.{run_of};
ghost use Rattle.verifier.specs.Asked.{asked_of};
ghost use Rattle.verifier.specs.Walked.{Placed};
ghost use Rattle.verifier.specs.Verdicts.{refused_sides, last_verdict, verdict, observed_values};

use crate::asked::Asked;
use crate::claims::weighted_claims;
use crate::final_sum::final_sum;
use crate::observed::observe;
use crate::rounds::{carried_claim, first_sum};
use crate::shapes::{Shape, shape_of};
use field::answer::Refusal;
use field::element::same;

// The answer beside both sides: of 13 s_0 and s_0_sum_eval, of 14 and of a yes claim and final_sum, else zeros.
#[derive(Clone, Copy)]
pub struct Verdict {
    pub answer: Result<(), Refusal>,
    pub left: [u32; 4],
    pub right: [u32; 4],
}

fn refused(refusal: Refusal) -> Verdict
    ensures { result ≡ refused_sides refusal }
{
    Verdict {
        answer: Err(refusal),
        left: [0, 0, 0, 0],
        right: [0, 0, 0, 0],
    }
}

// 14 or a yes.
fn last_verdict(asked: Asked<'_>, shape: Shape) -> Verdict
    requires { Placed asked.l_skip asked.n_stack shape.first asked.lists.now shape.columns asked.r.now asked.challenges.now }
    ensures { result ≡ last_verdict (carried_f (value_of asked.entry.coefficients.now (elem_at asked.entry.challenges.now 0)) (λ j. elem_at asked.entry.pairs.now (2 * j)) (λ j. elem_at asked.entry.pairs.now (2 * j + 1)) (λ j. elem_at asked.entry.challenges.now (1 + j)) asked.entry.n_stack) (final_sum_f (run_of asked.entry.l_skip asked.entry.n_stack shape.first asked.entry.lists.now asked.entry.r.now asked.entry.lambda) (elem_at asked.entry.challenges.now 0) (coordinates asked.entry.challenges.now 1 asked.entry.n_stack) (elem_at asked.entry.openings.now)) }
{
    let claim = carried_claim(
        asked.coefficients,
        asked.pairs,
        asked.challenges,
        asked.n_stack as usize,
    );
    let sum = final_sum(asked, shape);
    let answer = if same(claim, sum) {
        Ok(())
    } else {
        Err(Refusal::FinalSumMismatch)
    };
    Verdict {
        answer,
        left: claim,
        right: sum,
    }
}

// The verdict; `observed` is lent for the observed values.
pub fn verify_stacked_reduction(asked: Asked<'_>, observed: &mut [u32]) -> Verdict
    ensures value { result ≡ verdict (asked_of asked.entry observed.old) }
    ensures observed_after { observed.new ≡ observed_values (asked_of asked.entry observed.old) }
{
    let shape = match shape_of(asked, observed) {
        Ok(shape) => shape,
        Err(refusal) => return refused(refusal),
    };
    let s_0 = weighted_claims(asked, shape);
    let s_0_sum_eval = first_sum(asked.l_skip, asked.coefficients);
    if !same(s_0, s_0_sum_eval) {
        return Verdict {
            answer: Err(Refusal::S0Mismatch),
            left: s_0,
            right: s_0_sum_eval,
        };
    }
    observe(asked.coefficients, asked.pairs, asked.openings, observed);
    last_verdict(asked, shape)
}
