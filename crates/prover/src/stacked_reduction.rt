// The calls of a run, from prover/stacked_reduction.rs. Each plans afresh from the lists it is given; a refused one changes
// nothing and leaves the turn.
ghost use Rattle.std.specs.Prelude.{◌≡◌, ◌≤◌, true, not};
ghost use Rattle.field.specs.Element.{F, words_of};
ghost use Rattle.prover.specs.Given.{given_of, work};
ghost use Rattle.prover.specs.CallNumbers.{IsPlan, round_number};
ghost use Rattle.prover.specs.Calls.{one_more, start_step, start_work, uni_step, uni_work, pair_step, fold_step, fold_work, openings_step, openings_out};
ghost use Rattle.prover.specs.FirstCalls.{first_step, first_out, claims_answer, claims_out};

use crate::claims::column_claims;
use crate::column_weights::fold_weights;
use crate::elements::{copy_elements, fill};
use crate::first::first_polynomial;
use crate::given::Given;
use crate::heights::{Heights, fold_tables, scale_tables, start_tables};
use crate::made::{coefficient_words, made_number, made_plan};
use crate::pairs::{RoundInput, round_pair};
use crate::plans::{Plan, plan_of};
use crate::sumcheck;
use crate::turns::{Turn, in_round};
use crate::words::{live_number, openings_number, point_number, uni_number};
use field::answer::Refusal;
use field::slice::canonical_four;
use weights::claims::claim_count;

// The answer beside the turn.
#[derive(Clone, Copy)]
pub struct Step {
    pub answer: Result<(), Refusal>,
    pub turn: Turn,
}

// The answer beside the turn and the values at 1 and 2, zeros where refused.
#[derive(Clone, Copy)]
pub struct RoundPair {
    pub answer: Result<(), Refusal>,
    pub turn: Turn,
    pub one: [u32; 4],
    pub two: [u32; 4],
}

// A call that is not done: why, and the turn as it was.
fn refused(refusal: Refusal, turn: Turn) -> Step
    ensures { result ≡ record { answer = Err refusal; turn = turn } }
{
    Step {
        answer: Err(refusal),
        turn,
    }
}

// A call that is done: one more was accepted.
fn one_more(turn: Turn) -> Step
    requires { turn.calls ≤ 43 }
    ensures { result ≡ record { answer = Ok tt; turn = one_more turn } }
{
    let calls = turn.calls + 1;
    Step {
        answer: Ok(()),
        turn: Turn { calls },
    }
}

fn refused_pair(refusal: Refusal, turn: Turn) -> RoundPair
    ensures { result ≡ record { answer = Err refusal; turn = turn; one = words_of F.zero; two = words_of F.zero } }
{
    RoundPair {
        answer: Err(refusal),
        turn,
        one: [0, 0, 0, 0],
        two: [0, 0, 0, 0],
    }
}

// Start.
pub fn new(
    given: Given<'_>,
    turn: Turn,
    q_evals: &mut [u32],
    eq_r: &mut [u32],
    k_rot_r: &mut [u32],
    eq_ub: &mut [u32],
) -> Step
    ensures value { result ≡ start_step (given_of given.entry) turn (work q_evals.old eq_r.old k_rot_r.old eq_ub.old) }
    ensures eq_ub_after { work q_evals.new eq_r.new k_rot_r.new eq_ub.new ≡ start_work (given_of given.entry) (work q_evals.old eq_r.old k_rot_r.old eq_ub.old) }
{
    let plan = match plan_of(
        given,
        true,
        q_evals.len(),
        eq_r.len(),
        k_rot_r.len(),
        eq_ub.len(),
    ) {
        Ok(plan) => plan,
        Err(refusal) => return refused(refusal, turn),
    };
    if let Err(refusal) = point_number(given) {
        return refused(refusal, turn);
    }
    let heights = Heights {
        l_skip: given.l_skip,
        n_stack: given.n_stack,
        lists: given.lists,
        slots: &plan.slots,
    };
    let size = k_rot_r.len() / 4;
    fill(q_evals, 0, plan.stacked << given.n_stack, [0, 0, 0, 0]);
    start_tables(heights, given.r, eq_r);
    fill(k_rot_r, 0, size, [0, 0, 0, 0]);
    fill(eq_ub, 0, plan.columns, [1, 0, 0, 0]);
    Step {
        answer: Ok(()),
        turn: Turn { calls: 1 },
    }
}

// The first polynomial, made without the work buffers: its coefficients, the constant one first.
pub fn batch_sumcheck_uni_round0_poly(
    given: Given<'_>,
    turn: Turn,
    matrices: &[u32],
    out: &mut [u32],
) -> Step
    ensures value { result ≡ first_step (given_of given.entry) turn matrices.now out.old }
    ensures out_after { out.new ≡ first_out (given_of given.entry) turn matrices.now out.old }
{
    let plan = match made_plan(given, turn.calls == 1) {
        Ok(plan) => plan,
        Err(refusal) => return refused(refusal, turn),
    };
    let asked = coefficient_words(given.l_skip);
    if let Err(refusal) = made_number(given, plan.stacked, asked, matrices, out.len()) {
        return refused(refusal, turn);
    }
    first_polynomial(given, plan, matrices, out);
    one_more(turn)
}

// The trace columns' openings at r, in the order of a verdict's claims. No opening depends on lambda; it is checked, so that the
// call refuses like the one before.
pub fn column_openings(given: Given<'_>, matrices: &[u32], out: &mut [u32]) -> Result<(), Refusal>
    ensures value { result ≡ claims_answer (given_of given.entry) matrices.now out.old }
    ensures out_after { out.new ≡ claims_out (given_of given.entry) matrices.now out.old }
{
    let plan = made_plan(given, true)?;
    let claims = claim_count(
        given.l_skip,
        given.n_stack,
        plan.first,
        given.lists,
        plan.columns,
    );
    made_number(given, plan.stacked, 4 * claims, matrices, out.len())?;
    column_claims(given, plan, matrices, out);
    Ok(())
}

// The fold at u_0.
pub fn fold_ple_evals(
    given: Given<'_>,
    turn: Turn,
    matrices: &[u32],
    u_0: [u32; 4],
    q_evals: &mut [u32],
    eq_r: &mut [u32],
    k_rot_r: &mut [u32],
    eq_ub: &[u32],
) -> Step
    ensures value { result ≡ uni_step (given_of given.entry) turn matrices.now u_0 (work q_evals.old eq_r.old k_rot_r.old eq_ub.now) }
    ensures eq_ub_after { work q_evals.new eq_r.new k_rot_r.new eq_ub.now ≡ uni_work (given_of given.entry) turn matrices.now u_0 (work q_evals.old eq_r.old k_rot_r.old eq_ub.now) }
{
    let plan = match plan_of(
        given,
        turn.calls == 2,
        q_evals.len(),
        eq_r.len(),
        k_rot_r.len(),
        eq_ub.len(),
    ) {
        Ok(plan) => plan,
        Err(refusal) => return refused(refusal, turn),
    };
    if let Err(refusal) = uni_number(given, plan.stacked, matrices, u_0, eq_r) {
        return refused(refusal, turn);
    }
    let heights = Heights {
        l_skip: given.l_skip,
        n_stack: given.n_stack,
        lists: given.lists,
        slots: &plan.slots,
    };
    let calls = turn.calls + 1;
    if !sumcheck::fold_ple_evals(
        given.l_skip,
        matrices,
        u_0,
        q_evals,
        plan.stacked << given.n_stack,
    ) {
        return refused(Refusal::NotCanonical, turn);
    }
    scale_tables(heights, given.r, u_0, eq_r, k_rot_r);
    Step {
        answer: Ok(()),
        turn: Turn { calls },
    }
}

// What a call of a round plans and checks: 1 to 10 but of its challenge.
fn round_plan(
    given: Given<'_>,
    turned: bool,
    round: u32,
    q_evals: &[u32],
    eq_r: &[u32],
    k_rot_r: &[u32],
    eq_ub: &[u32],
) -> Result<Plan, Refusal>
    requires { turned ≡ true → (1 ≤ round) × (round ≤ given.n_stack) }
    ensures { IsPlan (given_of given.entry) (round_number (given_of given.entry) turned round (work q_evals.now eq_r.now k_rot_r.now eq_ub.now)) result }
{
    let plan = plan_of(
        given,
        turned,
        q_evals.len(),
        eq_r.len(),
        k_rot_r.len(),
        eq_ub.len(),
    )?;
    point_number(given)?;
    let heights = Heights {
        l_skip: given.l_skip,
        n_stack: given.n_stack,
        lists: given.lists,
        slots: &plan.slots,
    };
    live_number(
        heights,
        plan.stacked,
        round - 1,
        q_evals,
        eq_r,
        k_rot_r,
        eq_ub,
    )?;
    Ok(plan)
}

// The pair of a round.
pub fn batch_sumcheck_poly_eval(
    given: Given<'_>,
    turn: Turn,
    round: u32,
    q_evals: &[u32],
    eq_r: &[u32],
    k_rot_r: &[u32],
    eq_ub: &[u32],
) -> RoundPair
    ensures { result ≡ pair_step (given_of given.entry) turn round (work q_evals.now eq_r.now k_rot_r.now eq_ub.now) }
{
    let turned = in_round(turn, given.n_stack, round, 2 * round as usize + 1);
    let plan = match round_plan(given, turned, round, q_evals, eq_r, k_rot_r, eq_ub) {
        Ok(plan) => plan,
        Err(refusal) => return refused_pair(refusal, turn),
    };
    let calls = turn.calls + 1;
    let lambda = given.lambda;
    let input = RoundInput {
        l_skip: given.l_skip,
        n_stack: given.n_stack,
        first: plan.first,
        lists: given.lists,
        columns: plan.columns,
        stacked: plan.stacked,
        slots: &plan.slots,
        lambda,
        round,
        q: q_evals,
        eq: eq_r,
        k_rot: k_rot_r,
        ub: eq_ub,
    };
    let pair = round_pair(input);
    let one = pair.one;
    let two = pair.two;
    RoundPair {
        answer: Ok(()),
        turn: Turn { calls },
        one,
        two,
    }
}

// The fold of a round.
pub fn fold_mle_evals(
    given: Given<'_>,
    turn: Turn,
    round: u32,
    u: [u32; 4],
    q_evals: &mut [u32],
    eq_r: &mut [u32],
    k_rot_r: &mut [u32],
    eq_ub: &mut [u32],
) -> Step
    ensures value { result ≡ fold_step (given_of given.entry) turn round u (work q_evals.old eq_r.old k_rot_r.old eq_ub.old) }
    ensures eq_ub_after { work q_evals.new eq_r.new k_rot_r.new eq_ub.new ≡ fold_work (given_of given.entry) turn round u (work q_evals.old eq_r.old k_rot_r.old eq_ub.old) }
{
    let turned = in_round(turn, given.n_stack, round, 2 * round as usize + 2);
    let plan = match round_plan(given, turned, round, q_evals, eq_r, k_rot_r, eq_ub) {
        Ok(plan) => plan,
        Err(refusal) => return refused(refusal, turn),
    };
    if !canonical_four(u) {
        return refused(Refusal::NotCanonical, turn);
    }
    let Given {
        l_skip,
        n_stack,
        lists,
        ..
    } = given;
    let heights = Heights {
        l_skip,
        n_stack,
        lists,
        slots: &plan.slots,
    };
    sumcheck::fold_mle_evals(q_evals, 0, plan.stacked << (n_stack - round), u);
    fold_tables(heights, round, u, eq_r);
    fold_tables(heights, round, u, k_rot_r);
    fold_weights(
        l_skip,
        n_stack,
        plan.first,
        lists,
        plan.columns,
        round,
        u,
        eq_ub,
    );
    one_more(turn)
}

// The openings.
pub fn into_stacked_openings(
    given: Given<'_>,
    turn: Turn,
    q_evals: &[u32],
    eq_r: &[u32],
    k_rot_r: &[u32],
    eq_ub: &[u32],
    out: &mut [u32],
) -> Step
    ensures value { result ≡ openings_step (given_of given.entry) turn out.old (work q_evals.now eq_r.now k_rot_r.now eq_ub.now) }
    ensures out_after { out.new ≡ openings_out (given_of given.entry) turn out.old (work q_evals.now eq_r.now k_rot_r.now eq_ub.now) }
{
    let plan = match plan_of(
        given,
        turn.calls as usize == 2 * given.n_stack as usize + 3,
        q_evals.len(),
        eq_r.len(),
        k_rot_r.len(),
        eq_ub.len(),
    ) {
        Ok(plan) => plan,
        Err(refusal) => return refused(refusal, turn),
    };
    if let Err(refusal) = openings_number(given, plan.stacked, out.len(), q_evals) {
        return refused(refusal, turn);
    }
    let calls = turn.calls + 1;
    copy_elements(q_evals, out, plan.stacked);
    Step {
        answer: Ok(()),
        turn: Turn { calls },
    }
}
