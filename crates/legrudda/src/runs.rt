// The calls of a run. The turn goes in and comes back as the number of the accepted calls.
ghost use Rattle.std.specs.Prelude.{◌≡◌};
ghost use Rattle.field.specs.Number.{number_of};
ghost use Rattle.prover.specs.Given.{given, work};
ghost use Rattle.prover.specs.Turns.{after};
ghost use Rattle.prover.specs.Calls.{start_step, start_work, uni_step, uni_work, pair_step, fold_step, fold_work, openings_step, openings_out};
ghost use Rattle.prover.specs.FirstCalls.{first_step, first_out, claims_answer, claims_out};
ghost use Rattle.legrudda.specs.Exported.{stepped_of, pair_stepped_of};

use crate::elements::Element;
use field::answer;
use prover::given::Given;
use prover::stacked_reduction;
use prover::stacked_reduction::{RoundPair, Step};
use prover::turns::Turn;

// The number of the answer, 0 for done, beside the turn.
#[repr(C)]
#[derive(Clone, Copy)]
pub struct Stepped {
    pub number: u32,
    pub turn: u32,
}

// The same beside the values at 1 and 2, zeros where refused.
#[repr(C)]
#[derive(Clone, Copy)]
pub struct PairStepped {
    pub number: u32,
    pub turn: u32,
    pub at_1: Element,
    pub at_2: Element,
}

impl From<Step> for Stepped {
    ghost from_gives = { λ step stepped. stepped ≡ stepped_of step };

    fn from(step: Step) -> Stepped {
        Stepped {
            number: answer::number(step.answer),
            turn: step.turn.calls,
        }
    }
}

impl From<RoundPair> for PairStepped {
    ghost from_gives = { λ step stepped. stepped ≡ pair_stepped_of step };

    fn from(step: RoundPair) -> PairStepped {
        let one = step.one;
        let two = step.two;
        PairStepped {
            number: answer::number(step.answer),
            turn: step.turn.calls,
            at_1: Element { words: one },
            at_2: Element { words: two },
        }
    }
}

#[unsafe(no_mangle)]
pub extern "C" fn legrudda_start<'a>(
    turn: u32,
    l_skip: u32,
    n_stack: u32,
    counts: &'a [u32],
    lists: &'a [u32],
    r: &'a [u32],
    lambda: Element,
    q_evals: &mut [u32],
    eq_r: &mut [u32],
    k_rot_r: &mut [u32],
    eq_ub: &mut [u32],
) -> Stepped
    ensures value { result ≡ stepped_of (start_step (given l_skip n_stack counts.now lists.now r.now lambda.words) (after turn) (work q_evals.old eq_r.old k_rot_r.old eq_ub.old)) }
    ensures eq_ub_after { work q_evals.new eq_r.new k_rot_r.new eq_ub.new ≡ start_work (given l_skip n_stack counts.now lists.now r.now lambda.words) (work q_evals.old eq_r.old k_rot_r.old eq_ub.old) }
{
    let lambda = lambda.words;
    let given = Given {
        l_skip,
        n_stack,
        counts,
        lists,
        r,
        lambda,
    };
    stacked_reduction::new(given, Turn { calls: turn }, q_evals, eq_r, k_rot_r, eq_ub).into()
}

#[unsafe(no_mangle)]
pub extern "C" fn legrudda_first_polynomial<'a>(
    turn: u32,
    l_skip: u32,
    n_stack: u32,
    counts: &'a [u32],
    lists: &'a [u32],
    r: &'a [u32],
    lambda: Element,
    matrices: &[u32],
    out: &mut [u32],
) -> Stepped
    ensures value { result ≡ stepped_of (first_step (given l_skip n_stack counts.now lists.now r.now lambda.words) (after turn) matrices.now out.old) }
    ensures out_after { out.new ≡ first_out (given l_skip n_stack counts.now lists.now r.now lambda.words) (after turn) matrices.now out.old }
{
    let lambda = lambda.words;
    let given = Given {
        l_skip,
        n_stack,
        counts,
        lists,
        r,
        lambda,
    };
    stacked_reduction::batch_sumcheck_uni_round0_poly(
        given,
        Turn { calls: turn },
        matrices,
        out,
    ).into()
}

// The openings of the trace columns have no turn: the number alone.
#[unsafe(no_mangle)]
pub extern "C" fn legrudda_column_openings<'a>(
    l_skip: u32,
    n_stack: u32,
    counts: &'a [u32],
    lists: &'a [u32],
    r: &'a [u32],
    lambda: Element,
    matrices: &[u32],
    out: &mut [u32],
) -> u32
    ensures value { result ≡ number_of (claims_answer (given l_skip n_stack counts.now lists.now r.now lambda.words) matrices.now out.old) }
    ensures out_after { out.new ≡ claims_out (given l_skip n_stack counts.now lists.now r.now lambda.words) matrices.now out.old }
{
    let lambda = lambda.words;
    let given = Given {
        l_skip,
        n_stack,
        counts,
        lists,
        r,
        lambda,
    };
    answer::number(stacked_reduction::column_openings(given, matrices, out))
}

#[unsafe(no_mangle)]
pub extern "C" fn legrudda_fold_ple_evals<'a>(
    turn: u32,
    l_skip: u32,
    n_stack: u32,
    counts: &'a [u32],
    lists: &'a [u32],
    r: &'a [u32],
    lambda: Element,
    matrices: &[u32],
    u_0: Element,
    q_evals: &mut [u32],
    eq_r: &mut [u32],
    k_rot_r: &mut [u32],
    eq_ub: &[u32],
) -> Stepped
    ensures value { result ≡ stepped_of (uni_step (given l_skip n_stack counts.now lists.now r.now lambda.words) (after turn) matrices.now u_0.words (work q_evals.old eq_r.old k_rot_r.old eq_ub.now)) }
    ensures eq_ub_after { work q_evals.new eq_r.new k_rot_r.new eq_ub.now ≡ uni_work (given l_skip n_stack counts.now lists.now r.now lambda.words) (after turn) matrices.now u_0.words (work q_evals.old eq_r.old k_rot_r.old eq_ub.now) }
{
    let lambda = lambda.words;
    let given = Given {
        l_skip,
        n_stack,
        counts,
        lists,
        r,
        lambda,
    };
    stacked_reduction::fold_ple_evals(
        given,
        Turn { calls: turn },
        matrices,
        u_0.words,
        q_evals,
        eq_r,
        k_rot_r,
        eq_ub,
    )
    .into()
}

#[unsafe(no_mangle)]
pub extern "C" fn legrudda_round_pair<'a>(
    turn: u32,
    l_skip: u32,
    n_stack: u32,
    counts: &'a [u32],
    lists: &'a [u32],
    r: &'a [u32],
    lambda: Element,
    round: u32,
    q_evals: &[u32],
    eq_r: &[u32],
    k_rot_r: &[u32],
    eq_ub: &[u32],
) -> PairStepped
    ensures { result ≡ pair_stepped_of (pair_step (given l_skip n_stack counts.now lists.now r.now lambda.words) (after turn) round (work q_evals.now eq_r.now k_rot_r.now eq_ub.now)) }
{
    let lambda = lambda.words;
    let given = Given {
        l_skip,
        n_stack,
        counts,
        lists,
        r,
        lambda,
    };
    stacked_reduction::batch_sumcheck_poly_eval(
        given,
        Turn { calls: turn },
        round,
        q_evals,
        eq_r,
        k_rot_r,
        eq_ub,
    )
    .into()
}

#[unsafe(no_mangle)]
pub extern "C" fn legrudda_fold_mle_evals<'a>(
    turn: u32,
    l_skip: u32,
    n_stack: u32,
    counts: &'a [u32],
    lists: &'a [u32],
    r: &'a [u32],
    lambda: Element,
    round: u32,
    u: Element,
    q_evals: &mut [u32],
    eq_r: &mut [u32],
    k_rot_r: &mut [u32],
    eq_ub: &mut [u32],
) -> Stepped
    ensures value { result ≡ stepped_of (fold_step (given l_skip n_stack counts.now lists.now r.now lambda.words) (after turn) round u.words (work q_evals.old eq_r.old k_rot_r.old eq_ub.old)) }
    ensures eq_ub_after { work q_evals.new eq_r.new k_rot_r.new eq_ub.new ≡ fold_work (given l_skip n_stack counts.now lists.now r.now lambda.words) (after turn) round u.words (work q_evals.old eq_r.old k_rot_r.old eq_ub.old) }
{
    let lambda = lambda.words;
    let given = Given {
        l_skip,
        n_stack,
        counts,
        lists,
        r,
        lambda,
    };
    stacked_reduction::fold_mle_evals(
        given,
        Turn { calls: turn },
        round,
        u.words,
        q_evals,
        eq_r,
        k_rot_r,
        eq_ub,
    )
    .into()
}

#[unsafe(no_mangle)]
pub extern "C" fn legrudda_openings<'a>(
    turn: u32,
    l_skip: u32,
    n_stack: u32,
    counts: &'a [u32],
    lists: &'a [u32],
    r: &'a [u32],
    lambda: Element,
    q_evals: &[u32],
    eq_r: &[u32],
    k_rot_r: &[u32],
    eq_ub: &[u32],
    out: &mut [u32],
) -> Stepped
    ensures value { result ≡ stepped_of (openings_step (given l_skip n_stack counts.now lists.now r.now lambda.words) (after turn) out.old (work q_evals.now eq_r.now k_rot_r.now eq_ub.now)) }
    ensures out_after { out.new ≡ openings_out (given l_skip n_stack counts.now lists.now r.now lambda.words) (after turn) out.old (work q_evals.now eq_r.now k_rot_r.now eq_ub.now) }
{
    let lambda = lambda.words;
    let given = Given {
        l_skip,
        n_stack,
        counts,
        lists,
        r,
        lambda,
    };
    stacked_reduction::into_stacked_openings(
        given,
        Turn { calls: turn },
        q_evals,
        eq_r,
        k_rot_r,
        eq_ub,
        out,
    )
    .into()
}
