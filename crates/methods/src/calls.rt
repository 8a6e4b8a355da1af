// The calls of a run by the methods of `StackedReduction`, on the buffers as they are handed on: each promises the step of the call
// by value, with the turn that the run then has, and the buffers as they stand there.
ghost use Rattle.std.specs.Prelude.{◌≡◌};
ghost use Rattle.prover.specs.Given.{given_of, work};
ghost use Rattle.prover.specs.Calls.{start_step, start_work, uni_step, uni_work, pair_step, fold_step, fold_work, openings_step, openings_out};
ghost use Rattle.prover.specs.FirstCalls.{first_step, first_out};
ghost use Rattle.turns.specs.Steps.{stepped, paired};

use field::answer::Refusal;
use prover::given::Given;
use turns::stacked_reduction::{SentPair, StackedReduction};

pub(crate) fn start(
    run: &mut StackedReduction,
    given: Given<'_>,
    q_evals: &mut [u32],
    eq_r: &mut [u32],
    k_rot_r: &mut [u32],
    eq_ub: &mut [u32],
) -> Result<(), Refusal>
    ensures { (stepped result run.new.turn ≡ start_step (given_of given.entry) run.old.turn (work q_evals.old eq_r.old k_rot_r.old eq_ub.old)) × (work q_evals.new eq_r.new k_rot_r.new eq_ub.new ≡ start_work (given_of given.entry) (work q_evals.old eq_r.old k_rot_r.old eq_ub.old)) }
{
    run.start(given, q_evals, eq_r, k_rot_r, eq_ub)
}

pub(crate) fn batch_sumcheck_uni_round0_poly(
    run: &mut StackedReduction,
    given: Given<'_>,
    matrices: &[u32],
    out: &mut [u32],
) -> Result<(), Refusal>
    ensures { (stepped result run.new.turn ≡ first_step (given_of given.entry) run.old.turn matrices.now out.old) × (out.new ≡ first_out (given_of given.entry) run.old.turn matrices.now out.old) }
{
    run.batch_sumcheck_uni_round0_poly(given, matrices, out)
}

pub(crate) fn fold_ple_evals(
    run: &mut StackedReduction,
    given: Given<'_>,
    matrices: &[u32],
    u_0: [u32; 4],
    q_evals: &mut [u32],
    eq_r: &mut [u32],
    k_rot_r: &mut [u32],
    eq_ub: &[u32],
) -> Result<(), Refusal>
    ensures { (stepped result run.new.turn ≡ uni_step (given_of given.entry) run.old.turn matrices.now u_0 (work q_evals.old eq_r.old k_rot_r.old eq_ub.now)) × (work q_evals.new eq_r.new k_rot_r.new eq_ub.now ≡ uni_work (given_of given.entry) run.old.turn matrices.now u_0 (work q_evals.old eq_r.old k_rot_r.old eq_ub.now)) }
{
    run.fold_ple_evals(given, matrices, u_0, q_evals, eq_r, k_rot_r, eq_ub)
}

pub(crate) fn batch_sumcheck_poly_eval(
    run: &mut StackedReduction,
    given: Given<'_>,
    round: u32,
    q_evals: &[u32],
    eq_r: &[u32],
    k_rot_r: &[u32],
    eq_ub: &[u32],
) -> Result<SentPair, Refusal>
    ensures { paired result run.new.turn ≡ pair_step (given_of given.entry) run.old.turn round (work q_evals.now eq_r.now k_rot_r.now eq_ub.now) }
{
    run.batch_sumcheck_poly_eval(given, round, q_evals, eq_r, k_rot_r, eq_ub)
}

pub(crate) fn fold_mle_evals(
    run: &mut StackedReduction,
    given: Given<'_>,
    round: u32,
    u: [u32; 4],
    q_evals: &mut [u32],
    eq_r: &mut [u32],
    k_rot_r: &mut [u32],
    eq_ub: &mut [u32],
) -> Result<(), Refusal>
    ensures { (stepped result run.new.turn ≡ fold_step (given_of given.entry) run.old.turn round u (work q_evals.old eq_r.old k_rot_r.old eq_ub.old)) × (work q_evals.new eq_r.new k_rot_r.new eq_ub.new ≡ fold_work (given_of given.entry) run.old.turn round u (work q_evals.old eq_r.old k_rot_r.old eq_ub.old)) }
{
    run.fold_mle_evals(given, round, u, q_evals, eq_r, k_rot_r, eq_ub)
}

pub(crate) fn into_stacked_openings(
    run: &mut StackedReduction,
    given: Given<'_>,
    q_evals: &[u32],
    eq_r: &[u32],
    k_rot_r: &[u32],
    eq_ub: &[u32],
    out: &mut [u32],
) -> Result<(), Refusal>
    ensures { (stepped result run.new.turn ≡ openings_step (given_of given.entry) run.old.turn out.old (work q_evals.now eq_r.now k_rot_r.now eq_ub.now)) × (out.new ≡ openings_out (given_of given.entry) run.old.turn out.old (work q_evals.now eq_r.now k_rot_r.now eq_ub.now)) }
{
    run.into_stacked_openings(given, q_evals, eq_r, k_rot_r, eq_ub, out)
}
