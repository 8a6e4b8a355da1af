// The prover's turn lent by `&mut self`, as in prover/stacked_reduction.rs: each method hands the turn to the call that takes it
// by value, and keeps the turn that comes back. The work buffers stay with the caller.
ghost use Rattle.std.specs.Prelude.{◌≡◌};
ghost use Rattle.prover.specs.Given.{given_of, work};
ghost use Rattle.prover.specs.Turns.{after};
ghost use Rattle.prover.specs.Calls.{start_step, start_work, uni_step, uni_work, pair_step, fold_step, fold_work, openings_step, openings_out};
ghost use Rattle.prover.specs.FirstCalls.{first_step, first_out};
ghost use Rattle.turns.specs.Steps.{stepped, paired};

use field::answer::Refusal;
use prover::given::Given;
use prover::stacked_reduction;
use prover::turns::Turn;

// The state of a run: its turn.
#[derive(Clone, Copy)]
pub struct StackedReduction {
    pub turn: Turn,
}

// A round's pair: the values at 1 and 2.
#[derive(Clone, Copy)]
pub struct SentPair {
    pub one: [u32; 4],
    pub two: [u32; 4],
}

impl StackedReduction {
    // A run of which no call was accepted.
    pub fn new() -> StackedReduction
        ensures { result.turn ≡ after 0 }
    {
        StackedReduction {
            turn: Turn { calls: 0 },
        }
    }

    // Start.
    pub fn start(
        &mut self,
        given: Given<'_>,
        q_evals: &mut [u32],
        eq_r: &mut [u32],
        k_rot_r: &mut [u32],
        eq_ub: &mut [u32],
    ) -> Result<(), Refusal>
        ensures { (stepped result self.new.turn ≡ start_step (given_of given.entry) self.old.turn (work q_evals.old eq_r.old k_rot_r.old eq_ub.old)) × (work q_evals.new eq_r.new k_rot_r.new eq_ub.new ≡ start_work (given_of given.entry) (work q_evals.old eq_r.old k_rot_r.old eq_ub.old)) }
    {
        let step = stacked_reduction::new(given, self.turn, q_evals, eq_r, k_rot_r, eq_ub);
        self.turn = step.turn;
        step.answer
    }

    // The first polynomial.
    pub fn batch_sumcheck_uni_round0_poly(
        &mut self,
        given: Given<'_>,
        matrices: &[u32],
        out: &mut [u32],
    ) -> Result<(), Refusal>
        ensures { (stepped result self.new.turn ≡ first_step (given_of given.entry) self.old.turn matrices.now out.old) × (out.new ≡ first_out (given_of given.entry) self.old.turn matrices.now out.old) }
    {
        let step = stacked_reduction::batch_sumcheck_uni_round0_poly(
            given, self.turn, matrices, out,
        );
        self.turn = step.turn;
        step.answer
    }

    // The fold at u_0.
    pub fn fold_ple_evals(
        &mut self,
        given: Given<'_>,
        matrices: &[u32],
        u_0: [u32; 4],
        q_evals: &mut [u32],
        eq_r: &mut [u32],
        k_rot_r: &mut [u32],
        eq_ub: &[u32],
    ) -> Result<(), Refusal>
        ensures { (stepped result self.new.turn ≡ uni_step (given_of given.entry) self.old.turn matrices.now u_0 (work q_evals.old eq_r.old k_rot_r.old eq_ub.now)) × (work q_evals.new eq_r.new k_rot_r.new eq_ub.now ≡ uni_work (given_of given.entry) self.old.turn matrices.now u_0 (work q_evals.old eq_r.old k_rot_r.old eq_ub.now)) }
    {
        let step = stacked_reduction::fold_ple_evals(
            given, self.turn, matrices, u_0, q_evals, eq_r, k_rot_r, eq_ub,
        );
        self.turn = step.turn;
        step.answer
    }

    // The pair of a round.
    pub fn batch_sumcheck_poly_eval(
        &mut self,
        given: Given<'_>,
        round: u32,
        q_evals: &[u32],
        eq_r: &[u32],
        k_rot_r: &[u32],
        eq_ub: &[u32],
    ) -> Result<SentPair, Refusal>
        ensures { paired result self.new.turn ≡ pair_step (given_of given.entry) self.old.turn round (work q_evals.now eq_r.now k_rot_r.now eq_ub.now) }
    {
        let step = stacked_reduction::batch_sumcheck_poly_eval(
            given, self.turn, round, q_evals, eq_r, k_rot_r, eq_ub,
        );
        self.turn = step.turn;
        step.answer?;
        let one = step.one;
        let two = step.two;
        Ok(SentPair { one, two })
    }

    // The fold of a round.
    pub fn fold_mle_evals(
        &mut self,
        given: Given<'_>,
        round: u32,
        u: [u32; 4],
        q_evals: &mut [u32],
        eq_r: &mut [u32],
        k_rot_r: &mut [u32],
        eq_ub: &mut [u32],
    ) -> Result<(), Refusal>
        ensures { (stepped result self.new.turn ≡ fold_step (given_of given.entry) self.old.turn round u (work q_evals.old eq_r.old k_rot_r.old eq_ub.old)) × (work q_evals.new eq_r.new k_rot_r.new eq_ub.new ≡ fold_work (given_of given.entry) self.old.turn round u (work q_evals.old eq_r.old k_rot_r.old eq_ub.old)) }
    {
        let step = stacked_reduction::fold_mle_evals(
            given, self.turn, round, u, q_evals, eq_r, k_rot_r, eq_ub,
        );
        self.turn = step.turn;
        step.answer
    }

    // The openings.
    pub fn into_stacked_openings(
        &mut self,
        given: Given<'_>,
        q_evals: &[u32],
        eq_r: &[u32],
        k_rot_r: &[u32],
        eq_ub: &[u32],
        out: &mut [u32],
    ) -> Result<(), Refusal>
        ensures { (stepped result self.new.turn ≡ openings_step (given_of given.entry) self.old.turn out.old (work q_evals.now eq_r.now k_rot_r.now eq_ub.now)) × (out.new ≡ openings_out (given_of given.entry) self.old.turn out.old (work q_evals.now eq_r.now k_rot_r.now eq_ub.now)) }
    {
        let step = stacked_reduction::into_stacked_openings(
            given, self.turn, q_evals, eq_r, k_rot_r, eq_ub, out,
        );
        self.turn = step.turn;
        step.answer
    }
}
