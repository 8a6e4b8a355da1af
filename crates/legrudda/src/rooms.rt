// What a run over given lists and the verdict on it are lent.
ghost use Rattle.std.specs.Prelude.{◌≡◌};
ghost use Rattle.prover.specs.Rooms.{run_room};
ghost use Rattle.verifier.specs.Rooms.{verdict_room};
ghost use Rattle.legrudda.specs.Exported.{refused_room, taken_room, room_of};

use field::answer::Refusal;
use prover::rooms::{RunRoom, run_room};
use verifier::rooms::{VerdictRoom, verdict_room};

// The number of the lists, and where it is 0 the words of each slice. k_rot_r is as long as eq_r.
#[repr(C)]
#[derive(Clone, Copy)]
pub struct Room {
    pub number: u32,
    pub r: usize,
    pub q_evals: usize,
    pub eq_r: usize,
    pub eq_ub: usize,
    pub matrices: usize,
    pub openings: usize,
    pub challenges: usize,
    pub claims: usize,
    pub coefficients: usize,
    pub pairs: usize,
    pub observed: usize,
}

// Of lists that are refused.
fn refused(refusal: Refusal) -> Room
    ensures { result ≡ refused_room refusal }
{
    Room {
        number: refusal.into(),
        r: 0,
        q_evals: 0,
        eq_r: 0,
        eq_ub: 0,
        matrices: 0,
        openings: 0,
        challenges: 0,
        claims: 0,
        coefficients: 0,
        pairs: 0,
        observed: 0,
    }
}

// The lengths of the run, and those of the verdict that the run has not.
fn taken(run: RunRoom, verdict: VerdictRoom) -> Room
    ensures { result ≡ taken_room run verdict }
{
    Room {
        number: 0,
        r: run.r,
        q_evals: run.q_evals,
        eq_r: run.eq_r,
        eq_ub: run.eq_ub,
        matrices: run.matrices,
        openings: run.openings,
        challenges: verdict.challenges,
        claims: run.claims,
        coefficients: run.coefficients,
        pairs: verdict.pairs,
        observed: verdict.observed,
    }
}

#[unsafe(no_mangle)]
pub extern "C" fn legrudda_room(l_skip: u32, n_stack: u32, counts: &[u32], lists: &[u32]) -> Room
    ensures { result ≡ room_of (run_room l_skip n_stack counts.now lists.now) (verdict_room l_skip n_stack counts.now lists.now) }
{
    let run = match run_room(l_skip, n_stack, counts, lists) {
        Ok(run) => run,
        Err(refusal) => return refused(refusal),
    };
    match verdict_room(l_skip, n_stack, counts, lists) {
        Ok(verdict) => taken(run, verdict),
        Err(refusal) => refused(refusal),
    }
}
