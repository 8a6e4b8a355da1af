// The work buffers of a run, each at the length at which it is handed on, and the calls that take them.
use console_lines::memory::{Held, List, Words};
use console_lines::replies::{Outcome, Refusal, Reply};
use prover::given::Given;
use prover::rooms::run_room;
use prover::stacked_reduction;
use prover::stacked_reduction::{RoundPair, Step};
use prover::turns::Turn;

// What every call of a run is given.
pub fn given(held: &Held) -> Given<'_> {
    let lambda = held.lambda;
    Given {
        l_skip: held.shape.l_skip,
        n_stack: held.shape.n_stack,
        counts: held.shape.counts.given(),
        lists: held.shape.triples.given(),
        r: held.point.given(),
        lambda,
    }
}

// The most words of a work buffer.
const MOST: usize = 65536;

pub type Buffer = List<65536>;

#[derive(Drop)]
pub struct Work {
    q_evals: Buffer,
    eq_r: Buffer,
    k_rot_r: Buffer,
    eq_ub: Buffer,
}

impl Work {
    pub fn new() -> Self {
        Work {
            q_evals: List::new(),
            eq_r: List::new(),
            k_rot_r: List::new(),
            eq_ub: List::new(),
        }
    }

    // work
    pub fn show(&self, words: &mut Words) -> Outcome {
        words.grow(self.q_evals.given());
        words.grow(self.eq_r.given());
        words.grow(self.k_rot_r.given());
        words.grow(self.eq_ub.given());
        Ok(Reply::Done)
    }

    // A work buffer, by the number of `len` and `set`.
    fn buffer(&mut self, number: u32) -> Result<&mut Buffer, Refusal> {
        match number {
            0 => Ok(&mut self.q_evals),
            1 => Ok(&mut self.eq_r),
            2 => Ok(&mut self.k_rot_r),
            3 => Ok(&mut self.eq_ub),
            _ => Err(Refusal::Error),
        }
    }

    // set B I X
    pub fn set(&mut self, buffer: u32, i: u32, x: u32) -> Outcome {
        self.buffer(buffer)?.set(i as usize, x)?;
        Ok(Reply::Done)
    }

    // len B X of a work buffer
    pub fn hand(&mut self, buffer: u32, n: usize) -> Result<(), Refusal> {
        let _ = self.buffer(buffer)?.lent(n)?;
        Ok(())
    }

    // room, its second half, on lists that are not refused.
    pub fn room(&mut self, held: &Held, words: &mut Words) -> Outcome {
        let room = run_room(
            held.shape.l_skip,
            held.shape.n_stack,
            held.shape.counts.given(),
            held.shape.triples.given(),
        )?;
        let q_evals = room.q_evals;
        let table = room.eq_r;
        let eq_ub = room.eq_ub;
        if MOST < q_evals.max(table).max(eq_ub) {
            return Err(Refusal::Full);
        }
        let _ = self.q_evals.lent(q_evals)?;
        let _ = self.eq_r.lent(table)?;
        let _ = self.k_rot_r.lent(table)?;
        let _ = self.eq_ub.lent(eq_ub)?;
        words.grow(&[q_evals as u32, table as u32, table as u32, eq_ub as u32]);
        Ok(Reply::Done)
    }

    // start
    pub fn start(&mut self, held: &Held) -> Step {
        stacked_reduction::new(
            given(held),
            Turn { calls: held.turn },
            self.q_evals.given_mut(),
            self.eq_r.given_mut(),
            self.k_rot_r.given_mut(),
            self.eq_ub.given_mut(),
        )
    }

    // fold0 a b c d
    pub fn fold_at_u_0(&mut self, held: &Held, u: [u32; 4]) -> Step {
        stacked_reduction::fold_ple_evals(
            given(held),
            Turn { calls: held.turn },
            held.matrix.given(),
            u,
            self.q_evals.given_mut(),
            self.eq_r.given_mut(),
            self.k_rot_r.given_mut(),
            self.eq_ub.given_mut(),
        )
    }

    // fold J a b c d
    pub fn fold(&mut self, held: &Held, round: u32, u: [u32; 4]) -> Step {
        stacked_reduction::fold_mle_evals(
            given(held),
            Turn { calls: held.turn },
            round,
            u,
            self.q_evals.given_mut(),
            self.eq_r.given_mut(),
            self.k_rot_r.given_mut(),
            self.eq_ub.given_mut(),
        )
    }

    // pair J
    pub fn pair(&self, held: &Held, round: u32) -> RoundPair {
        stacked_reduction::batch_sumcheck_poly_eval(
            given(held),
            Turn { calls: held.turn },
            round,
            self.q_evals.given(),
            self.eq_r.given(),
            self.k_rot_r.given(),
            self.eq_ub.given(),
        )
    }

    // openings
    pub fn openings(&self, held: &Held, out: &mut [u32]) -> Step {
        stacked_reduction::into_stacked_openings(
            given(held),
            Turn { calls: held.turn },
            self.q_evals.given(),
            self.eq_r.given(),
            self.k_rot_r.given(),
            self.eq_ub.given(),
            out,
        )
    }
}
