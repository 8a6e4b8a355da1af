// The commands of a run: start, fold0, fold, pair, openings, work, round0.
use crate::calls;
use methods_views::commands::Call;
use methods_views::held::Held;
use methods_views::replies;
use prover::given::Given;
use turns::stacked_reduction::StackedReduction;

type Words = [u32; 16384];

// A run and its work buffers.
#[derive(Drop)]
pub(crate) struct Session {
    run: StackedReduction,
    q_evals: Words,
    eq_r: Words,
    k_rot_r: Words,
    eq_ub: Words,
}

// The first words of a buffer, as many as it is handed on with.
fn first(words: &mut [u32], n: usize) -> &mut [u32] {
    let n = n.min(words.len());
    &mut words[..n]
}

// The openings, in words of their own. This and the next are functions of their own, so that no other call fills these words with
// zeros.
fn openings(
    run: &mut StackedReduction,
    given: Given<'_>,
    q_evals: &[u32],
    eq_r: &[u32],
    k_rot_r: &[u32],
    eq_ub: &[u32],
    n: usize,
) {
    let mut words = [0; 2048];
    let out = first(&mut words, n);
    let answer = calls::into_stacked_openings(run, given, q_evals, eq_r, k_rot_r, eq_ub, out);
    replies::answered(answer, &[out]);
}

// The first polynomial, in words of its own.
fn round_zero(run: &mut StackedReduction, given: Given<'_>, matrices: &[u32], n: usize) {
    let mut words = [0; 512];
    let out = first(&mut words, n);
    let answer = calls::batch_sumcheck_uni_round0_poly(run, given, matrices, out);
    replies::answered(answer, &[out]);
}

impl Session {
    // A run of which no call was accepted, on words of zero.
    pub(crate) fn new() -> Session {
        let run = StackedReduction::new();
        let q_evals = [0; 16384];
        let eq_r = [0; 16384];
        let k_rot_r = [0; 16384];
        let eq_ub = [0; 16384];
        Session {
            run,
            q_evals,
            eq_r,
            k_rot_r,
            eq_ub,
        }
    }

    // Makes a call on the first words of the work buffers, and answers it: within the loop over the lines, so that the words of the
    // stack that the largest call needs are reserved once, and not for each line.
    #[inline(always)]
    pub(crate) fn answer(&mut self, call: Call, held: &Held) {
        let given = held.given();
        let matrices = held.matrix.as_slice();
        let lengths = held.lengths;
        let run = &mut self.run;
        let q_evals = first(&mut self.q_evals, lengths.q_evals);
        let eq_r = first(&mut self.eq_r, lengths.eq_r);
        let k_rot_r = first(&mut self.k_rot_r, lengths.k_rot_r);
        let eq_ub = first(&mut self.eq_ub, lengths.eq_ub);
        match call {
            Call::Start => {
                let answer = calls::start(run, given, q_evals, eq_r, k_rot_r, eq_ub);
                replies::answered(answer, &[]);
            }
            Call::FoldFirst(u_0) => {
                let answer = calls::fold_ple_evals(
                    run, given, matrices, u_0, q_evals, eq_r, k_rot_r, eq_ub,
                );
                replies::answered(answer, &[]);
            }
            Call::Fold(round, u) => {
                let answer = calls::fold_mle_evals(
                    run, given, round, u, q_evals, eq_r, k_rot_r, eq_ub,
                );
                replies::answered(answer, &[]);
            }
            Call::Pair(round) => {
                let sent = calls::batch_sumcheck_poly_eval(
                    run, given, round, q_evals, eq_r, k_rot_r, eq_ub,
                );
                match sent {
                    Ok(sent) => replies::done(&[&sent.one, &sent.two]),
                    Err(refusal) => replies::answered(Err(refusal), &[]),
                }
            }
            Call::Openings => openings(run, given, q_evals, eq_r, k_rot_r, eq_ub, lengths.openings),
            Call::Work => replies::done(&[q_evals, eq_r, k_rot_r, eq_ub]),
            Call::RoundZero => round_zero(run, given, matrices, lengths.first),
        }
    }
}
