// What is held between lines: nothing and zeros to begin with.
ghost use Rattle.std.specs.Prelude.{◌≡◌, slice_index, take, drop};

use crate::numbers::Numbers;
use field::slice::word_at;
use prover::given::Given;

// The lengths at which the work buffers, the openings and the first polynomial are handed on.
#[derive(Clone, Copy, Default)]
pub struct Lengths {
    pub q_evals: usize,
    pub eq_r: usize,
    pub k_rot_r: usize,
    pub eq_ub: usize,
    pub openings: usize,
    pub first: usize,
}

impl Lengths {
    // Buffers 0 to 3 are the work buffers, 4 the openings, 6 the first polynomial.
    pub(crate) fn set(&mut self, buffer: u32, length: usize) {
        match buffer {
            0 => self.q_evals = length,
            1 => self.eq_r = length,
            2 => self.k_rot_r = length,
            3 => self.eq_ub = length,
            4 => self.openings = length,
            6 => self.first = length,
            _ => {}
        }
    }
}

// The numbers of the last line of each list, lambda and the lengths.
#[derive(Default, Drop)]
pub struct Held {
    pub shape: Numbers,
    pub matrix: Numbers,
    pub point: Numbers,
    pub lambda: [u32; 4],
    pub lengths: Lengths,
}

impl Held {
    // A shape's numbers are l_skip, n_stack, K, then K counts, then the triples' words.
    pub fn given(&self) -> Given<'_>
        ensures l_skip { result.l_skip ≡ slice_index self.now.shape 0 }
        ensures n_stack { result.n_stack ≡ slice_index self.now.shape 1 }
        ensures counts { result.counts.now ≡ take (slice_index self.now.shape 2) (drop 3 self.now.shape) }
        ensures lists { result.lists.now ≡ drop (slice_index self.now.shape 2) (drop 3 self.now.shape) }
        ensures r { result.r.now ≡ self.now.point }
        ensures lambda { result.lambda ≡ self.now.lambda }
    {
        let shape = self.shape.as_slice();
        let rest = shape.get(3..).unwrap_or(&[]);
        let (counts, lists) = rest.split_at(rest.len().min(word_at(shape, 2) as usize));
        let lambda = self.lambda;
        Given {
            l_skip: word_at(shape, 0),
            n_stack: word_at(shape, 1),
            counts,
            lists,
            r: self.point.as_slice(),
            lambda,
        }
    }
}
