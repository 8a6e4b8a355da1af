// One column's part of a round's pair, in a block of points.
ghost use Rattle.std.specs.Prelude.{◌≡◌, ◌+◌, ◌*◌, ◌≤◌};
ghost use Rattle.algebra.specs.Ring.{num};
ghost use Rattle.field.specs.Element.{F, ◌⊕◌, ◌⊗◌, elem_of, words_of};
ghost use Rattle.field.specs.Slice.{elem_at};
ghost use Rattle.weights.specs.LambdaPowers.{if_flagged};
ghost use Rattle.prover.specs.Written.{elems_from};
ghost use Rattle.prover.specs.RoundValues.{round_bit, Values};
ghost use Rattle.prover.specs.PointBlocks.{point_sum, column_points, column_block, Weights, Ready};
ghost use Rattle.prover.specs.Live.{Held, LiveColumn};

use crate::points::{BlockWeights, Weighing};
use crate::sumcheck::{Evals, bit_round_poly_evals, sumcheck_round_poly_evals};
use field::element::{add, mul};
use field::slice::load;
use layout::columns::lifted;

// A column whose tables have two entries or more: its values stand from index i on.
fn long_pair(
    q: &[u32],
    i: usize,
    half: usize,
    block: usize,
    n: usize,
    weights: &BlockWeights,
) -> Evals
    requires n_bound { (n ≤ 256) × (256 * block + n ≤ half) × (half ≤ 8388608) }
    requires held { Held q.now i (2 * half) }
    requires weights { Weights n (elem_at weights.now.one) weights.now.one }
    requires weights_2 { Weights n (elem_at weights.now.two) weights.now.two }
    ensures { (result.one ≡ words_of (point_sum n (elems_from q.now i) (256 * block) F.one (elem_at weights.now.one))) × (result.two ≡ words_of (point_sum n (elems_from q.now i) (256 * block) (num F 2) (elem_at weights.now.two))) }
{
    let from = 4 * i;
    let to = 4 * (i + 2 * half);
    sumcheck_round_poly_evals(&q[from..to], 256 * block, n, weights)
}

// The entry of both tables, the second with a power of lambda more where the flag is set.
fn table_weight(weighing: Weighing<'_>, at: usize) -> [u32; 4]
    ensures { result ≡ words_of (elem_at weighing.entry.eq.now at ⊕ if_flagged F weighing.entry.flag (elem_of weighing.entry.lambda ⊗ elem_at weighing.entry.k_rot.now at)) }
{
    let plain = load(weighing.eq, at);
    if weighing.flag == 0 {
        return plain;
    }
    let rotated = load(weighing.k_rot, at);
    let x = mul(weighing.lambda, rotated);
    add(plain, x)
}

// A column past its height: two of its stack column's values from index i on, and the bit that says in which it stands.
fn short_pair(q: &[u32], i: usize, bit: usize, weighing: Weighing<'_>, at: usize) -> Evals
    requires { Held q.now i 2 }
    ensures { Values (λ x. round_bit (elems_from q.now i) bit x ⊗ (elem_at weighing.entry.eq.now at ⊕ if_flagged F weighing.entry.flag (elem_of weighing.entry.lambda ⊗ elem_at weighing.entry.k_rot.now at))) result }
{
    let from = 4 * i;
    let to = 4 * (i + 2);
    let v = bit_round_poly_evals(&q[from..to], bit);
    let one = v.one;
    let two = v.two;
    let weight = table_weight(weighing, at);
    Evals {
        one: mul(one, weight),
        two: mul(two, weight),
    }
}

// One column's part of a block of points in the pair, read from its own starting row; but for its weight and its power of lambda.
pub(crate) fn column_pair(
    l_skip: u32,
    round: u32,
    start: usize,
    log: u32,
    weighing: Weighing<'_>,
    at: usize,
    block: usize,
    n: usize,
    q: &[u32],
    weights: &BlockWeights,
) -> Evals
    requires live_column { LiveColumn l_skip round start log at q.now weighing.eq.now weighing.k_rot.now }
    requires n_value { n ≡ column_points l_skip round log block }
    requires ready { Ready n weighing.flag (elem_of weighing.lambda) (elems_from weighing.eq.now (at + 512 * block)) (elems_from weighing.k_rot.now (at + 512 * block)) weights.now.one weights.now.two }
    ensures { Values (column_block l_skip round start log weighing.entry.flag (elem_of weighing.entry.lambda) (elem_at q.now) (elems_from weighing.entry.eq.now at) (elems_from weighing.entry.k_rot.now at) block) result }
{
    let lift = lifted(log, l_skip);
    let i = start >> (l_skip + round - 1);
    if n != 0 {
        let half: usize = 1 << (lift - round);
        return long_pair(q, i, half, block, n, weights);
    }
    if lift < round && block == 0 {
        let from = 2 * (start >> (l_skip + round));
        return short_pair(q, from, i % 2, weighing, at);
    }
    Evals {
        one: [0, 0, 0, 0],
        two: [0, 0, 0, 0],
    }
}
