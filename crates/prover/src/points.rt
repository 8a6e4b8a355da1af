// A round's points go by blocks of 256. The weights of a block, which the columns of one height and flag share, are made once for
// those that follow each other: then a column's part is four sums of products of words.
ghost use Rattle.std.specs.Prelude.{◌≡◌, ◌+◌, ◌-◌, ◌*◌, ◌^◌, ◌≤◌, true, if◌then◌else◌, ◌≢◌, nat_le};
ghost use Rattle.field.specs.Element.{elem_of, words_of};
ghost use Rattle.field.specs.Canonical.{Canonical};
ghost use Rattle.field.specs.Slice.{elem_at};
ghost use Rattle.prover.specs.Words.{Words};
ghost use Rattle.prover.specs.Written.{elems_from};
ghost use Rattle.prover.specs.Live.{Held};
ghost use Rattle.prover.specs.RoundValues.{one_or_two};
ghost use Rattle.prover.specs.PointBlocks.{block_points, weight_line, times_eleven, point_sum, Weights, Ready};

use crate::accumulator::Sums;
use crate::canonical;
use crate::canonical::dot;
use crate::elements::{read, write};
use crate::lines::point;
use field::word;

// What the weights of a column's points are made of: both tables, its flag and lambda.
#[derive(Clone, Copy)]
pub(crate) struct Weighing<'a> {
    pub(crate) eq: &'a [u32],
    pub(crate) k_rot: &'a [u32],
    pub(crate) flag: u32,
    pub(crate) lambda: [u32; 4],
}

// The weights of a block's points at 1 and at 2, each beside its words that come round.
#[derive(Drop)]
pub(crate) struct BlockWeights {
    pub(crate) one: [u32; 2048],
    pub(crate) two: [u32; 2048],
}

// How many of `count` points or entries are in block b.
pub(crate) fn block_entries(count: usize, b: usize) -> usize
    requires { 256 * b ≤ count }
    ensures { result ≡ block_points count b }
{
    (count - 256 * b).min(256)
}

// The points of a block in a round, of a table of n_lift variables: none past its height.
pub(crate) fn block_points(lift: u32, round: u32, block: usize) -> usize
    requires { (lift ≤ 20) × (block ≤ 2 ^ 20) }
    ensures { result ≡ (if nat_le round lift then block_points (2 ^ (lift - round)) block else 0) }
{
    if lift < round {
        return 0;
    }
    let half: usize = 1 << (lift - round);
    if half < 256 * block {
        return 0;
    }
    block_entries(half, block)
}

// The words of an element that come round, X⁴ being 11.
fn eleven_times(w: [u32; 4]) -> [u32; 4]
    ensures { result ≡ times_eleven w }
{
    [
        word::mul(11, w[1]),
        word::mul(11, w[2]),
        word::mul(11, w[3]),
        0,
    ]
}

// The weight of point y at 1 or at 2.
fn weight_at(weighing: Weighing<'_>, y: usize, two: bool) -> [u32; 4]
    requires words { Words weighing.eq.now (8 * y + 8) }
    requires words_2 { Words weighing.k_rot.now (8 * y + 8) }
    requires canonical { Canonical weighing.lambda }
    ensures { result ≡ words_of (weight_line weighing.entry.flag (elem_of weighing.entry.lambda) (elem_at weighing.entry.eq.now) (elem_at weighing.entry.k_rot.now) (one_or_two two) y) }
{
    let plain = point(weighing.eq, y, two);
    if weighing.flag == 0 {
        return plain;
    }
    let rotated = point(weighing.k_rot, y, two);
    canonical::mul_add(plain, weighing.lambda, rotated)
}

// The weights of n points at 1 or at 2 as the first elements of t, and the words that come round 256 elements on.
fn weigh(weighing: Weighing<'_>, n: usize, two: bool, t: &mut [u32; 2048])
    requires n_bound { n ≤ 256 }
    requires words { Words weighing.eq.now (8 * n) }
    requires words_2 { Words weighing.k_rot.now (8 * n) }
    requires canonical { Canonical weighing.lambda }
    ensures { Weights n (weight_line weighing.entry.flag (elem_of weighing.entry.lambda) (elem_at weighing.entry.eq.now) (elem_at weighing.entry.k_rot.now) (one_or_two two)) t.new }
{
    for y in 0..n {
        let w = weight_at(weighing, y, two);
        let v = eleven_times(w);
        write(t, y, w);
        write(t, 256 + y, v);
    }
}

// The weights at 1 and at 2 of a block's n points, from a height's tables, which stand from index `at` on; unless they are there.
pub(crate) fn prepare(
    known: bool,
    weighing: Weighing<'_>,
    at: usize,
    block: usize,
    n: usize,
    weights: &mut BlockWeights,
)
    requires n_bound { n ≤ 256 }
    requires held { (n ≢ 0) → Held weighing.eq.now (at + 512 * block) (2 * n) }
    requires held_2 { (n ≢ 0) → Held weighing.k_rot.now (at + 512 * block) (2 * n) }
    requires canonical { Canonical weighing.lambda }
    requires ready { known ≡ true → Ready n weighing.flag (elem_of weighing.lambda) (elems_from weighing.eq.now (at + 512 * block)) (elems_from weighing.k_rot.now (at + 512 * block)) weights.old.one weights.old.two }
    ensures { Ready n weighing.entry.flag (elem_of weighing.entry.lambda) (elems_from weighing.entry.eq.now (at + 512 * block)) (elems_from weighing.entry.k_rot.now (at + 512 * block)) weights.new.one weights.new.two }
{
    if known {
        return;
    }
    if n == 0 {
        return;
    }
    let i = at + 512 * block;
    let from = 4 * i;
    let to = 4 * (i + 2 * n);
    let eq = &weighing.eq[from..to];
    let k_rot = &weighing.k_rot[from..to];
    let lambda = weighing.lambda;
    let part = Weighing {
        eq,
        k_rot,
        flag: weighing.flag,
        lambda,
    };
    weigh(part, n, false, &mut weights.one);
    weigh(part, n, true, &mut weights.two);
}

// The sum over n points of the line of q at 1 or at 2, from point `from` on, times the weight that stands in t.
pub(crate) fn weighed(q: &[u32], from: usize, t: &[u32; 2048], n: usize, two: bool) -> [u32; 4]
    requires n_bound { n ≤ 256 }
    requires from_bound { from ≤ 2 ^ 30 }
    requires words { Words q.now (8 * (from + n)) }
    requires weights { Weights n (elem_at t.now) t.now }
    ensures { result ≡ words_of (point_sum n (elem_at q.now) from (one_or_two two) (elem_at t.now)) }
{
    let mut s = Sums::NONE;
    for y in 0..n {
        let a = point(q, from + y, two);
        let w = read(t, y);
        let v = read(t, 256 + y);
        s = s.take(
            dot(a, w[0], v[2], v[1], v[0]),
            dot(a, w[1], w[0], v[2], v[1]),
            dot(a, w[2], w[1], w[0], v[2]),
            dot(a, w[3], w[2], w[1], w[0]),
        );
    }
    s.done()
}
