// A round's pair: block after block of points, the parts of all columns.
ghost use Rattle.std.specs.Prelude.{◌≡◌, ℕ, ◌+◌, ◌^◌, ◌<◌, ◌≤◌, true, List, if◌then◌else◌, nat_eq};
ghost use Rattle.field.specs.Element.{◌⊕◌, ◌⊗◌, elem_of, words_of};
ghost use Rattle.weights.specs.RunOf.{run_of};
ghost use Rattle.prover.specs.Given.{work};
ghost use Rattle.prover.specs.RoundValues.{Values};
ghost use Rattle.prover.specs.RoundInputs.{OpenRound, block_of, idle_of};
ghost use Rattle.prover.specs.OwnSum.{tables_of, own_quadratic};
ghost use Rattle.prover.specs.Live.{Placed, LiveRound};

use crate::columns::column_pair;
use crate::points::{BlockWeights, Weighing, block_points, prepare};
use crate::sumcheck::Evals;
use field::element;
use field::element::{add, mul, square};
use field::slice::load;
use layout::columns::{lifted, walk_first, walk_next};

// sum + power · weight · x.
fn add_term(sum: [u32; 4], power: [u32; 4], weight: [u32; 4], x: [u32; 4]) -> [u32; 4]
    ensures { result ≡ words_of (elem_of sum ⊕ elem_of power ⊗ elem_of weight ⊗ elem_of x) }
{
    let a = mul(power, weight);
    let b = mul(a, x);
    add(sum, b)
}

// Whether the weights that are there are those of a column's height and flag.
fn same_weights(made: Option<(u32, u32)>, log: u32, flag: u32) -> bool
    ensures { result ≡ true → made ≡ Some (log, flag) }
{
    made == Some((log, flag))
}

// How many columns, from the first on, may have points in the next block: `next` of those before column k, which has `later` points there.
fn reaching(later: usize, next: usize, k: usize) -> usize
    requires { k < 2 ^ 32 }
    ensures { result ≡ (if nat_eq later 0 then next else k + 1) }
{
    if later == 0 { next } else { k + 1 }
}

// A block's part of the pair, and how many columns, from the first on, may have points in the block after it.
#[derive(Clone, Copy)]
struct BlockPart {
    one: [u32; 4],
    two: [u32; 4],
    reach: usize,
}

// What a round's blocks are made of: the columns, where each height's tables start, lambda, the round and the work buffers.
#[derive(Clone, Copy)]
pub(crate) struct RoundInput<'a> {
    pub(crate) l_skip: u32,
    pub(crate) n_stack: u32,
    pub(crate) first: usize,
    pub(crate) lists: &'a [u32],
    pub(crate) columns: usize,
    pub(crate) stacked: usize,
    pub(crate) slots: &'a [usize; 32],
    pub(crate) lambda: [u32; 4],
    pub(crate) round: u32,
    pub(crate) q: &'a [u32],
    pub(crate) eq: &'a [u32],
    pub(crate) k_rot: &'a [u32],
    pub(crate) ub: &'a [u32],
}

// A block of points of the buffers' own sum with the round's variable free, at 1 and 2: the columns up to `reach`.
fn block_pair(input: &RoundInput, block: usize, reach: usize) -> BlockPart
    requires open_round { OpenRound input.now }
    requires block_bound { (block < 2 ^ 20) × (reach ≤ input.now.columns) }
    ensures values { Values (block_of input.now reach block) (record { one = result.one; two = result.two }) }
    ensures reach_le_reach { (result.reach ≤ reach) × idle_of input.now (block + 1) result.reach reach }
{
    let l_skip = input.l_skip;
    let round = input.round;
    let lambda = input.lambda;
    let slots = input.slots;
    let step = square(lambda);
    let mut one = element::from_word(0);
    let mut two = element::from_word(0);
    let mut power = element::from_word(1);
    let at_one = [0u32; 2048];
    let at_two = [0u32; 2048];
    let mut weights = BlockWeights {
        one: at_one,
        two: at_two,
    };
    let mut made: Option<(u32, u32)> = None;
    let mut c = walk_first(l_skip, input.n_stack, input.first, input.lists);
    let mut next: usize = 0;
    for k in 0..reach {
        let at = slots[c.log as usize];
        let lift = lifted(c.log, l_skip);
        let n = block_points(lift, round, block);
        let known = same_weights(made, c.log, c.flag);
        let weighing = Weighing {
            eq: input.eq,
            k_rot: input.k_rot,
            flag: c.flag,
            lambda,
        };
        prepare(known, weighing, at, block, n, &mut weights);
        made = Some((c.log, c.flag));
        let t = column_pair(
            l_skip, round, c.start, c.log, weighing, at, block, n, input.q, &weights,
        );
        let weight = load(input.ub, k);
        let a = add_term(one, power, weight, t.one);
        let b = add_term(two, power, weight, t.two);
        let p = mul(power, step);
        one = a;
        two = b;
        power = p;
        let later = block_points(lift, round, block + 1);
        next = reaching(later, next, k);
        c = walk_next(l_skip, input.n_stack, input.first, input.lists, c);
    }
    BlockPart {
        one,
        two,
        reach: next,
    }
}

// The buffers' own sum with the round's variable free, at 1 and 2: block after block of points.
pub(crate) fn round_pair(input: RoundInput<'_>) -> Evals
    requires placed { Placed input.l_skip input.n_stack input.first input.lists.now input.columns input.stacked }
    requires live_round { LiveRound input.l_skip input.n_stack input.lists.now input.stacked input.slots.now input.round input.q.now input.eq.now input.k_rot.now }
    ensures { (point : List ℕ) → Values (own_quadratic (run_of input.entry.l_skip input.entry.n_stack input.entry.first input.entry.lists.now point input.entry.lambda) input.entry.round (tables_of input.entry.l_skip input.entry.lists.now (work input.entry.q.now input.entry.eq.now input.entry.k_rot.now input.entry.ub.now))) result }
{
    let most: usize = 1 << (input.n_stack - input.round);
    let blocks = (most + 255) / 256;
    let l = element::canonical(input.lambda);
    let mut one = element::from_word(0);
    let mut two = element::from_word(0);
    let mut reach = input.columns;
    let open = RoundInput { lambda: l, ..input };
    for block in 0..blocks {
        let t = block_pair(&open, block, reach);
        let a = add(one, t.one);
        let b = add(two, t.two);
        one = a;
        two = b;
        reach = t.reach;
    }
    Evals { one, two }
}
