// The factors of a column's weight, from verifier/stacked_reduction.rs. The kernels are computed once for columns of one
// height and flag that follow each other, and the row bits past the lowest ones while they stay.
ghost use Rattle.std.specs.Prelude.{◌≡◌, ◌+◌, ◌-◌, ◌*◌, ◌/◌, ◌^◌, ◌≤◌, ◌<◌, min, length};
ghost use Rattle.algebra.specs.Multilinear.{cube_factor};
ghost use Rattle.field.specs.Element.{F, ◌⊕◌, ◌⊗◌, elem_of, words_of};
ghost use Rattle.tables.specs.Points.{coordinates};
ghost use Rattle.tables.specs.OnSlices.{eq_prism_of, rot_prism_of};
ghost use Rattle.weights.specs.LambdaPowers.{if_flagged};
ghost use Rattle.verifier.specs.Walked.{Pointed};
ghost use Rattle.verifier.specs.HeightKernels.{height_weight, height_of};
ghost use Rattle.verifier.specs.RowKernels.{spot_of, row_weight, bits_from, low_bits, upper_weight, upper_of};

use crate::asked::Asked;
use field::element;
use field::element::{add, exp_power_of_2, mul};
use field::slice::load;
use layout::columns::{Column, lifted};
use tables::poly_common::{bit_factor, eval_eq_prism, eval_in_uni, eval_rot_kernel_prism};

// The factor of a column's weight that its height and its flag decide.
#[derive(Drop)]
pub(crate) struct HeightWeight {
    pub(crate) log: u32,
    pub(crate) flag: u32,
    pub(crate) weight: [u32; 4],
}

// The factor of its row bits past n_lift but the lowest ones.
#[derive(Drop)]
pub(crate) struct UpperWeight {
    pub(crate) lift: u32,
    pub(crate) upper: usize,
    pub(crate) weight: [u32; 4],
}

// eval_eq_mle of m challenges from index i on and the bits of a spot, where the factors from place `from` on are given.
fn eq_bits(
    challenges: &[u32],
    i: usize,
    m: usize,
    spot: usize,
    from: usize,
    upper: [u32; 4],
) -> [u32; 4]
    requires { (i < 2 ^ 32) × (m < 64) × (from ≤ m) × (upper ≡ words_of (bits_from challenges.now i m spot from)) }
    ensures { result ≡ words_of (cube_factor F (coordinates challenges.now i m) spot) }
{
    let mut acc = upper;
    for j in (0..from).rev() {
        let u = load(challenges, i + j);
        let f = bit_factor(u, (spot >> j) % 2);
        let next = mul(f, acc);
        acc = next;
    }
    acc
}

fn low_bits(n_stack: u32, lift: u32) -> u32
    requires { lift ≤ n_stack }
    ensures { result ≡ low_bits n_stack lift }
{
    (n_stack - lift).min(3)
}

// A column's row bits past n_lift, as a number.
fn spot_of(l_skip: u32, n_stack: u32, c: Column) -> usize
    requires { (l_skip + n_stack ≤ 24) × (c.log ≤ l_skip + n_stack) }
    ensures { result ≡ spot_of l_skip n_stack c.log c.start }
{
    let lift = lifted(c.log, l_skip);
    let height: usize = 1 << (l_skip + n_stack);
    (c.start % height) >> (l_skip + lift)
}

// The eq kernel of the row bits past the lowest ones.
pub(crate) fn upper_weight(n_stack: u32, lift: u32, upper: usize, challenges: &[u32]) -> UpperWeight
    requires { (lift ≤ n_stack) × (n_stack ≤ 24) }
    ensures { result ≡ upper_of n_stack lift upper challenges.now }
{
    let low = low_bits(n_stack, lift);
    let m = (n_stack - lift - low) as usize;
    let one = element::from_word(1);
    let weight = eq_bits(challenges, (1 + lift + low) as usize, m, upper, m, one);
    UpperWeight {
        lift,
        upper,
        weight,
    }
}

// The same again where those bits are those of the column before.
pub(crate) fn renewed_upper(w: UpperWeight, asked: Asked<'_>, c: Column) -> UpperWeight
    requires { (asked.l_skip + asked.n_stack ≤ 24) × (c.log ≤ asked.l_skip + asked.n_stack) × (w ≡ upper_of asked.n_stack w.lift w.upper asked.challenges.now) }
    ensures { result ≡ upper_of asked.entry.n_stack (c.log - asked.entry.l_skip) (spot_of asked.entry.l_skip asked.entry.n_stack c.log c.start / 2 ^ low_bits asked.entry.n_stack (c.log - asked.entry.l_skip)) asked.entry.challenges.now }
{
    let lift = lifted(c.log, asked.l_skip);
    let low = low_bits(asked.n_stack, lift);
    let spot = spot_of(asked.l_skip, asked.n_stack, c);
    let upper = spot >> low;
    if w.lift != lift || w.upper != upper {
        return upper_weight(asked.n_stack, lift, upper, asked.challenges);
    }
    w
}

// The eq kernel of the bits past n_lift of a column's starting row.
pub(crate) fn row_weight(upper: [u32; 4], asked: Asked<'_>, c: Column) -> [u32; 4]
    requires { (asked.l_skip + asked.n_stack ≤ 24) × (c.log ≤ asked.l_skip + asked.n_stack) × (upper ≡ words_of (upper_weight asked.n_stack (c.log - asked.l_skip) (spot_of asked.l_skip asked.n_stack c.log c.start / 2 ^ low_bits asked.n_stack (c.log - asked.l_skip)) asked.challenges.now)) }
    ensures { result ≡ words_of (row_weight asked.entry.l_skip asked.entry.n_stack c.log c.start asked.entry.challenges.now) }
{
    let lift = lifted(c.log, asked.l_skip);
    let low = low_bits(asked.n_stack, lift);
    let spot = spot_of(asked.l_skip, asked.n_stack, c);
    let m = (asked.n_stack - lift) as usize;
    eq_bits(
        asked.challenges,
        (1 + lift) as usize,
        m,
        spot,
        low as usize,
        upper,
    )
}

// eq_prism + lambda × rotation kernel.
fn prism_weight(l: u32, flag: u32, lambda: [u32; 4], u: &[u32], r: &[u32]) -> [u32; 4]
    ensures { result ≡ words_of (eq_prism_of (min l 10) u.now r.now ⊕ if_flagged F flag (elem_of lambda ⊗ rot_prism_of (min l 10) u.now r.now)) }
{
    let eq_prism = eval_eq_prism(l, u, r);
    if flag == 0 {
        return eq_prism;
    }
    let rot_kernel_prism = eval_rot_kernel_prism(l, u, r);
    let x = mul(lambda, rot_kernel_prism);
    add(eq_prism, x)
}

// A column below l_skip: r_0 is raised, and the indicator enters.
fn short_weight(asked: Asked<'_>, c: Column) -> [u32; 4]
    requires { (c.log < asked.l_skip) × (asked.l_skip ≤ 10) × (4 ≤ length asked.challenges.now) }
    ensures { result ≡ words_of (height_weight asked.entry.l_skip c.log c.flag asked.entry.lambda asked.entry.r.now asked.entry.challenges.now) }
{
    let n = c.log as i32 - asked.l_skip as i32;
    let ind = eval_in_uni(asked.l_skip, n, load(asked.challenges, 0));
    let r_0 = exp_power_of_2(load(asked.r, 0), asked.l_skip - c.log);
    let batched = prism_weight(
        c.log,
        c.flag,
        asked.lambda,
        &asked.challenges[..4],
        &r_0[..4],
    );
    mul(ind, batched)
}

fn tall_weight(asked: Asked<'_>, c: Column) -> [u32; 4]
    requires { (asked.l_skip ≤ c.log) × (asked.l_skip ≤ 10) × (c.log < 64) × (4 * (c.log - asked.l_skip + 1) ≤ length asked.r.now) × (4 * (c.log - asked.l_skip + 1) ≤ length asked.challenges.now) }
    ensures { result ≡ words_of (height_weight asked.entry.l_skip c.log c.flag asked.entry.lambda asked.entry.r.now asked.entry.challenges.now) }
{
    let end = 4 * ((c.log - asked.l_skip) as usize + 1);
    prism_weight(
        asked.l_skip,
        c.flag,
        asked.lambda,
        &asked.challenges[..end],
        &asked.r[..end],
    )
}

pub(crate) fn height_weight(asked: Asked<'_>, c: Column) -> HeightWeight
    requires { Pointed asked.l_skip asked.n_stack c.log asked.r.now asked.challenges.now }
    ensures { result ≡ height_of asked.entry.l_skip c.log c.flag asked.entry.lambda asked.entry.r.now asked.entry.challenges.now }
{
    let weight = if c.log < asked.l_skip {
        short_weight(asked, c)
    } else {
        tall_weight(asked, c)
    };
    HeightWeight {
        log: c.log,
        flag: c.flag,
        weight,
    }
}

// The same again where height and flag are those of the column before.
pub(crate) fn renewed(w: HeightWeight, asked: Asked<'_>, c: Column) -> HeightWeight
    requires pointed { Pointed asked.l_skip asked.n_stack c.log asked.r.now asked.challenges.now }
    requires w_value { w ≡ height_of asked.l_skip w.log w.flag asked.lambda asked.r.now asked.challenges.now }
    ensures { result ≡ height_of asked.entry.l_skip c.log c.flag asked.entry.lambda asked.entry.r.now asked.entry.challenges.now }
{
    if w.log != c.log || w.flag != c.flag {
        return height_weight(asked, c);
    }
    w
}
