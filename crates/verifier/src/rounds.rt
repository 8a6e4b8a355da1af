// The rounds, from verifier/stacked_reduction.rs: the first polynomial's sum and the carried claim.
ghost use Rattle.std.specs.Prelude.{◌≡◌, ◌+◌, ◌-◌, ◌*◌, ◌^◌, ◌≤◌, ◌<◌, length};
ghost use Rattle.field.specs.Element.{F, words_of};
ghost use Rattle.field.specs.Powers.{root};
ghost use Rattle.field.specs.Slice.{elem_at};
ghost use Rattle.tables.specs.SubgroupSum.{subgroup_sum};
ghost use Rattle.tables.specs.Points.{coordinates, count};
ghost use Rattle.tables.specs.OnSlices.{value_of};
ghost use Rattle.weights.specs.AtField.{carried_f};

use field::element::{add, scale, sub};
use field::slice::load;
use tables::poly_common::{horner_eval, interpolate_quadratic_at_012};

// The sum of the first polynomial over the skip subgroup, by its coefficients at 0 and at the order.
pub(crate) fn first_sum(l_skip: u32, coefficients: &[u32]) -> [u32; 4]
    requires l_skip_bound { l_skip ≤ 10 }
    requires coefficients_len { length coefficients.now ≡ 4 * (2 ^ (l_skip + 1) - 1) }
    ensures { result ≡ words_of (subgroup_sum F l_skip (root l_skip) (coordinates coefficients.now 0 (count coefficients.now))) }
{
    let order: u32 = 1 << l_skip;
    let a = load(coefficients, 0);
    let b = load(coefficients, order as usize);
    let s = add(a, b);
    scale(s, order)
}

// The carried claim after m rounds.
pub(crate) fn carried_claim(
    coefficients: &[u32],
    pairs: &[u32],
    challenges: &[u32],
    m: usize,
) -> [u32; 4]
    requires { m < 2 ^ 32 }
    ensures { result ≡ words_of (carried_f (value_of coefficients.now (elem_at challenges.now 0)) (λ j. elem_at pairs.now (2 * j)) (λ j. elem_at pairs.now (2 * j + 1)) (λ j. elem_at challenges.now (1 + j)) m) }
{
    let u_0 = load(challenges, 0);
    let mut claim = horner_eval(coefficients, u_0);
    for j in 0..m {
        let s_1 = load(pairs, 2 * j);
        let s_2 = load(pairs, 2 * j + 1);
        let u = load(challenges, 1 + j);
        let s_0 = sub(claim, s_1);
        claim = interpolate_quadratic_at_012(s_0, s_1, s_2, u);
    }
    claim
}
