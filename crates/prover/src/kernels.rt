// The kernels by which the fold at u_0 scales and turns a height's tables, from prover/stacked_reduction.rs.
ghost use Rattle.std.specs.Prelude.{◌≡◌, ℕ, ◌-◌, ◌≤◌, List};
ghost use Rattle.field.specs.Element.{F, ◌⊗◌, elem_of, words_of};
ghost use Rattle.field.specs.Powers.{root};
ghost use Rattle.field.specs.Slice.{elem_at};
ghost use Rattle.tables.specs.AtField.{eq_uni_f};
ghost use Rattle.weights.specs.RunOf.{run_of};
ghost use Rattle.prover.specs.UniKernels.{inside, kernels_of};

use field::element;
use field::element::{exp_power_of_2, mul};
use field::powers::skip_power;
use field::slice::load;
use layout::columns::lifted;
use tables::poly_common::{eval_eq_uni, eval_eq_uni_at_one, eval_in_uni};

// What the eq table is multiplied by; and of the rotation table what an entry is, and what its difference from the one before.
#[derive(Drop)]
pub(crate) struct Kernels {
    pub(crate) eq: [u32; 4],
    pub(crate) rot: [u32; 4],
    pub(crate) shift: [u32; 4],
}

// The generator of order 2^l times x.
pub(crate) fn turned(l: u32, x: [u32; 4]) -> [u32; 4]
    requires { l ≤ 10 }
    ensures { result ≡ words_of (root l ⊗ elem_of x) }
{
    let w = element::from_word(skip_power(l, 1));
    mul(w, x)
}

// eq_const: what the last row of a block and the first one of the next have in common.
pub(crate) fn shift_kernel(l_skip: u32, r: &[u32], u: [u32; 4]) -> [u32; 4]
    requires { l_skip ≤ 10 }
    ensures { result ≡ words_of (eq_uni_f l_skip (elem_of u) F.one ⊗ eq_uni_f l_skip (root l_skip ⊗ elem_at r.now 0) F.one) }
{
    let before = turned(l_skip, load(r, 0));
    let a = eval_eq_uni_at_one(l_skip, u);
    let b = eval_eq_uni_at_one(l_skip, before);
    mul(a, b)
}

// The indicator of a column of log height h.
fn indicator_of(l_skip: u32, h: u32, u: [u32; 4]) -> [u32; 4]
    requires { (l_skip ≤ 10) × (h ≤ 24) }
    ensures { (n first : ℕ) (lists point lambda : List ℕ) → result ≡ words_of (inside (run_of l_skip n first lists point lambda) h (elem_of u)) }
{
    let n = h as i32 - l_skip as i32;
    eval_in_uni(l_skip, n, u)
}

pub(crate) fn height_kernels(
    l_skip: u32,
    h: u32,
    r: &[u32],
    u: [u32; 4],
    shift: [u32; 4],
) -> Kernels
    requires l_skip_bound { (l_skip ≤ 10) × (h ≤ 24) }
    requires shift_value { shift ≡ words_of (eq_uni_f l_skip (elem_of u) F.one ⊗ eq_uni_f l_skip (root l_skip ⊗ elem_at r.now 0) F.one) }
    ensures { (n first : ℕ) (lists lambda : List ℕ) → result ≡ kernels_of (run_of l_skip n first lists r.now lambda) h (elem_of u) }
{
    let ind = indicator_of(l_skip, h, u);
    let l = lifted(l_skip, lifted(l_skip, h));
    let r_0 = exp_power_of_2(load(r, 0), lifted(l_skip, h));
    let a = eval_eq_uni(l, u, r_0);
    let b = eval_eq_uni(l, u, turned(l, r_0));
    Kernels {
        eq: mul(ind, a),
        rot: mul(ind, b),
        shift: mul(ind, shift),
    }
}
