// The kernels at points, from poly_common.rs. Elements are words by value and points are slices of words; any words are
// taken, each read modulo p. An l_skip above 10 is read as 10.
ghost use Rattle.std.specs.Prelude.{◌≡◌, ◌+◌, ◌-◌, ◌^◌, ◌<◌, min};
ghost use Rattle.algebra.specs.Ring.{pow};
ghost use Rattle.algebra.specs.Sum.{product};
ghost use Rattle.algebra.specs.Multilinear.{bit_factor, line};
ghost use Rattle.field.specs.Element.{F, ◌⊕◌, ◌⊖◌, ◌⊗◌, half_elem, elem_of, words_of};
ghost use Rattle.tables.specs.EqMle.{eq_mle};
ghost use Rattle.tables.specs.RotCube.{rot_cube};
ghost use Rattle.tables.specs.Points.{coordinates, shared};
ghost use Rattle.tables.specs.AtField.{eq_uni_f, quadratic_f, lack, in_uni_f};
ghost use Rattle.tables.specs.OnSlices.{eq_mle_of, rot_cube_of, eq_prism_of, rot_prism_of, value_of};

use field::element;
use field::element::{add, double, halve, mul, square, sub};
use field::powers::skip_power;
use field::slice::load;

// The number of whole elements that both slices have.
fn shared_count(x: &[u32], y: &[u32]) -> usize
    ensures { result ≡ shared x.now y.now }
{
    (x.len() / 4).min(y.len() / 4)
}

// Half of a, l times.
pub fn halve_times(a: [u32; 4], l: u32) -> [u32; 4]
    ensures { result ≡ words_of (pow F half_elem l ⊗ elem_of a) }
{
    (0..l).fold(element::canonical(a), |x, _| halve(x))
}

// 1 − y − x + 2xy.
fn eq_factor(x: [u32; 4], y: [u32; 4]) -> [u32; 4]
    ensures { result ≡ words_of (F.one ⊖ elem_of y ⊖ elem_of x ⊕ (elem_of x ⊗ elem_of y ⊕ elem_of x ⊗ elem_of y)) }
{
    let one = element::from_word(1);
    let xy = mul(x, y);
    add(sub(sub(one, y), x), double(xy))
}

// The eq kernel of m coordinates from index i on.
fn eq_mle_from(x: &[u32], y: &[u32], i: usize, m: usize) -> [u32; 4]
    requires { i + m < 2 ^ 63 }
    ensures { result ≡ words_of (eq_mle F (coordinates x.now i m) (coordinates y.now i m)) }
{
    (i..i + m).fold(element::from_word(1), |acc, k| {
        mul(acc, eq_factor(load(x, k), load(y, k)))
    })
}

pub fn eval_eq_mle(x: &[u32], y: &[u32]) -> [u32; 4]
    ensures { result ≡ words_of (eq_mle_of x.now y.now) }
{
    let m = shared_count(x, y);
    eq_mle_from(x, y, 0, m)
}

// The factor of a bit at x: x where the bit is not 0, else 1 − x.
pub fn bit_factor(x: [u32; 4], bit: usize) -> [u32; 4]
    ensures { result ≡ words_of (bit_factor F (elem_of x) bit) }
{
    if bit == 0 {
        let one = element::from_word(1);
        return sub(one, x);
    }
    element::canonical(x)
}

// (x + y)·res + (x − 1)·(y − 1)
fn eq_uni_step(res: [u32; 4], x: [u32; 4], y: [u32; 4]) -> [u32; 4]
    ensures { result ≡ words_of ((elem_of x ⊕ elem_of y) ⊗ elem_of res ⊕ (elem_of x ⊖ F.one) ⊗ (elem_of y ⊖ F.one)) }
{
    let one = element::from_word(1);
    add(mul(add(x, y), res), mul(sub(x, one), sub(y, one)))
}

pub fn eval_eq_uni(l_skip: u32, x: [u32; 4], y: [u32; 4]) -> [u32; 4]
    ensures { result ≡ words_of (eq_uni_f (min l_skip 10) (elem_of x) (elem_of y)) }
{
    let l = l_skip.min(10);
    let mut res = element::from_word(1);
    let mut x_pow = element::canonical(x);
    let mut y_pow = element::canonical(y);
    for _ in 0..l {
        (res, x_pow, y_pow) = (eq_uni_step(res, x_pow, y_pow), square(x_pow), square(y_pow));
    }
    halve_times(res, l)
}

// half^l · Π_{i<l} (1 + x^(2^i))
fn mean_of_powers(l: u32, x: [u32; 4]) -> [u32; 4]
    ensures { result ≡ words_of (pow F half_elem l ⊗ product F l (λ i. F.one ⊕ pow F (elem_of x) (2 ^ i))) }
{
    let one = element::from_word(1);
    let mut res = one;
    let mut x_pow = element::canonical(x);
    for _ in 0..l {
        (res, x_pow) = (mul(res, add(one, x_pow)), square(x_pow));
    }
    halve_times(res, l)
}

pub fn eval_eq_uni_at_one(l_skip: u32, x: [u32; 4]) -> [u32; 4]
    ensures { result ≡ words_of (eq_uni_f (min l_skip 10) (elem_of x) F.one) }
{
    mean_of_powers(l_skip.min(10), x)
}

// How far n lies below 0, and 0 where it does not.
fn below_zero(n: i32) -> u32
    ensures { result ≡ lack n }
{
    n.min(0).unsigned_abs()
}

// n is signed; an n below −l_skip is read as −l_skip.
pub fn eval_in_uni(l_skip: u32, n: i32, z: [u32; 4]) -> [u32; 4]
    ensures { result ≡ words_of (in_uni_f (min l_skip 10) n (elem_of z)) }
{
    let l = l_skip.min(10);
    let d = below_zero(n);
    if d < l {
        let z_pow = element::exp_power_of_2(z, l - d);
        return mean_of_powers(d, z_pow);
    }
    mean_of_powers(l, z)
}

pub fn eval_eq_prism(l_skip: u32, x: &[u32], y: &[u32]) -> [u32; 4]
    ensures { result ≡ words_of (eq_prism_of (min l_skip 10) x.now y.now) }
{
    let m = shared_count(x, y);
    let n = m.saturating_sub(1);
    let uni = eval_eq_uni(l_skip, load(x, 0), load(y, 0));
    let cube = eq_mle_from(x, y, 1, n);
    mul(uni, cube)
}

// x·(1 − y)·eq + (1 − x)·y·rot
fn rot_step(x: [u32; 4], y: [u32; 4], eq: [u32; 4], rot: [u32; 4]) -> [u32; 4]
    ensures { result ≡ words_of (elem_of x ⊗ (F.one ⊖ elem_of y) ⊗ elem_of eq ⊕ (F.one ⊖ elem_of x) ⊗ elem_of y ⊗ elem_of rot) }
{
    let one = element::from_word(1);
    add(mul(mul(x, sub(one, y)), eq), mul(mul(sub(one, x), y), rot))
}

#[derive(Clone, Copy)]
pub struct EqRot {
    pub eq: [u32; 4],
    pub rot: [u32; 4],
}

// The eq and the rotation kernel of m coordinates from index i on, from the last one down.
fn eq_rot_cube_from(x: &[u32], y: &[u32], i: usize, m: usize) -> EqRot
    requires { i + m < 2 ^ 63 }
    ensures eq { result.eq ≡ words_of (eq_mle F (coordinates x.now i m) (coordinates y.now i m)) }
    ensures rot { result.rot ≡ words_of (rot_cube F (coordinates x.now i m) (coordinates y.now i m)) }
{
    let mut eq = element::from_word(1);
    let mut rot = element::from_word(1);
    for j in (0..m).rev() {
        let a = load(x, i + j);
        let b = load(y, i + j);
        (rot, eq) = (rot_step(a, b, eq, rot), mul(eq_factor(a, b), eq));
    }
    EqRot { eq, rot }
}

pub fn eval_eq_rot_cube(x: &[u32], y: &[u32]) -> EqRot
    ensures eq { result.eq ≡ words_of (eq_mle_of x.now y.now) }
    ensures rot { result.rot ≡ words_of (rot_cube_of x.now y.now) }
{
    let m = shared_count(x, y);
    eq_rot_cube_from(x, y, 0, m)
}

pub fn eval_rot_kernel_prism(l_skip: u32, x: &[u32], y: &[u32]) -> [u32; 4]
    ensures { result ≡ words_of (rot_prism_of (min l_skip 10) x.now y.now) }
{
    let m = shared_count(x, y);
    let n = m.saturating_sub(1);
    let cube = eq_rot_cube_from(x, y, 1, n);
    let eq = cube.eq;
    let rot = cube.rot;
    let x_0 = load(x, 0);
    let y_0 = element::scale(load(y, 0), skip_power(l_skip, 1));
    let a = mul(eval_eq_uni(l_skip, x_0, y_0), eq);
    let b = mul(
        eval_eq_uni_at_one(l_skip, x_0),
        eval_eq_uni_at_one(l_skip, y_0),
    );
    let c = mul(b, sub(rot, eq));
    add(a, c)
}

pub fn horner_eval(coeffs: &[u32], x: [u32; 4]) -> [u32; 4]
    ensures { result ≡ words_of (value_of coeffs.now (elem_of x)) }
{
    let mut acc = element::from_word(0);
    for j in (0..coeffs.len() / 4).rev() {
        let c = load(coeffs, j);
        let a = mul(x, acc);
        let next = add(c, a);
        acc = next;
    }
    acc
}

pub fn interpolate_linear_at_01(s0: [u32; 4], s1: [u32; 4], x: [u32; 4]) -> [u32; 4]
    ensures { result ≡ words_of (line F (elem_of s0) (elem_of s1) (elem_of x)) }
{
    add(s0, mul(sub(s1, s0), x))
}

pub fn interpolate_quadratic_at_012(
    s0: [u32; 4],
    s1: [u32; 4],
    s2: [u32; 4],
    x: [u32; 4],
) -> [u32; 4]
    ensures { result ≡ words_of (quadratic_f (elem_of s0) (elem_of s1) (elem_of s2) (elem_of x)) }
{
    let d1 = sub(s1, s0);
    let d2 = sub(s2, s1);
    let p = halve(sub(d2, d1));
    let q = sub(d1, p);
    add(mul(add(mul(p, x), q), x), s0)
}
