// The tables, from prover/poly.rs, and the index of the row before, from prover/stacked_reduction.rs.
ghost use Rattle.std.specs.Prelude.{◌≡◌, ◌+◌, ◌*◌, ◌-◌, ◌^◌, ◌<◌, ◌≤◌, min, length};
ghost use Rattle.algebra.specs.Ring.{pow};
ghost use Rattle.field.specs.Element.{F, ◌⊕◌, ◌⊖◌, ◌⊗◌, half_elem, elem_of, words_of};
ghost use Rattle.field.specs.Powers.{root};
ghost use Rattle.field.specs.Slice.{elem_at, words_at};
ghost use Rattle.tables.specs.Index.{before};
ghost use Rattle.tables.specs.EqTable.{eq_table, eq_table_answer, eq_table_exit};
ghost use Rattle.tables.specs.Spread.{Spread};
ghost use Rattle.tables.specs.Doubled.{Doubled};
ghost use Rattle.tables.specs.KernelTable.{kernel_table, kernel_answer, kernel_exit};

use field::answer::Refusal;
use field::element;
use field::powers::skip_power;
use field::slice::{canonical, canonical_four, load, store};

// One coordinate more, the lowest bit of the index: entry j of the first `half` is split into its part without x, entry 2j, and its part with x, entry
// 2j + 1, by one product; from the last entry down, so that each is read before it is written over.
fn expand(out: &mut [u32], half: usize, x: [u32; 4])
    requires { 8 * half ≤ length out.old }
    ensures { Spread out.old half (elem_of x) out.new }
{
    for j in (0..half).rev() {
        let e = load(out, j);
        let hi = element::mul(e, x);
        let lo = element::sub(e, hi);
        store(out, 2 * j + 1, hi);
        store(out, 2 * j, lo);
    }
}

// The eq table of the m coordinates of x into the 2^m elements of out, with the element that stands first in it as the starting element: from the last
// coordinate down, so that after k of them the first 2^k entries are the table of the last k (specs/FromLast).
fn fill_eq(x: &[u32], out: &mut [u32], m: usize)
    requires m_bound { m < 62 }
    requires out_len { length out.old ≡ 4 * 2 ^ m }
    requires out_value { words_at out.old 0 ≡ words_of (elem_at out.old 0) }
    ensures { out.new ≡ eq_table (elem_at out.old 0) x.now m }
{
    let mut half: usize = 1;
    for i in (0..m).rev() {
        let x_i = load(x, i);
        expand(out, half, x_i);
        half *= 2;
    }
}

// The eq table of x times a starting element, where the Rust's starts at one. Document 01's 9 where x is not whole elements or out has not
// 4·2^m words for its m coordinates; 10 where a word of x or of the starting element is not below p.
pub fn evals_eq_hypercube(start: [u32; 4], x: &[u32], out: &mut [u32]) -> Result<(), Refusal>
    ensures value { result ≡ eq_table_answer start x.now out.old }
    ensures out_after { out.new ≡ eq_table_exit start x.now out.old }
{
    if x.len() % 4 != 0 {
        return Err(Refusal::WrongLength);
    }
    let m = x.len() / 4;
    if 62 <= m {
        return Err(Refusal::WrongLength);
    }
    let entries: usize = 1 << m;
    if out.len() != 4 * entries {
        return Err(Refusal::WrongLength);
    }
    if !canonical(x) {
        return Err(Refusal::NotCanonical);
    }
    if !canonical_four(start) {
        return Err(Refusal::NotCanonical);
    }
    store(out, 0, start);
    fill_eq(x, out, m);
    Ok(())
}

// One order more: half of entry j of the first 2^s, times 1 + y and 1 − y, where y is `power` times a power of the generator of order 2^(s + 1).
fn widen(out: &mut [u32], s: u32, half: usize, power: [u32; 4])
    requires s_bound { s < 10 }
    requires half_value { half ≡ 2 ^ s }
    requires half_in_bounds { 8 * half ≤ length out.old }
    ensures { Doubled out.old half (λ j e. half_elem ⊗ e ⊕ half_elem ⊗ e ⊗ (pow F (root (s + 1)) (2 * half - j) ⊗ elem_of power)) (λ j e. half_elem ⊗ e ⊖ half_elem ⊗ e ⊗ (pow F (root (s + 1)) (2 * half - j) ⊗ elem_of power)) out.new }
{
    for j in 0..half {
        let e = element::halve(load(out, j));
        let w = skip_power(s + 1, (2 * half - j) as u32);
        let y = element::scale(power, w);
        let q = element::mul(e, y);
        let lo = element::add(e, q);
        let hi = element::sub(e, q);
        store(out, half + j, hi);
        store(out, j, lo);
    }
}

fn fill_kernels(l: u32, u: [u32; 4], out: &mut [u32])
    requires l_bound { l ≤ 10 }
    requires out_len { length out.old ≡ 4 * 2 ^ l }
    ensures { out.new ≡ kernel_table l (elem_of u) }
{
    let one = element::from_word(1);
    store(out, 0, one);
    let mut half: usize = 1;
    for s in 0..l {
        let power = element::exp_power_of_2(u, l - s - 1);
        widen(out, s, half, power);
        half *= 2;
    }
}

// The kernels at u that the fold at u_0 adds rows by. 1 where l_skip is above 10, 9 where out has not 4·2^l_skip words.
pub fn eq_uni_kernels(l_skip: u32, u: [u32; 4], out: &mut [u32]) -> Result<(), Refusal>
    ensures value { result ≡ kernel_answer l_skip out.old }
    ensures out_after { out.new ≡ kernel_exit l_skip (elem_of u) out.old }
{
    if 10 < l_skip {
        return Err(Refusal::LimitExceeded);
    }
    let entries: usize = 1 << l_skip;
    if out.len() != 4 * entries {
        return Err(Refusal::WrongLength);
    }
    fill_kernels(l_skip, u, out);
    Ok(())
}

// The row before row x of 2^n, the last before row 0; an n above 31 is read as 31.
pub fn rot_prev(x: u32, n: u32) -> u32
    ensures { result ≡ before (2 ^ min n 31) x }
{
    let rows: u32 = 1 << n.min(31);
    x.checked_sub(1).unwrap_or(rows - 1)
}
