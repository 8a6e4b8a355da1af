// The inverse transform over the skip subgroup, by doubling, in words below p.
ghost use Rattle.std.specs.Prelude.{◌≡◌, ◌*◌, ◌^◌, ◌<◌, ◌≤◌, length};
ghost use Rattle.field.specs.Slice.{elem_at};
ghost use Rattle.prover.specs.Transforms.{pass_f, transformed_f};
ghost use Rattle.prover.specs.Gained.{Elements, Table};
ghost use Rattle.field.specs.PowerTable.{PowerTable};

use crate::canonical;
use crate::elements::{copy_elements, read, write};
use field::element::scale;

// 2^l
pub(crate) fn two_to(l: u32) -> usize
    requires { l ≤ 12 }
    ensures value { result ≡ 2 ^ l }
    ensures result_nonzero { 0 < result }
    ensures upper_bound { result ≤ 4096 }
{
    1 << l
}

// Entry 2i − i mod 2^s of b and the one 2^s further on, from entries i and i + 2^(l−1) of a, by one product.
fn pass(l: u32, s: u32, t: &[u32; 1024], a: &[u32], b: &mut [u32])
    requires l_bound { l ≤ 10 }
    requires s_lt_l { s < l }
    requires power_table { PowerTable t.now }
    requires elements { Elements (2 ^ l) a.now }
    requires b_len { length b.old ≡ 4 * 2 ^ l }
    ensures { Table (2 ^ l) (pass_f l s (elem_at a.now)) b.new }
{
    let block = two_to(s);
    let pairs = two_to(l - 1);
    let step = two_to(9 - s);
    for i in 0..pairs {
        let k = i % block;
        let x = read(a, i);
        let w = t[(2 * block - k) * step % 1024];
        let y = scale(read(a, i + pairs), w);
        let lo = canonical::add(x, y);
        let hi = canonical::sub(x, y);
        let at = 2 * i - k;
        write(b, at, lo);
        write(b, at + block, hi);
    }
}

// Entry k of a becomes Σ_j a_j · w^(−jk); b is room of the same length.
pub(crate) fn transform(l: u32, t: &[u32; 1024], a: &mut [u32], b: &mut [u32])
    requires l_bound { l ≤ 10 }
    requires power_table { PowerTable t.now }
    requires elements { Elements (2 ^ l) a.old }
    requires b_len { length b.old ≡ 4 * 2 ^ l }
    ensures table { Table (2 ^ l) (transformed_f l (elem_at a.old)) a.new }
    ensures b_len_2 { length b.new ≡ 4 * 2 ^ l }
{
    for i in 0..l / 2 {
        let s = 2 * i;
        pass(l, s, t, a, b);
        pass(l, s + 1, t, b, a);
    }
    if l % 2 == 1 {
        pass(l, l - 1, t, a, b);
        copy_elements(b, a, two_to(l));
    }
}
