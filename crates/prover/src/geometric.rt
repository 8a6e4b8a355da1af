// The product with the geometric kernel of order 2^o at y, by recurrences: without a division, right at every y.
ghost use Rattle.std.specs.Prelude.{◌≡◌, ℕ, ◌+◌, ◌-◌, ◌*◌, ◌^◌, ◌<◌, ◌≤◌, length};
ghost use Rattle.field.specs.Canonical.{Canonical};
ghost use Rattle.field.specs.Element.{F, elem_of, words_of};
ghost use Rattle.field.specs.Slice.{elem_at, words_at};
ghost use Rattle.tables.specs.Shifted.{shifted};
ghost use Rattle.prover.specs.Gained.{Elements, Table, Gained};
ghost use Rattle.field.specs.PowerTable.{PowerTable};
ghost use Rattle.prover.specs.Transforms.{spread_f, product_f, kernel_product_f};

use crate::canonical;
use crate::elements::{read, write};
use crate::transforms::{transform, two_to};
use field::element;
use tables::poly_common::halve_times;

// Element j − d, and zero where j is below d.
fn back(xs: &[u32], j: usize, d: usize) -> [u32; 4]
    requires d_in_bounds { d ≤ j → 4 * (j - d) + 3 < length xs.now }
    requires canonical { d ≤ j → Canonical (words_at xs.now (j - d)) }
    ensures { result ≡ words_of (shifted F d (elem_at xs.now) j) }
{
    if j < d {
        return [0, 0, 0, 0];
    }
    read(xs, j - d)
}

// e_j = a_j + e_(j−M) − a_(j−N), upward: Σ_b a_(j−bM), for M = 2^o and N = 2^l.
fn spread(l: u32, o: u32, a: &[u32], e: &mut [u32])
    requires l_bound { l ≤ 10 }
    requires o_le_l { o ≤ l }
    requires elements { Elements (2 ^ l) a.now }
    requires e_len { length e.old ≡ 4 * (2 * 2 ^ l) }
    ensures { Table (2 * 2 ^ l) (spread_f l o (elem_at a.now)) e.new }
{
    let order = two_to(o);
    let rows = two_to(l);
    for j in 0..rows {
        let x = read(a, j);
        let y = canonical::add(x, back(e, j, order));
        write(e, j, y);
    }
    for j in 0..rows {
        let x = back(e, rows + j, order);
        let y = canonical::sub(x, read(a, j));
        write(e, rows + j, y);
    }
}

// r_j = y·(r_(j+1) + e_(j+1−M)) − y^M·e_j, downward from 0, and out_j gains k·(e_j + r_j).
fn multiply(l: u32, o: u32, y: [u32; 4], k: [u32; 4], e: &[u32], out: &mut [u32])
    requires l_bound { l ≤ 10 }
    requires o_le_l { o ≤ l }
    requires canonical { Canonical y }
    requires canonical_2 { Canonical k }
    requires elements { Elements (2 * 2 ^ l) e.now }
    requires by_index { (i : ℕ) → 2 * 2 ^ l - 2 ^ o ≤ i → i < 2 * 2 ^ l → elem_at e.now i ≡ F.zero }
    requires elements_2 { Elements (2 * 2 ^ l - 1) out.old }
    ensures { Gained (2 * 2 ^ l - 1) (elem_of k) (product_f o (elem_of y) (elem_at e.now)) out.old out.new }
{
    let order = two_to(o);
    let rows = two_to(l);
    let power = element::exp_power_of_2(y, o);
    let mut r = [0u32, 0, 0, 0];
    for j in (0..2 * rows - 1).rev() {
        let s = canonical::add(r, back(e, j + 1, order));
        let t = canonical::mul(y, s);
        let x = read(e, j);
        let next = canonical::sub(t, canonical::mul(power, x));
        r = next;
        let old = read(out, j);
        let g = canonical::mul_add(old, k, canonical::add(x, r));
        write(out, j, g);
    }
}

// out gains k times the product of the kernel of order 2^o at y and of the polynomial with the values a at the powers of w. a is left transformed, e is room.
pub(crate) fn add_product(
    l: u32,
    o: u32,
    t: &[u32; 1024],
    y: [u32; 4],
    k: [u32; 4],
    a: &mut [u32],
    e: &mut [u32],
    out: &mut [u32],
)
    requires l_bound { l ≤ 10 }
    requires o_le_l { o ≤ l }
    requires power_table { PowerTable t.now }
    requires canonical { Canonical y }
    requires canonical_2 { Canonical k }
    requires elements { Elements (2 ^ l) a.old }
    requires e_len { length e.old ≡ 4 * (2 * 2 ^ l) }
    requires elements_2 { Elements (2 * 2 ^ l - 1) out.old }
    ensures gained { Gained (2 * 2 ^ l - 1) (elem_of k) (kernel_product_f l o (elem_of y) (elem_at a.old)) out.old out.new }
    ensures a_len { length a.new ≡ 4 * 2 ^ l }
    ensures e_len_2 { length e.new ≡ 4 * (2 * 2 ^ l) }
{
    let rows = two_to(l);
    transform(l, t, a, &mut e[..4 * rows]);
    spread(l, o, a, e);
    let c = halve_times(k, 2 * l);
    multiply(l, o, y, c, e, out);
}
