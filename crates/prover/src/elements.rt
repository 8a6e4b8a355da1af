// Elements in a lent slice of words below p, read and written with no reduction; and the loops that fill work buffers with them.
ghost use Rattle.std.specs.Prelude.{◌≡◌, ◌+◌, ◌*◌, ◌^◌, ◌<◌, ◌≤◌, length};
ghost use Rattle.field.specs.Element.{elem_of};
ghost use Rattle.field.specs.Canonical.{Canonical};
ghost use Rattle.field.specs.Slice.{elem_at, words_at, put};
ghost use Rattle.prover.specs.Words.{CanonicalFrom};
ghost use Rattle.prover.specs.Written.{Written, elems_from};
ghost use Rattle.prover.specs.Live.{Held};
ghost use Rattle.prover.specs.Rotated.{rotated};

use crate::canonical;
use tables::poly::rot_prev;

// The element at an index, its words as they stand.
pub(crate) fn read(xs: &[u32], i: usize) -> [u32; 4]
    requires { 4 * i + 3 < length xs.now }
    ensures { result ≡ words_at xs.now i }
{
    let at = 4 * i;
    [xs[at], xs[at + 1], xs[at + 2], xs[at + 3]]
}

// Puts an element at an index.
pub(crate) fn write(xs: &mut [u32], i: usize, e: [u32; 4])
    requires i_in_bounds { 4 * i + 3 < length xs.old }
    requires canonical { Canonical e }
    ensures { xs.new ≡ put xs.old i (elem_of e) }
{
    let at = 4 * i;
    xs[at] = e[0];
    xs[at + 1] = e[1];
    xs[at + 2] = e[2];
    xs[at + 3] = e[3];
}

// The same element n times, from index `at` on.
pub(crate) fn fill(t: &mut [u32], at: usize, n: usize, x: [u32; 4])
    requires n_in_bounds { 4 * (at + n) ≤ length t.old }
    requires canonical { Canonical x }
    ensures { Written t.old at n (λ i. elem_of x) t.new }
{
    for k in 0..n {
        write(t, at + k, x);
    }
}

// The first n elements of one slice as those of another, one by one: the library's copy would ask memmove of whoever links it.
pub(crate) fn copy_elements(from: &[u32], to: &mut [u32], n: usize)
    requires n_in_bounds { 4 * n ≤ length to.old }
    requires held { Held from.now 0 n }
    ensures { Written to.old 0 n (elem_at from.now) to.new }
{
    for i in 0..n {
        let e = read(from, i);
        write(to, i, e);
    }
}

// The rotation table of 2^n entries from the eq table that stands at the same index of eq, before that one is made anew.
pub(crate) fn rotate(eq: &[u32], k_rot: &mut [u32], at: usize, n: u32, a: [u32; 4], b: [u32; 4])
    requires n_bound { n ≤ 20 }
    requires n_in_bounds { 4 * (at + 2 ^ n) ≤ length eq.now }
    requires n_in_bounds_2 { 4 * (at + 2 ^ n) ≤ length k_rot.old }
    requires canonical_from { CanonicalFrom eq.now at (2 ^ n) }
    requires canonical { Canonical a }
    requires canonical_2 { Canonical b }
    ensures { Written k_rot.old at (2 ^ n) (rotated (2 ^ n) (elems_from eq.now at) (elem_of a) (elem_of b)) k_rot.new }
{
    let rows: u32 = 1 << n;
    for x in 0..rows {
        let eq_cube = read(eq, at + x as usize);
        let prev = rot_prev(x, n);
        let k_rot_cube = read(eq, at + prev as usize);
        let d = canonical::sub(k_rot_cube, eq_cube);
        let e = canonical::mul(eq_cube, a);
        let y = canonical::mul_add(e, d, b);
        write(k_rot, at + x as usize, y);
    }
}
