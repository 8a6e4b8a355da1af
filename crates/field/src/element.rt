// Arithmetic on elements, four words by value. Any words are taken, each read modulo p but by `same`; every word of a result is below p.
ghost use Rattle.std.specs.Prelude.{◌≡◌, ◌+◌, ◌*◌, ◌%◌, ◌^◌, ◌<◌};
ghost use Rattle.algebra.specs.Ring.{pow};
ghost use Rattle.field.specs.Word.{word_of, «p»};
ghost use Rattle.field.specs.Element.{F, ◌⊕◌, ◌⊖◌, ◌⊗◌, neg, from_word, half_elem, elem_of, words_of};
ghost use Rattle.field.specs.Canonical.{Canonical, Below};
ghost use Rattle.field.specs.Same.{same_words};

use crate::word;
use crate::word::{P, P64};

// A word modulo p. Nearly every word that comes is below p, and is told so faster than divided.
fn reduced(x: u32) -> u32
    ensures { result ≡ x % «p» }
{
    if x < P {
        return x;
    }
    x % P
}

// The same element in words below p.
pub fn canonical(a: [u32; 4]) -> [u32; 4]
    ensures { result ≡ words_of (elem_of a) }
{
    [reduced(a[0]), reduced(a[1]), reduced(a[2]), reduced(a[3])]
}

pub fn from_word(x: u32) -> [u32; 4]
    ensures { result ≡ words_of (from_word (word_of x)) }
{
    [x % P, 0, 0, 0]
}

pub fn add(a: [u32; 4], b: [u32; 4]) -> [u32; 4]
    ensures { result ≡ words_of (elem_of a ⊕ elem_of b) }
{
    [
        word::add(a[0], b[0]),
        word::add(a[1], b[1]),
        word::add(a[2], b[2]),
        word::add(a[3], b[3]),
    ]
}

pub fn sub(a: [u32; 4], b: [u32; 4]) -> [u32; 4]
    ensures { result ≡ words_of (elem_of a ⊖ elem_of b) }
{
    [
        word::sub(a[0], b[0]),
        word::sub(a[1], b[1]),
        word::sub(a[2], b[2]),
        word::sub(a[3], b[3]),
    ]
}

pub fn neg(a: [u32; 4]) -> [u32; 4]
    ensures { result ≡ words_of (neg (elem_of a)) }
{
    [
        word::neg(a[0]),
        word::neg(a[1]),
        word::neg(a[2]),
        word::neg(a[3]),
    ]
}

pub fn double(a: [u32; 4]) -> [u32; 4]
    ensures { result ≡ words_of (elem_of a ⊕ elem_of a) }
{
    add(a, a)
}

pub fn halve(a: [u32; 4]) -> [u32; 4]
    ensures { result ≡ words_of (half_elem ⊗ elem_of a) }
{
    [
        word::halve(a[0]),
        word::halve(a[1]),
        word::halve(a[2]),
        word::halve(a[3]),
    ]
}

pub fn scale(a: [u32; 4], x: u32) -> [u32; 4]
    ensures { result ≡ words_of (from_word (word_of x) ⊗ elem_of a) }
{
    [
        word::mul(x, a[0]),
        word::mul(x, a[1]),
        word::mul(x, a[2]),
        word::mul(x, a[3]),
    ]
}

// The sum of four products of words below p, which a u64 holds, reduced once.
fn dot(a0: u32, a1: u32, a2: u32, a3: u32, b0: u32, b1: u32, b2: u32, b3: u32) -> u32
    requires below { Below a0 a1 a2 a3 }
    requires below_2 { Below b0 b1 b2 b3 }
    ensures { result ≡ (a0 * b0 + a1 * b1 + a2 * b2 + a3 * b3) % «p» }
{
    ((a0 as u64 * b0 as u64 + a1 as u64 * b1 as u64 + a2 as u64 * b2 as u64 + a3 as u64 * b3 as u64)
        % P64) as u32
}

// The product of canonical elements: what X⁴ = 11 brings round is taken 11 times before, so seven reductions in all.
fn product(a: [u32; 4], b: [u32; 4]) -> [u32; 4]
    requires canonical { Canonical a }
    requires canonical_2 { Canonical b }
    ensures { result ≡ words_of (elem_of a ⊗ elem_of b) }
{
    let a0 = a[0];
    let a1 = a[1];
    let a2 = a[2];
    let a3 = a[3];
    let b0 = b[0];
    let b1 = b[1];
    let b2 = b[2];
    let b3 = b[3];
    let w1 = word::mul(11, b1);
    let w2 = word::mul(11, b2);
    let w3 = word::mul(11, b3);
    [
        dot(a0, a1, a2, a3, b0, w3, w2, w1),
        dot(a0, a1, a2, a3, b1, b0, w3, w2),
        dot(a0, a1, a2, a3, b2, b1, b0, w3),
        dot(a0, a1, a2, a3, b3, b2, b1, b0),
    ]
}

pub fn mul(a: [u32; 4], b: [u32; 4]) -> [u32; 4]
    ensures { result ≡ words_of (elem_of a ⊗ elem_of b) }
{
    product(canonical(a), canonical(b))
}

pub fn square(a: [u32; 4]) -> [u32; 4]
    ensures { result ≡ words_of (elem_of a ⊗ elem_of a) }
{
    mul(a, a)
}

// The power 2^k, by k squarings.
pub fn exp_power_of_2(a: [u32; 4], k: u32) -> [u32; 4]
    ensures { result ≡ words_of (pow F (elem_of a) (2 ^ k)) }
{
    (0..k).fold(canonical(a), |x, _| square(x))
}

// Whether two elements have the same words, compared as they stand: of words below p, whether the elements are equal.
pub fn same(a: [u32; 4], b: [u32; 4]) -> bool
    ensures { result ≡ same_words a b }
{
    a == b
}
