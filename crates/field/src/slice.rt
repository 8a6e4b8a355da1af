// Elements in a lent slice of words, and the scan for words that are not below p.
ghost use Rattle.std.specs.Prelude.{◌≡◌, get_or, set};
ghost use Rattle.field.specs.Element.{elem_of, words_of};
ghost use Rattle.field.specs.Slice.{elem_at, put, canonical_words, canonical_four};

use crate::element;
use crate::word::P;

// The word at an index, and 0 past the end.
pub fn word_at(xs: &[u32], i: usize) -> u32
    ensures { result ≡ get_or xs.now i 0 }
{
    if i < xs.len() { xs[i] } else { 0 }
}

// The element at an index, in words below p; a word past the end reads as 0.
pub fn load(xs: &[u32], i: usize) -> [u32; 4]
    ensures { result ≡ words_of (elem_at xs.now i) }
{
    if xs.len() / 4 < i {
        return [0, 0, 0, 0];
    }
    let at = 4 * i;
    let e = [
        word_at(xs, at),
        word_at(xs, at + 1),
        word_at(xs, at + 2),
        word_at(xs, at + 3),
    ];
    element::canonical(e)
}

fn put_word(xs: &mut [u32], i: usize, x: u32)
    ensures { xs.new ≡ set xs.old i x }
{
    if i < xs.len() {
        xs[i] = x;
    }
}

// Puts an element at an index, in words below p; a word past the end is dropped.
pub fn store(xs: &mut [u32], i: usize, e: [u32; 4])
    ensures { xs.new ≡ put xs.old i (elem_of e) }
{
    if xs.len() / 4 < i {
        return;
    }
    let c = element::canonical(e);
    let at = 4 * i;
    put_word(xs, at, c[0]);
    put_word(xs, at + 1, c[1]);
    put_word(xs, at + 2, c[2]);
    put_word(xs, at + 3, c[3]);
}

// Whether every word is below p. It reads all of them: a loop with one exit is what the compiler makes vectors of.
pub fn canonical(xs: &[u32]) -> bool
    ensures { result ≡ canonical_words xs.now }
{
    let mut ok = true;
    for x in xs {
        if *x >= P {
            ok = false;
        }
    }
    ok
}

// Whether the four words of an element are below p.
pub fn canonical_four(a: [u32; 4]) -> bool
    ensures { result ≡ canonical_four a }
{
    canonical(&a)
}
