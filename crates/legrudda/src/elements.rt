// The arithmetic of elements, for comparison and measurement.
ghost use Rattle.std.specs.Prelude.{◌≡◌, ◌^◌, min};
ghost use Rattle.algebra.specs.Ring.{pow};
ghost use Rattle.field.specs.Word.{Fp, word_of, number};
ghost use Rattle.field.specs.Element.{F, ◌⊕◌, ◌⊖◌, ◌⊗◌, neg, from_word, half_elem, elem_of, words_of};
ghost use Rattle.field.specs.Powers.{generator};
ghost use Rattle.field.specs.Slice.{elem_at, put};

use field::{element, powers, slice};

#[repr(C)]
#[derive(Clone, Copy)]
pub struct Element {
    pub words: [u32; 4],
}

#[unsafe(no_mangle)]
pub extern "C" fn legrudda_add(a: Element, b: Element) -> Element
    ensures { result.words ≡ words_of (elem_of a.words ⊕ elem_of b.words) }
{
    Element {
        words: element::add(a.words, b.words),
    }
}

#[unsafe(no_mangle)]
pub extern "C" fn legrudda_sub(a: Element, b: Element) -> Element
    ensures { result.words ≡ words_of (elem_of a.words ⊖ elem_of b.words) }
{
    Element {
        words: element::sub(a.words, b.words),
    }
}

#[unsafe(no_mangle)]
pub extern "C" fn legrudda_neg(a: Element) -> Element
    ensures { result.words ≡ words_of (neg (elem_of a.words)) }
{
    Element {
        words: element::neg(a.words),
    }
}

#[unsafe(no_mangle)]
pub extern "C" fn legrudda_double(a: Element) -> Element
    ensures { result.words ≡ words_of (elem_of a.words ⊕ elem_of a.words) }
{
    Element {
        words: element::double(a.words),
    }
}

#[unsafe(no_mangle)]
pub extern "C" fn legrudda_halve(a: Element) -> Element
    ensures { result.words ≡ words_of (half_elem ⊗ elem_of a.words) }
{
    Element {
        words: element::halve(a.words),
    }
}

#[unsafe(no_mangle)]
pub extern "C" fn legrudda_mul(a: Element, b: Element) -> Element
    ensures { result.words ≡ words_of (elem_of a.words ⊗ elem_of b.words) }
{
    Element {
        words: element::mul(a.words, b.words),
    }
}

#[unsafe(no_mangle)]
pub extern "C" fn legrudda_square(a: Element) -> Element
    ensures { result.words ≡ words_of (elem_of a.words ⊗ elem_of a.words) }
{
    Element {
        words: element::square(a.words),
    }
}

#[unsafe(no_mangle)]
pub extern "C" fn legrudda_scale(a: Element, word: u32) -> Element
    ensures { result.words ≡ words_of (from_word (word_of word) ⊗ elem_of a.words) }
{
    Element {
        words: element::scale(a.words, word),
    }
}

#[unsafe(no_mangle)]
pub extern "C" fn legrudda_from_word(word: u32) -> Element
    ensures { result.words ≡ words_of (from_word (word_of word)) }
{
    Element {
        words: element::from_word(word),
    }
}

#[unsafe(no_mangle)]
pub extern "C" fn legrudda_exp_power_of_2(a: Element, k: u32) -> Element
    ensures { result.words ≡ words_of (pow F (elem_of a.words) (2 ^ k)) }
{
    Element {
        words: element::exp_power_of_2(a.words, k),
    }
}

#[unsafe(no_mangle)]
pub extern "C" fn legrudda_skip_power(l_skip: u32, i: u32) -> u32
    ensures { result ≡ number (pow Fp (generator (min l_skip 10)) i) }
{
    powers::skip_power(l_skip, i)
}

#[unsafe(no_mangle)]
pub extern "C" fn legrudda_load(s: &[u32], index: usize) -> Element
    ensures { result.words ≡ words_of (elem_at s.now index) }
{
    Element {
        words: slice::load(s, index),
    }
}

#[unsafe(no_mangle)]
pub extern "C" fn legrudda_store(s: &mut [u32], index: usize, a: Element)
    ensures { s.new ≡ put s.old index (elem_of a.words) }
{
    slice::store(s, index, a.words);
}
