// The kernels and tables, for comparison.
ghost use Rattle.std.specs.Prelude.{◌≡◌, min};
ghost use Rattle.algebra.specs.Multilinear.{line};
ghost use Rattle.field.specs.Number.{number_of};
ghost use Rattle.field.specs.Element.{F, elem_of, words_of};
ghost use Rattle.tables.specs.AtField.{eq_uni_f, in_uni_f, quadratic_f};
ghost use Rattle.tables.specs.OnSlices.{eq_mle_of, rot_cube_of, eq_prism_of, rot_prism_of, value_of};
ghost use Rattle.tables.specs.EqTable.{eq_table_answer, eq_table_exit};
ghost use Rattle.tables.specs.KernelTable.{kernel_answer, kernel_exit};

use crate::elements::Element;
use field::answer;
use tables::{poly, poly_common};

#[repr(C)]
#[derive(Clone, Copy)]
pub struct EqRot {
    pub eq: Element,
    pub rot: Element,
}

#[unsafe(no_mangle)]
pub extern "C" fn legrudda_eval_eq_mle(x: &[u32], y: &[u32]) -> Element
    ensures { result.words ≡ words_of (eq_mle_of x.now y.now) }
{
    Element {
        words: poly_common::eval_eq_mle(x, y),
    }
}

#[unsafe(no_mangle)]
pub extern "C" fn legrudda_eval_eq_uni(l_skip: u32, x: Element, y: Element) -> Element
    ensures { result.words ≡ words_of (eq_uni_f (min l_skip 10) (elem_of x.words) (elem_of y.words)) }
{
    Element {
        words: poly_common::eval_eq_uni(l_skip, x.words, y.words),
    }
}

#[unsafe(no_mangle)]
pub extern "C" fn legrudda_eval_eq_uni_at_one(l_skip: u32, x: Element) -> Element
    ensures { result.words ≡ words_of (eq_uni_f (min l_skip 10) (elem_of x.words) F.one) }
{
    Element {
        words: poly_common::eval_eq_uni_at_one(l_skip, x.words),
    }
}

#[unsafe(no_mangle)]
pub extern "C" fn legrudda_eval_in_uni(l_skip: u32, n: i32, z: Element) -> Element
    ensures { result.words ≡ words_of (in_uni_f (min l_skip 10) n (elem_of z.words)) }
{
    Element {
        words: poly_common::eval_in_uni(l_skip, n, z.words),
    }
}

#[unsafe(no_mangle)]
pub extern "C" fn legrudda_eval_eq_prism(l_skip: u32, x: &[u32], y: &[u32]) -> Element
    ensures { result.words ≡ words_of (eq_prism_of (min l_skip 10) x.now y.now) }
{
    Element {
        words: poly_common::eval_eq_prism(l_skip, x, y),
    }
}

#[unsafe(no_mangle)]
pub extern "C" fn legrudda_eval_rot_kernel_prism(l_skip: u32, x: &[u32], y: &[u32]) -> Element
    ensures { result.words ≡ words_of (rot_prism_of (min l_skip 10) x.now y.now) }
{
    Element {
        words: poly_common::eval_rot_kernel_prism(l_skip, x, y),
    }
}

#[unsafe(no_mangle)]
pub extern "C" fn legrudda_eval_eq_rot_cube(x: &[u32], y: &[u32]) -> EqRot
    ensures eq { result.eq.words ≡ words_of (eq_mle_of x.now y.now) }
    ensures rot { result.rot.words ≡ words_of (rot_cube_of x.now y.now) }
{
    let both = poly_common::eval_eq_rot_cube(x, y);
    let eq = both.eq;
    let rot = both.rot;
    EqRot {
        eq: Element { words: eq },
        rot: Element { words: rot },
    }
}

#[unsafe(no_mangle)]
pub extern "C" fn legrudda_horner_eval(coeffs: &[u32], x: Element) -> Element
    ensures { result.words ≡ words_of (value_of coeffs.now (elem_of x.words)) }
{
    Element {
        words: poly_common::horner_eval(coeffs, x.words),
    }
}

#[unsafe(no_mangle)]
pub extern "C" fn legrudda_interpolate_linear_at_01(e0: Element, e1: Element, x: Element) -> Element
    ensures { result.words ≡ words_of (line F (elem_of e0.words) (elem_of e1.words) (elem_of x.words)) }
{
    Element {
        words: poly_common::interpolate_linear_at_01(e0.words, e1.words, x.words),
    }
}

#[unsafe(no_mangle)]
pub extern "C" fn legrudda_interpolate_quadratic_at_012(
    e0: Element,
    e1: Element,
    e2: Element,
    x: Element,
) -> Element
    ensures { result.words ≡ words_of (quadratic_f (elem_of e0.words) (elem_of e1.words) (elem_of e2.words) (elem_of x.words)) }
{
    Element {
        words: poly_common::interpolate_quadratic_at_012(e0.words, e1.words, e2.words, x.words),
    }
}

#[unsafe(no_mangle)]
pub extern "C" fn legrudda_evals_eq_hypercube(start: Element, x: &[u32], out: &mut [u32]) -> u32
    ensures answer { result ≡ number_of (eq_table_answer start.words x.now out.old) }
    ensures table { out.new ≡ eq_table_exit start.words x.now out.old }
{
    answer::number(poly::evals_eq_hypercube(start.words, x, out))
}

#[unsafe(no_mangle)]
pub extern "C" fn legrudda_eq_uni_kernels(l_skip: u32, u: Element, out: &mut [u32]) -> u32
    ensures answer { result ≡ number_of (kernel_answer l_skip out.old) }
    ensures table { out.new ≡ kernel_exit l_skip (elem_of u.words) out.old }
{
    answer::number(poly::eq_uni_kernels(l_skip, u.words, out))
}
