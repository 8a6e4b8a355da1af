// The functions of the tables crate: eval_eq_mle eval_eq_uni eval_eq_uni_at_one eval_in_uni eval_eq_prism
// eval_rot_kernel_prism eval_eq_rot_cube evals_eq_hypercube interpolate_quadratic_at_012 horner_eval evals_eq_hypercube_from.
use console_lines::commands::Command;
use console_lines::memory::{Words, element};
use console_lines::replies::Refusal;
use tables::{poly, poly_common};

// h − L, as far as an i32 goes.
fn difference(h: u32, l: u32) -> i32 {
    (i64::from(h) - i64::from(l)).clamp(-2147483647, 2147483647) as i32
}

// Two points of equal length.
fn halves(points: &[u32]) -> (&[u32], &[u32]) {
    points.split_at(points.len() / 2)
}

// The kernels that have L before their points.
fn of_skip(command: Command, l: u32, x: &[u32]) -> Result<[u32; 4], Refusal> {
    let (a, b) = halves(x);
    match command {
        Command::EvalEqUni => Ok(poly_common::eval_eq_uni(l, element(a), element(b))),
        Command::EvalEqUniAtOne => Ok(poly_common::eval_eq_uni_at_one(l, element(x))),
        Command::EvalEqPrism => Ok(poly_common::eval_eq_prism(l, a, b)),
        Command::EvalRotKernelPrism => Ok(poly_common::eval_rot_kernel_prism(l, a, b)),
        _ => Err(Refusal::Error),
    }
}

// interpolate_quadratic_at_012 S0 S1 S2 A
fn interpolate_quadratic_at_012(x: &[u32]) -> Result<[u32; 4], Refusal> {
    let [s0, s1, s2, a] = x.as_chunks().0 else {
        return Err(Refusal::Error);
    };
    Ok(poly_common::interpolate_quadratic_at_012(*s0, *s1, *s2, *a))
}

// horner_eval C.. A
fn horner_eval(x: &[u32]) -> Result<[u32; 4], Refusal> {
    let (coefficients, a) = x.split_last_chunk().ok_or(Refusal::Error)?;
    Ok(poly_common::horner_eval(coefficients, *a))
}

// The kernels whose value is an element.
pub fn value(command: Command, x: &[u32]) -> Result<[u32; 4], Refusal> {
    match (command, x) {
        (Command::EvalEqMle, x) => {
            let (a, b) = halves(x);
            Ok(poly_common::eval_eq_mle(a, b))
        }
        (Command::InterpolateQuadraticAt012, x) => interpolate_quadratic_at_012(x),
        (Command::HornerEval, x) => horner_eval(x),
        (Command::EvalInUni, [l, h, a @ ..]) => {
            Ok(poly_common::eval_in_uni(*l, difference(*h, *l), element(a)))
        }
        (_, [l, rest @ ..]) => of_skip(command, *l, rest),
        _ => Err(Refusal::Error),
    }
}

// eval_eq_rot_cube A.. B..
pub fn eval_eq_rot_cube(x: &[u32], words: &mut Words) {
    let (a, b) = halves(x);
    let r = poly_common::eval_eq_rot_cube(a, b);
    let eq = r.eq;
    let rot = r.rot;
    words.grow(&eq);
    words.grow(&rot);
}

// evals_eq_hypercube A.., whose starting element is one.
pub fn evals_eq_hypercube(start: [u32; 4], x: &[u32], words: &mut Words) -> Result<(), Refusal> {
    let m = x.len() / 4;
    if 16 < m {
        return Err(Refusal::Full);
    }
    let out = words.lent(4 << m)?;
    poly::evals_eq_hypercube(start, x, out)?;
    Ok(())
}

// evals_eq_hypercube_from S A..
pub fn evals_eq_hypercube_from(x: &[u32], words: &mut Words) -> Result<(), Refusal> {
    let (start, rest) = x.split_first_chunk().ok_or(Refusal::Error)?;
    evals_eq_hypercube(*start, rest, words)
}
