// The weighted sum of the claims, from verifier/stacked_reduction.rs.
ghost use Rattle.std.specs.Prelude.{◌≡◌, List, ℕ, ◌+◌, ◌^◌, ◌<◌};
ghost use Rattle.field.specs.Element.{Elem, F, ◌⊕◌, ◌⊗◌, elem_of, words_of};
ghost use Rattle.field.specs.Slice.{elem_at};
ghost use Rattle.layout.specs.Walked.{Walked};
ghost use Rattle.weights.specs.LambdaPowers.{if_flagged};
ghost use Rattle.weights.specs.AtField.{weighted_claims_f};
ghost use Rattle.weights.specs.RunOf.{run_of};
ghost use Rattle.verifier.specs.Weighing.{weighed};

use crate::asked::Asked;
use crate::shapes::Shape;
use field::element;
use field::element::{add, mul};
use field::slice::load;
use layout::columns::{walk_first, walk_next};
use weights::claims::claims_of;

// The weighted sum so far, and the power of lambda that comes next.
#[derive(Clone, Copy)]
struct Weighed {
    sum: [u32; 4],
    power: [u32; 4],
}

// Adds t_i.0, which stands at index i.
fn add_plain(w: Weighed, lambda: [u32; 4], claims: &[u32], i: usize) -> Weighed
    ensures { (s p : Elem) → w ≡ weighed s p → result ≡ weighed (s ⊕ p ⊗ elem_at claims.now i) (p ⊗ elem_of lambda) }
{
    let next = mul(w.power, lambda);
    let plain = load(claims, i);
    let x = mul(w.power, plain);
    let more = add(w.sum, x);
    Weighed {
        sum: more,
        power: next,
    }
}

// Adds t_i.1, which stands after t_i.0 where the column is flagged; its power passes even when unused.
fn add_rotated(w: Weighed, flag: u32, lambda: [u32; 4], claims: &[u32], i: usize) -> Weighed
    requires { i < 2 ^ 32 }
    ensures { (s p : Elem) → w ≡ weighed s p → result ≡ weighed (s ⊕ if_flagged F flag (p ⊗ elem_at claims.now (i + 1))) (p ⊗ elem_of lambda) }
{
    let sum = w.sum;
    let power = w.power;
    let next = mul(power, lambda);
    if flag == 0 {
        return Weighed { sum, power: next };
    }
    let rotated = load(claims, i + 1);
    let x = mul(power, rotated);
    let more = add(sum, x);
    Weighed {
        sum: more,
        power: next,
    }
}

// Every column takes two powers of lambda.
pub(crate) fn weighted_claims(asked: Asked<'_>, shape: Shape) -> [u32; 4]
    requires { Walked asked.l_skip asked.n_stack shape.first asked.lists.now shape.columns }
    ensures { (point : List ℕ) → result ≡ words_of (weighted_claims_f (run_of asked.entry.l_skip asked.entry.n_stack shape.first asked.entry.lists.now point asked.entry.lambda) (elem_at asked.entry.claims.now)) }
{
    let zero = element::from_word(0);
    let one = element::from_word(1);
    let mut w = Weighed {
        sum: zero,
        power: one,
    };
    let mut i: usize = 0;
    let mut c = walk_first(asked.l_skip, asked.n_stack, shape.first, asked.lists);
    for _k in 0..shape.columns {
        let plain = add_plain(w, asked.lambda, asked.claims, i);
        w = add_rotated(plain, c.flag, asked.lambda, asked.claims, i);
        i += claims_of(c.flag);
        c = walk_next(asked.l_skip, asked.n_stack, shape.first, asked.lists, c);
    }
    w.sum
}
