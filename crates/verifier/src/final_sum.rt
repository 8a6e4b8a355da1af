// The final sum, from verifier/stacked_reduction.rs: over the columns, weight × opening. The openings are not gathered by
// stack column first.
ghost use Rattle.std.specs.Prelude.{◌≡◌};
ghost use Rattle.field.specs.Element.{◌⊗◌, elem_of, words_of};
ghost use Rattle.field.specs.Slice.{elem_at};
ghost use Rattle.tables.specs.Points.{coordinates};
ghost use Rattle.weights.specs.AtField.{final_sum_f};
ghost use Rattle.weights.specs.RunOf.{run_of};
ghost use Rattle.verifier.specs.Walked.{Placed};

use crate::asked::Asked;
use crate::column_weights::{height_weight, renewed, renewed_upper, row_weight, upper_weight};
use crate::shapes::Shape;
use field::element;
use field::element::{add, mul, square};
use field::slice::load;
use layout::columns::{walk_first, walk_next};

// eq_mle × batched × ind × opening, with the column's power of lambda.
fn column_term(power: [u32; 4], weight: [u32; 4], bits: [u32; 4], opening: [u32; 4]) -> [u32; 4]
    ensures { result ≡ words_of (elem_of power ⊗ elem_of weight ⊗ elem_of bits ⊗ elem_of opening) }
{
    let a = mul(power, weight);
    let b = mul(a, bits);
    mul(b, opening)
}

pub(crate) fn final_sum(asked: Asked<'_>, shape: Shape) -> [u32; 4]
    requires { Placed asked.l_skip asked.n_stack shape.first asked.lists.now shape.columns asked.r.now asked.challenges.now }
    ensures { result ≡ words_of (final_sum_f (run_of asked.entry.l_skip asked.entry.n_stack shape.first asked.entry.lists.now asked.entry.r.now asked.entry.lambda) (elem_at asked.entry.challenges.now 0) (coordinates asked.entry.challenges.now 1 asked.entry.n_stack) (elem_at asked.entry.openings.now)) }
{
    let step = square(asked.lambda);
    let mut sum = element::from_word(0);
    let mut power = element::from_word(1);
    let mut c = walk_first(asked.l_skip, asked.n_stack, shape.first, asked.lists);
    let mut w = height_weight(asked, c);
    let mut q = upper_weight(asked.n_stack, asked.n_stack, 0, asked.challenges);
    for _k in 0..shape.columns {
        w = renewed(w, asked, c);
        q = renewed_upper(q, asked, c);
        let bits = row_weight(q.weight, asked, c);
        let opening = load(asked.openings, c.start >> (asked.l_skip + asked.n_stack));
        let x = column_term(power, w.weight, bits, opening);
        let s = add(sum, x);
        let p = mul(power, step);
        sum = s;
        power = p;
        c = walk_next(asked.l_skip, asked.n_stack, shape.first, asked.lists, c);
    }
    sum
}
