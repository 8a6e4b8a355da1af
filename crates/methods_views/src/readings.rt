// The commands of a view: mat_shape, mat_view, mat_cell, new, new_cell.
use crate::held::Held;
use crate::replies;
use field::answer::Refusal;
use views::matrix::StridedColMajorMatrixView;
use views::stacked_pcs::{mat_shape, mat_view};

// A view of the held words: that of a matrix in the stacked one, or one that is made of a width and a stride.
#[derive(Clone, Copy)]
pub(crate) enum Named {
    Matrix(usize),
    Made(usize, usize),
}

impl Named {
    fn view(self, held: &Held) -> Result<StridedColMajorMatrixView<'_>, Refusal> {
        let words = held.matrix.as_slice();
        match self {
            Named::Matrix(i) => {
                let given = held.given();
                mat_view(given.l_skip, given.n_stack, given.lists, words, i)
            }
            Named::Made(width, stride) => Ok(StridedColMajorMatrixView::new(words, width, stride)),
        }
    }
}

#[derive(Clone, Copy)]
pub(crate) enum Reading {
    Shape(usize),
    View(Named),
    Cell(Named, usize, usize),
}

// The sizes in 32 bits; every one here has fewer.
fn narrowed(sizes: [usize; 3]) -> [u32; 3] {
    sizes.map(|n| u32::try_from(n).unwrap_or(u32::MAX))
}

// mat_shape M: width, height and stride
fn shape(held: &Held, i: usize) -> Result<(), Refusal> {
    let given = held.given();
    let words = held.matrix.as_slice();
    let s = mat_shape(given.l_skip, given.n_stack, given.lists, words, i)?;
    replies::done(&[&narrowed([s.width, s.height, s.stride])]);
    Ok(())
}

// mat_view M, new W S: width, height and stride of a view, then the words of its slice, 2,045 at most
fn view(held: &Held, named: Named) -> Result<(), Refusal> {
    let view = named.view(held)?;
    let sizes = narrowed([view.width(), view.height(), view.stride()]);
    let values = view.values();
    let shown = values.get(..2045).unwrap_or(values);
    replies::done(&[&sizes, shown]);
    Ok(())
}

// mat_cell M R C, new_cell W S R C: the cell; a view that is refused has none.
fn cell(held: &Held, named: Named, row_idx: usize, col_idx: usize) -> Result<(), Refusal> {
    let view = named.view(held).map_err(|_| Refusal::NoSuchColumn)?;
    replies::done(&[&[view.get(row_idx, col_idx)?]]);
    Ok(())
}

impl Reading {
    pub(crate) fn answer(self, held: &Held) {
        let answer = match self {
            Reading::Shape(i) => shape(held, i),
            Reading::View(named) => view(held, named),
            Reading::Cell(named, row_idx, col_idx) => cell(held, named, row_idx, col_idx),
        };
        if let Err(refusal) = answer {
            replies::refused(refusal);
        }
    }
}
