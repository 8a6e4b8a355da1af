// From prover/stacked_pcs.rs: a matrix's cells in the stacked matrix as a strided view.
ghost use Rattle.std.specs.Prelude.{◌≡◌};
ghost use Rattle.views.specs.Shapes.{shape_of, Viewed};

use crate::matrix::StridedColMajorMatrixView;
use field::answer::Refusal;
use layout::stacked_pcs;

// How a matrix lies in its part of the stacked matrix: its columns, its rows and their stride.
#[derive(Clone, Copy)]
pub struct MatShape {
    pub width: usize,
    pub height: usize,
    pub stride: usize,
}

pub fn mat_shape(
    l_skip: u32,
    n_stack: u32,
    sorted: &[u32],
    stacked_matrix: &[u32],
    unstacked_mat_idx: usize,
) -> Result<MatShape, Refusal>
    ensures { result ≡ shape_of l_skip n_stack sorted.now stacked_matrix.now unstacked_mat_idx }
{
    let i = unstacked_mat_idx;
    stacked_pcs::mat_place(l_skip, n_stack, sorted, stacked_matrix, i)?;
    let log = sorted[3 * i + 1];
    let width = sorted[3 * i] as usize;
    let height = 1usize << log;
    // In the Rust: StackedSlice::stride.
    let stride = 1usize << l_skip.saturating_sub(log);
    Ok(MatShape {
        width,
        height,
        stride,
    })
}

// A matrix's cells as a view of the stacked matrix, one part of it and never a copy, or the number that `mat_place` gives.
pub fn mat_view<'a, 'b>(
    l_skip: u32,
    n_stack: u32,
    sorted: &'b [u32],
    stacked_matrix: &'a [u32],
    unstacked_mat_idx: usize,
) -> Result<StridedColMajorMatrixView<'a>, Refusal>
    ensures { Viewed l_skip n_stack sorted.now stacked_matrix.now unstacked_mat_idx result }
{
    let shape = mat_shape(l_skip, n_stack, sorted, stacked_matrix, unstacked_mat_idx)?;
    let values = stacked_pcs::mat_view(l_skip, n_stack, sorted, stacked_matrix, unstacked_mat_idx);
    Ok(StridedColMajorMatrixView {
        values,
        width: shape.width,
        height: shape.height,
        stride: shape.stride,
    })
}
