// From prover/matrix.rs: a column-major matrix whose rows stand a stride apart. The view holds the slice and is copied freely;
// each function over it takes it apart and calls one on the slice and the numbers.
ghost use Rattle.std.specs.Prelude.{◌≡◌, length};
ghost use Rattle.views.specs.Strided.{height_of, cell_of};

use field::answer::Refusal;

#[derive(Clone, Copy)]
pub struct StridedColMajorMatrixView<'a> {
    pub values: &'a [u32],
    pub width: usize,
    pub height: usize,
    pub stride: usize,
}

// The rows that as many columns have at this stride, 0 where the slice is not whole rows of them.
pub fn height_of(values: &[u32], width: usize, stride: usize) -> usize
    ensures { result ≡ height_of (length values.now) width stride }
{
    let n = values.len();
    if width == 0 {
        return 0;
    }
    if stride == 0 {
        return 0;
    }
    if n / width < stride {
        return 0;
    }
    let cells = width * stride;
    if n % cells != 0 {
        return 0;
    }
    n / cells
}

// The word of a view's parts at a row and a column, or 11. Past the last cell of the slice there is none, whatever the height says.
pub fn cell_at(
    values: &[u32],
    width: usize,
    height: usize,
    stride: usize,
    row_idx: usize,
    col_idx: usize,
) -> Result<u32, Refusal>
    ensures { result ≡ cell_of values.now width height stride row_idx col_idx }
{
    let n = values.len();
    if width <= col_idx {
        return Err(Refusal::NoSuchColumn);
    }
    if height <= row_idx {
        return Err(Refusal::NoSuchColumn);
    }
    if stride == 0 {
        return Err(Refusal::NoSuchColumn);
    }
    if n == 0 {
        return Err(Refusal::NoSuchColumn);
    }
    let last = (n - 1) / stride;
    if last < row_idx {
        return Err(Refusal::NoSuchColumn);
    }
    if (last - row_idx) / height < col_idx {
        return Err(Refusal::NoSuchColumn);
    }
    let at = (col_idx * height + row_idx) * stride;
    Ok(values[at])
}

impl<'a> StridedColMajorMatrixView<'a> {
    // The Rust asserts that the slice is whole rows; where it is not, the view has height 0, and so no cell.
    pub fn new(values: &'a [u32], width: usize, stride: usize) -> StridedColMajorMatrixView<'a>
        ensures { (result.values ≡ values.entry) × (result.width ≡ width) × (result.height ≡ height_of (length values.now) width stride) × (result.stride ≡ stride) }
    {
        let height = height_of(values, width, stride);
        StridedColMajorMatrixView {
            values,
            width,
            height,
            stride,
        }
    }

    pub fn values(self) -> &'a [u32]
        ensures { result ≡ self.entry.values }
    {
        self.values
    }

    pub fn width(self) -> usize
        ensures { result ≡ self.entry.width }
    {
        self.width
    }

    pub fn height(self) -> usize
        ensures { result ≡ self.entry.height }
    {
        self.height
    }

    pub fn stride(self) -> usize
        ensures { result ≡ self.entry.stride }
    {
        self.stride
    }

    pub fn get(self, row_idx: usize, col_idx: usize) -> Result<u32, Refusal>
        ensures { result ≡ cell_of self.entry.values.now self.entry.width self.entry.height self.entry.stride row_idx col_idx }
    {
        cell_at(
            self.values,
            self.width,
            self.height,
            self.stride,
            row_idx,
            col_idx,
        )
    }
}
