// From prover/stacked_pcs.rs.
ghost use Rattle.std.specs.Prelude.{◌≡◌, ◌+◌, ◌*◌, ◌≤◌, ◌<◌, length};
ghost use Rattle.layout.specs.Triples.{count_of, width_at, column_count};
ghost use Rattle.layout.specs.Placing.{matrix_length};
ghost use Rattle.layout.specs.Shaped.{Shaped, Laid};
ghost use Rattle.layout.specs.Answers.{answer_of};
ghost use Rattle.layout.specs.Planning.{done_layout, laid_out, planning_number, planned_of, planned_into};
ghost use Rattle.layout.specs.Getting.{get_number, got_of};
ghost use Rattle.layout.specs.Viewing.{view_number, mat_place_of, view_of};
ghost use Rattle.layout.specs.Stacking.{trace_number, cells_number, filled_by, stacked_of, stacked_into};

use crate::placing::{matrix_start, pow2, slice_len};
use crate::records::{slice_at, write};
use crate::refusals::{count, laid, plan, shape};
use crate::stacking::{cell_count, fill, heights, log_list};
use field::answer::Refusal;
use field::slice::canonical;

// The plan of one commitment: stack width, H and the number of columns.
#[derive(Clone, Copy)]
pub struct StackedLayout {
    pub width: u32,
    pub height: u32,
    pub columns: u32,
}

// Where a column lies in the stacked matrix, and its true log height.
#[derive(Clone, Copy)]
pub struct StackedSlice {
    pub col_idx: u32,
    pub row_idx: u32,
    pub log_height: u32,
}

// Where a matrix's cells start in the stacked matrix, and how many words they take.
#[derive(Clone, Copy)]
pub struct MatPlace {
    pub start: usize,
    pub len: usize,
}

// Whether a list can be planned with room for so many records; nothing is written.
pub fn planning(l_skip: u32, n_stack: u32, list: &[u32], places: usize) -> Result<(), Refusal>
    ensures { result ≡ answer_of (planning_number l_skip n_stack list.now places) }
{
    plan(l_skip, n_stack, list)?;
    if list.len() % 3 != 0 {
        return Err(Refusal::WrongLength);
    }
    if places != 2 * count(list) {
        return Err(Refusal::WrongLength);
    }
    Ok(())
}

// The numbers of a plan that is not refused.
fn planned(l_skip: u32, n_stack: u32, list: &[u32]) -> StackedLayout
    requires { Laid l_skip n_stack list.now × (column_count list.now ≤ 4096) }
    ensures { result ≡ done_layout l_skip n_stack list.now }
{
    let m = list.len() / 3;
    let end = matrix_start(l_skip, n_stack, m, list, m);
    let h = pow2(l_skip + n_stack);
    let columns = count(list);
    StackedLayout {
        width: (end >> (l_skip + n_stack)) as u32,
        height: h as u32,
        columns: columns as u32,
    }
}

impl StackedLayout {
    // Plans the matrices of a list, three words each (width, log height, rotation flag), and packs a record of two words a column.
    pub fn new(
        l_skip: u32,
        n_stack: u32,
        sorted: &[u32],
        sorted_cols: &mut [u64],
    ) -> Result<Self, Refusal>
        ensures { (result ≡ planned_of l_skip n_stack sorted.now (length sorted_cols.old)) × (sorted_cols.new ≡ planned_into l_skip n_stack sorted.now sorted_cols.old) }
    {
        let columns = sorted_cols.len();
        planning(l_skip, n_stack, sorted, columns)?;
        write(l_skip, n_stack, sorted, sorted_cols);
        Ok(planned(l_skip, n_stack, sorted))
    }
}

fn getting(
    l_skip: u32,
    n_stack: u32,
    list: &[u32],
    mat_idx: usize,
    col_idx: usize,
) -> Result<(), Refusal>
    ensures { result ≡ answer_of (get_number l_skip n_stack list.now mat_idx col_idx) }
{
    plan(l_skip, n_stack, list)?;
    if list.len() % 3 != 0 {
        return Err(Refusal::WrongLength);
    }
    if list.len() / 3 <= mat_idx {
        return Err(Refusal::NoSuchColumn);
    }
    let w = list[3 * mat_idx] as usize;
    if w <= col_idx {
        return Err(Refusal::NoSuchColumn);
    }
    Ok(())
}

// The slice of a column. The Rust gives the next matrix's column for an index too large; here that is 11.
pub fn get(
    l_skip: u32,
    n_stack: u32,
    sorted: &[u32],
    mat_idx: usize,
    col_idx: usize,
) -> Result<StackedSlice, Refusal>
    ensures { result ≡ got_of l_skip n_stack sorted.now mat_idx col_idx }
{
    getting(l_skip, n_stack, sorted, mat_idx, col_idx)?;
    let log = sorted[3 * mat_idx + 1];
    let s = matrix_start(l_skip, n_stack, sorted.len() / 3, sorted, mat_idx);
    let slice = slice_at(l_skip, n_stack, s + col_idx * slice_len(log, l_skip), log);
    Ok(slice)
}

fn viewing(
    l_skip: u32,
    n_stack: u32,
    list: &[u32],
    stacked: &[u32],
    mat_idx: usize,
) -> Result<(), Refusal>
    ensures { result ≡ answer_of (view_number l_skip n_stack list.now stacked.now mat_idx) }
{
    plan(l_skip, n_stack, list)?;
    if list.len() % 3 != 0 {
        return Err(Refusal::WrongLength);
    }
    let m = list.len() / 3;
    if stacked.len() != matrix_start(l_skip, n_stack, m, list, m) {
        return Err(Refusal::WrongLength);
    }
    if !canonical(stacked) {
        return Err(Refusal::NotCanonical);
    }
    if m <= mat_idx {
        return Err(Refusal::NoSuchColumn);
    }
    if list[3 * mat_idx] == 0 {
        return Err(Refusal::NoSuchColumn);
    }
    Ok(())
}

// The words that matrix i takes.
fn matrix_len(l_skip: u32, n_stack: u32, list: &[u32], i: usize) -> usize
    requires { Laid l_skip n_stack list.now × (i < count_of list.now) × (0 < width_at list.now i) }
    ensures { result ≡ matrix_length l_skip list.now i }
{
    list[3 * i] as usize * slice_len(list[3 * i + 1], l_skip)
}

// Where `mat_view` finds a matrix, or why it does not.
pub fn mat_place(
    l_skip: u32,
    n_stack: u32,
    sorted: &[u32],
    stacked_matrix: &[u32],
    unstacked_mat_idx: usize,
) -> Result<MatPlace, Refusal>
    ensures { result ≡ mat_place_of l_skip n_stack sorted.now stacked_matrix.now unstacked_mat_idx }
{
    let i = unstacked_mat_idx;
    viewing(l_skip, n_stack, sorted, stacked_matrix, i)?;
    let start = matrix_start(l_skip, n_stack, sorted.len() / 3, sorted, i);
    let len = matrix_len(l_skip, n_stack, sorted, i);
    Ok(MatPlace { start, len })
}

// A matrix's cells: one part of the stacked matrix, and an empty one where `mat_place` refuses.
pub fn mat_view<'a, 'b>(
    l_skip: u32,
    n_stack: u32,
    sorted: &'b [u32],
    stacked_matrix: &'a [u32],
    unstacked_mat_idx: usize,
) -> &'a [u32]
    ensures { result.now ≡ view_of l_skip n_stack sorted.now stacked_matrix.now unstacked_mat_idx }
{
    match mat_place(l_skip, n_stack, sorted, stacked_matrix, unstacked_mat_idx) {
        Ok(place) => &stacked_matrix[place.start..place.start + place.len],
        Err(_) => &stacked_matrix[..0],
    }
}

// 1, 2 and 3.
fn trace_number(l_skip: u32, n_stack: u32, traces: &[u32]) -> Result<(), Refusal>
    ensures { result ≡ answer_of (trace_number l_skip n_stack traces.now) }
{
    shape(l_skip, n_stack, traces)?;
    heights(traces)
}

// 4 to 10, on the list with log heights.
fn cells_number(
    l_skip: u32,
    n_stack: u32,
    list: &[u32],
    over: usize,
    cells: &[u32],
    places: usize,
) -> Result<(), Refusal>
    requires { Shaped l_skip n_stack list.now × (column_count list.now ≤ 4096) }
    ensures { result ≡ answer_of (cells_number l_skip n_stack list.now over cells.now places) }
{
    let m = list.len() / 3;
    laid(l_skip, n_stack, m, list)?;
    if count(list) == 0 {
        return Err(Refusal::NoColumn);
    }
    if over != 0 {
        return Err(Refusal::WrongLength);
    }
    if cells.len() != cell_count(l_skip, n_stack, list) {
        return Err(Refusal::WrongLength);
    }
    if places != matrix_start(l_skip, n_stack, m, list, m) {
        return Err(Refusal::WrongLength);
    }
    if !canonical(cells) {
        return Err(Refusal::NotCanonical);
    }
    Ok(())
}

// Stacks the matrices of a list with log heights.
fn stack(
    l_skip: u32,
    n_stack: u32,
    list: &[u32],
    over: usize,
    cells: &[u32],
    q_mat: &mut [u32],
) -> Result<StackedLayout, Refusal>
    requires { Shaped l_skip n_stack list.now × (column_count list.now ≤ 4096) }
    ensures { (result ≡ laid_out l_skip n_stack list.now (cells_number l_skip n_stack list.now over cells.now (length q_mat.old))) × (q_mat.new ≡ filled_by l_skip n_stack list.now cells.now (cells_number l_skip n_stack list.now over cells.now (length q_mat.old)) q_mat.old) }
{
    let places = q_mat.len();
    cells_number(l_skip, n_stack, list, over, cells, places)?;
    fill(l_skip, n_stack, list, cells, q_mat);
    Ok(planned(l_skip, n_stack, list))
}

// Stacks traces, three words each (width, height, rotation flag), whose cells are one slice, matrix by matrix, column by column.
pub fn stacked_matrix(
    l_skip: u32,
    n_stack: u32,
    traces: &[u32],
    cells: &[u32],
    q_mat: &mut [u32],
) -> Result<StackedLayout, Refusal>
    ensures { (result ≡ stacked_of l_skip n_stack traces.now cells.now (length q_mat.old)) × (q_mat.new ≡ stacked_into l_skip n_stack traces.now cells.now q_mat.old) }
{
    trace_number(l_skip, n_stack, traces)?;
    let n = 3 * (traces.len() / 3);
    let over = traces.len() % 3;
    let mut logs = [0u32; 12288];
    log_list(traces, &mut logs);
    stack(l_skip, n_stack, &logs[..n], over, cells, q_mat)
}
