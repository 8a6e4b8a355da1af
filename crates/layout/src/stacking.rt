// Filling the stacked matrix.
ghost use Rattle.std.specs.Prelude.{◌≡◌, cond, ◌++◌, eqb, ◌+◌, ◌-◌, ◌*◌, ◌%◌, ◌≤◌, ◌<◌, ◌^◌, length, take, drop, replicate};
ghost use Rattle.std.specs.Int.Count.{count_trailing_zeros};
ghost use Rattle.layout.specs.Answers.{answer_of};
ghost use Rattle.layout.specs.Triples.{count_of};
ghost use Rattle.layout.specs.Shaped.{Laid, Spreadable, Fillable};
ghost use Rattle.layout.specs.Logs.{logged, heights_number};
ghost use Rattle.layout.specs.Stacked.{cell_count, stride_of, spread, stacked_matrix};

use crate::placing::pow2;
use field::answer::Refusal;

// 3: every height has exactly one bit set.
pub(crate) fn heights(list: &[u32]) -> Result<(), Refusal>
    ensures { result ≡ answer_of (heights_number list.now) }
{
    let m = list.len() / 3;
    for i in 0..m {
        if u32::count_ones(list[3 * i + 1]) != 1 {
            return Err(Refusal::HeightNotOneBit);
        }
    }
    Ok(())
}

// Word k of the list with log heights.
fn log_word(k: usize, x: u32) -> u32
    ensures { result ≡ cond (eqb (k % 3) 1) (count_trailing_zeros 32 x) x }
{
    if k % 3 == 1 {
        return u32::trailing_zeros(x);
    }
    x
}

// The list with log heights, at the front of `out`.
pub(crate) fn log_list(list: &[u32], out: &mut [u32])
    requires { 3 * count_of list.now ≤ length out.old }
    ensures { out.new ≡ logged list.now ++ drop (3 * count_of list.now) out.old }
{
    let n = 3 * (list.len() / 3);
    for k in 0..n {
        let x = log_word(k, list[k]);
        out[k] = x;
    }
}

// The cells of w columns of log height log.
fn cells_of(w: usize, log: u32) -> usize
    requires { (w ≤ 4096) × (0 < w → log ≤ 24) }
    ensures { result ≡ w * 2 ^ log }
{
    if w == 0 {
        return 0;
    }
    w * pow2(log)
}

pub(crate) fn cell_count(l_skip: u32, n_stack: u32, list: &[u32]) -> usize
    requires { Laid l_skip n_stack list.now }
    ensures { result ≡ cell_count list.now }
{
    let m = list.len() / 3;
    let mut n = 0usize;
    for i in 0..m {
        let w = list[3 * i] as usize;
        n = n + cells_of(w, list[3 * i + 1]);
    }
    n
}

// Puts `count` cells down at a stride, from `at` on, where there are zeros.
fn spread_at(out: &mut [u32], at: usize, cells: &[u32], from: usize, count: usize, stride: usize)
    requires { Spreadable out.old at cells.now from count stride }
    ensures { out.new ≡ take at out.old ++ spread stride (take count (drop from cells.now)) ++ replicate (length out.old - (at + count * stride)) 0 }
{
    for t in 0..count {
        out[at + t * stride] = cells[from + t];
    }
}

// The stride of a column of log height log. In the Rust: StackedSlice::stride.
fn stride(l_skip: u32, log: u32) -> usize
    requires { l_skip ≤ 10 }
    ensures { result ≡ stride_of l_skip log }
{
    if l_skip <= log {
        return 1;
    }
    pow2(l_skip - log)
}

// Every matrix in its place, where there are zeros.
fn lay(l_skip: u32, n_stack: u32, list: &[u32], cells: &[u32], out: &mut [u32])
    requires { Fillable l_skip n_stack list.now cells.now (length out.old) × (out.old ≡ replicate (length out.old) 0) }
    ensures { out.new ≡ stacked_matrix l_skip n_stack list.now cells.now }
{
    let m = list.len() / 3;
    let mut at = 0usize;
    let mut from = 0usize;
    for i in 0..m {
        let w = list[3 * i] as usize;
        let log = list[3 * i + 1];
        let count = cells_of(w, log);
        let step = stride(l_skip, log);
        spread_at(out, at, cells, from, count, step);
        at = at + count * step;
        from = from + count;
    }
}

// The stacked matrix: zeros, and then every matrix in its place.
pub(crate) fn fill(l_skip: u32, n_stack: u32, list: &[u32], cells: &[u32], out: &mut [u32])
    requires { Fillable l_skip n_stack list.now cells.now (length out.old) }
    ensures { out.new ≡ stacked_matrix l_skip n_stack list.now cells.now }
{
    out.fill(0);
    lay(l_skip, n_stack, list, cells, out);
}
