// Why a list of matrices is refused, by the numbers of document 01's table.
ghost use Rattle.std.specs.Prelude.{◌≡◌, cond, ◌+◌, ◌*◌, ◌≤◌, ◌<◌, ◌^◌, min, leb, eqb};
ghost use Rattle.layout.specs.Answers.{answer_of};
ghost use Rattle.layout.specs.Refusals.{limits_number, flags_number, columns_number, matrix_number, walk_number, rises_number, shape_number, plan_number, laid_number, matrices_number};
ghost use Rattle.layout.specs.Shaped.{Shaped};
ghost use Rattle.layout.specs.Triples.{count_of, columns_before, column_count};

use crate::placing::{after, pow2, slice_len};
use field::answer::Refusal;

pub(crate) fn limits(l_skip: u32, n_stack: u32) -> Result<(), Refusal>
    ensures { result ≡ answer_of (limits_number l_skip n_stack) }
{
    if 10 < l_skip {
        return Err(Refusal::LimitExceeded);
    }
    if 20 < n_stack {
        return Err(Refusal::LimitExceeded);
    }
    if 24 < l_skip + n_stack {
        return Err(Refusal::LimitExceeded);
    }
    Ok(())
}

pub(crate) fn flags(list: &[u32]) -> Result<(), Refusal>
    ensures { result ≡ answer_of (flags_number list.now) }
{
    let m = list.len() / 3;
    for i in 0..m {
        if 1 < list[3 * i + 2] {
            return Err(Refusal::LimitExceeded);
        }
    }
    Ok(())
}

// The columns of a commitment so far; matrix i starts a new one from `first` on.
fn kept(first: usize, i: usize, count: usize) -> usize
    ensures { result ≡ cond (leb first i) 0 count }
{
    if first <= i {
        return 0;
    }
    count
}

pub(crate) fn columns(first: usize, list: &[u32]) -> Result<(), Refusal>
    ensures { result ≡ answer_of (columns_number first list.now) }
{
    let m = list.len() / 3;
    let mut count = 0usize;
    for i in 0..m {
        let w = list[3 * i] as usize;
        let before = kept(first, i, count);
        count = before + w;
        if 4096 < count {
            return Err(Refusal::TooManyColumns);
        }
    }
    Ok(())
}

// Whether w columns of one height fit from cell s on: each does where s is a multiple of their length, and where not
// they must end before the stack column does.
fn place(l_skip: u32, n_stack: u32, w: usize, log: u32, s: usize) -> Result<(), Refusal>
    requires { (l_skip + n_stack ≤ 24) × (w ≤ 4096) }
    ensures { result ≡ answer_of (matrix_number l_skip n_stack w log s) }
{
    if w == 0 {
        return Ok(());
    }
    if l_skip + n_stack < log {
        return Err(Refusal::LayoutHeightExceeded);
    }
    let len = slice_len(log, l_skip);
    let h = pow2(l_skip + n_stack);
    let row = s % h;
    if row % len == 0 {
        return Ok(());
    }
    if row + w * len <= h {
        return Ok(());
    }
    Err(Refusal::LayoutRowOverflow)
}

pub(crate) fn walk(l_skip: u32, n_stack: u32, first: usize, list: &[u32]) -> Result<(), Refusal>
    requires { Shaped l_skip n_stack list.now }
    ensures { result ≡ answer_of (walk_number l_skip n_stack first list.now) }
{
    let m = list.len() / 3;
    let mut s = 0usize;
    for i in 0..m {
        let w = list[3 * i] as usize;
        let log = list[3 * i + 1];
        place(l_skip, n_stack, w, log, s)?;
        s = after(l_skip, n_stack, first, i + 1, s, w, log);
    }
    Ok(())
}

// The log height that counts at a matrix of width w, where those before it have `last`.
fn lowered(w: u32, log: u32, last: u32) -> u32
    ensures { result ≡ cond (eqb w 0) last log }
{
    if w == 0 {
        return last;
    }
    log
}

pub(crate) fn rises(first: usize, list: &[u32]) -> Result<(), Refusal>
    ensures { result ≡ answer_of (rises_number first list.now) }
{
    let m = list.len() / 3;
    let end = first.min(m);
    let mut last = u32::MAX;
    for b in 0..end {
        let low = lowered(list[3 * b], list[3 * b + 1], last);
        if last < low {
            return Err(Refusal::HeightsRise);
        }
        last = low;
    }
    Ok(())
}

// 1 and 2 of one commitment.
pub(crate) fn shape(l_skip: u32, n_stack: u32, list: &[u32]) -> Result<(), Refusal>
    ensures { result ≡ answer_of (shape_number l_skip n_stack list.now) }
{
    limits(l_skip, n_stack)?;
    let m = list.len() / 3;
    if 4096 < m {
        return Err(Refusal::LimitExceeded);
    }
    flags(list)?;
    columns(m, list)
}

// 4, 5 and 6.
pub(crate) fn laid(l_skip: u32, n_stack: u32, first: usize, list: &[u32]) -> Result<(), Refusal>
    requires { Shaped l_skip n_stack list.now }
    ensures { result ≡ answer_of (laid_number l_skip n_stack first list.now) }
{
    walk(l_skip, n_stack, first, list)?;
    rises(first, list)
}

// 1, 2, 4, 5 and 6 of one commitment.
pub(crate) fn plan(l_skip: u32, n_stack: u32, list: &[u32]) -> Result<(), Refusal>
    ensures { result ≡ answer_of (plan_number l_skip n_stack list.now) }
{
    shape(l_skip, n_stack, list)?;
    laid(l_skip, n_stack, list.len() / 3, list)
}

// 1, 2, 4, 5 and 6 of the matrices of all commitments, the first `first` of which are the first commitment.
pub(crate) fn matrices(l_skip: u32, n_stack: u32, first: usize, list: &[u32]) -> Result<(), Refusal>
    ensures { result ≡ answer_of (matrices_number l_skip n_stack first list.now) }
{
    limits(l_skip, n_stack)?;
    if 4111 < list.len() / 3 {
        return Err(Refusal::LimitExceeded);
    }
    flags(list)?;
    columns(first, list)?;
    laid(l_skip, n_stack, first, list)
}

// The columns of the first i matrices.
pub(crate) fn count_before(list: &[u32], i: usize) -> usize
    requires { (i ≤ count_of list.now) × (column_count list.now ≤ 2 ^ 30) }
    ensures { result ≡ columns_before list.now i }
{
    let mut n = 0usize;
    for k in 0..i {
        let w = list[3 * k] as usize;
        n = n + w;
    }
    n
}

// The columns of a list of at most 4,096.
pub(crate) fn count(list: &[u32]) -> usize
    requires { column_count list.now ≤ 4096 }
    ensures { result ≡ column_count list.now }
{
    count_before(list, list.len() / 3)
}
