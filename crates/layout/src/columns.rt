// The columns of a list, over all commitments: one after the other for whoever has a list, and the walk of the calls that
// have decided their list before.
ghost use Rattle.std.specs.Prelude.{◌≡◌, ◌+◌, ◌-◌, ◌*◌, ◌≤◌, ◌<◌, ◌^◌};
ghost use Rattle.layout.specs.Triples.{count_of};
ghost use Rattle.layout.specs.Columns.{end_mark, outside, oversized, is_column, is_placed, first_column, next_column, strays, sought, walk_first, walk_next};
ghost use Rattle.layout.specs.Shaped.{Laid};

use crate::placing::{matrix_start, opening, slice_len};
use crate::refusals::{limits, matrices};

// A column of a list: its matrix and its index there, its first cell counted through all stack columns, its log height
// and its rotation flag.
#[derive(Clone, Copy)]
pub struct Column {
    pub matrix: usize,
    pub column: usize,
    pub start: usize,
    pub log: u32,
    pub flag: u32,
}

// n_lift of a log height, and 0 for a short column.
pub fn lifted(log: u32, l_skip: u32) -> u32
    ensures { result ≡ log - l_skip }
{
    if l_skip < log { log - l_skip } else { 0 }
}

fn is_outside(l_skip: u32, n_stack: u32, list: &[u32]) -> bool
    ensures { result ≡ outside l_skip n_stack list.now }
{
    if limits(l_skip, n_stack).is_err() {
        return true;
    }
    4111 < list.len() / 3
}

// The end mark: past the last matrix, at no column.
fn end_mark(list: &[u32]) -> Column
    ensures { result ≡ end_mark list.now }
{
    Column {
        matrix: list.len() / 3,
        column: 0,
        start: 0,
        log: 0,
        flag: 0,
    }
}

// Whether no plan has as many columns of this height.
fn is_oversized(l_skip: u32, n_stack: u32, width: u32, log: u32) -> bool
    requires { l_skip + n_stack ≤ 24 }
    ensures { result ≡ oversized l_skip n_stack width log }
{
    if 4096 < width {
        return true;
    }
    l_skip + n_stack < log
}

// Whether c is at a column of the list, with its log height and its flag.
fn is_column(list: &[u32], c: Column) -> bool
    ensures { result ≡ is_column list.now c }
{
    let i = c.matrix;
    if list.len() / 3 <= i {
        return false;
    }
    if list[3 * i] as usize <= c.column {
        return false;
    }
    if list[3 * i + 1] != c.log {
        return false;
    }
    list[3 * i + 2] == c.flag
}

fn has_strayed(l_skip: u32, n_stack: u32, list: &[u32], c: Column) -> bool
    ensures { result ≡ strays l_skip n_stack list.now c }
{
    let i = c.matrix;
    if is_outside(l_skip, n_stack, list) {
        return true;
    }
    if !is_column(list, c) {
        return true;
    }
    if is_oversized(l_skip, n_stack, list[3 * i], c.log) {
        return true;
    }
    1152921504606846976 < c.start
}

// The first column from matrix i on, where cells up to s are taken, and the end mark at a matrix that no plan has.
fn seek(l_skip: u32, n_stack: u32, first: usize, list: &[u32], i: usize, s: usize) -> Column
    requires { (l_skip + n_stack ≤ 24) × (count_of list.now ≤ 4111) × (s ≤ 2 ^ 61) × (i ≤ count_of list.now) }
    ensures { result ≡ sought l_skip n_stack first list.now (count_of list.now - i) i s }
{
    let m = list.len() / 3;
    let mut start = s;
    for at in i..m {
        let width = list[3 * at];
        if width != 0 {
            let log = list[3 * at + 1];
            if is_oversized(l_skip, n_stack, width, log) {
                return end_mark(list);
            }
            return Column {
                matrix: at,
                column: 0,
                start,
                log,
                flag: list[3 * at + 2],
            };
        }
        start = opening(l_skip, n_stack, first, at + 1, start);
    }
    Column {
        matrix: m,
        column: 0,
        start,
        log: 0,
        flag: 0,
    }
}

// Where the walk begins; the end mark where a limit is passed, or a matrix that no plan has comes first. The list was decided
// before: what else refuses a list is not looked at.
pub fn walk_first(l_skip: u32, n_stack: u32, first: usize, list: &[u32]) -> Column
    ensures { result ≡ walk_first l_skip n_stack first list.now }
{
    if is_outside(l_skip, n_stack, list) {
        return end_mark(list);
    }
    seek(l_skip, n_stack, first, list, 0, 0)
}

// Where the walk goes from c; the end mark where c is at no column, or a matrix that no plan has comes next. The list was
// decided before, and c is where the walk came to.
pub fn walk_next(l_skip: u32, n_stack: u32, first: usize, list: &[u32], c: Column) -> Column
    ensures { result ≡ walk_next l_skip n_stack first list.now c }
{
    let i = c.matrix;
    let j = c.column;
    let s = c.start;
    if has_strayed(l_skip, n_stack, list, c) {
        return end_mark(list);
    }
    let w = list[3 * i] as usize;
    let log = list[3 * i + 1];
    let next = s + slice_len(log, l_skip);
    if j < w - 1 {
        return Column {
            matrix: i,
            column: j + 1,
            start: next,
            log,
            flag: list[3 * i + 2],
        };
    }
    let opened = opening(l_skip, n_stack, first, i + 1, next);
    seek(l_skip, n_stack, first, list, i + 1, opened)
}

// Whether c is a column of the list, where document 01 places it.
fn is_placed(l_skip: u32, n_stack: u32, first: usize, list: &[u32], c: Column) -> bool
    requires { Laid l_skip n_stack list.now }
    ensures { result ≡ is_placed l_skip n_stack first list.now c }
{
    if !is_column(list, c) {
        return false;
    }
    let s = matrix_start(l_skip, n_stack, first, list, c.matrix);
    let len = slice_len(c.log, l_skip);
    c.start == s + c.column * len
}

// The first column of a list, and the end mark where the list is refused.
pub fn first_column(l_skip: u32, n_stack: u32, first: usize, list: &[u32]) -> Column
    ensures { result ≡ first_column l_skip n_stack first list.now }
{
    if matrices(l_skip, n_stack, first, list).is_err() {
        return end_mark(list);
    }
    walk_first(l_skip, n_stack, first, list)
}

// The column after c, and the end mark where the list is refused or c is none of its columns.
pub fn next_column(l_skip: u32, n_stack: u32, first: usize, list: &[u32], c: Column) -> Column
    ensures { result ≡ next_column l_skip n_stack first list.now c }
{
    if matrices(l_skip, n_stack, first, list).is_err() {
        return end_mark(list);
    }
    if !is_placed(l_skip, n_stack, first, list, c) {
        return end_mark(list);
    }
    walk_next(l_skip, n_stack, first, list, c)
}
