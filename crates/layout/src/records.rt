// The slice records of a plan.
ghost use Rattle.std.specs.Prelude.{◌≡◌, ◌+◌, ◌*◌, ◌≤◌, ◌<◌, length};
ghost use Rattle.layout.specs.Triples.{column_count};
ghost use Rattle.layout.specs.Placing.{height};
ghost use Rattle.layout.specs.Refusals.{plan_number};
ghost use Rattle.layout.specs.Slice.{slice_at, Packable};
ghost use Rattle.layout.specs.Packed.{packed, packed_log, records};

use crate::columns::{Column, walk_first, walk_next};
use crate::placing::pow2;
use crate::stacked_pcs::StackedSlice;

// The slice at cell s.
pub(crate) fn slice_at(l_skip: u32, n_stack: u32, s: usize, log: u32) -> StackedSlice
    requires { (l_skip + n_stack ≤ 24) × (s < 65536 * height l_skip n_stack) }
    ensures { result ≡ slice_at l_skip n_stack s log }
{
    let h = pow2(l_skip + n_stack);
    let c = s >> (l_skip + n_stack);
    StackedSlice {
        col_idx: c as u32,
        row_idx: (s - c * h) as u32,
        log_height: log,
    }
}

// The first word of a slice record.
fn pack(l_skip: u32, n_stack: u32, c: Column) -> u64
    requires { Packable l_skip n_stack c }
    ensures { result ≡ packed l_skip n_stack c }
{
    let s = slice_at(l_skip, n_stack, c.start, c.log);
    let m = c.matrix as u64;
    let j = c.column as u64;
    m * 281474976710656 + j * 68719476736 + (s.col_idx as u64) * 16777216 + s.row_idx as u64
}

// The second word.
fn pack_log(c: Column) -> u64
    requires { c.log ≤ 24 }
    ensures { result ≡ packed_log c }
{
    c.log as u64 * 576460752303423488
}

// The records of every column, in order, two words each.
pub(crate) fn write(l_skip: u32, n_stack: u32, list: &[u32], sorted_cols: &mut [u64])
    requires { (plan_number l_skip n_stack list.now ≡ 0) × (length sorted_cols.old ≡ 2 * column_count list.now) }
    ensures { sorted_cols.new ≡ records l_skip n_stack list.now }
{
    let first = list.len() / 3;
    let n = sorted_cols.len() / 2;
    let mut c = walk_first(l_skip, n_stack, first, list);
    for k in 0..n {
        let a = pack(l_skip, n_stack, c);
        let b = pack_log(c);
        sorted_cols[2 * k] = a;
        sorted_cols[2 * k + 1] = b;
        c = walk_next(l_skip, n_stack, first, list, c);
    }
}
