// Lengths and places of slices.
ghost use Rattle.std.specs.Prelude.{◌≡◌, ◌+◌, ◌*◌, ◌≤◌, ◌<◌, ◌^◌};
ghost use Rattle.layout.specs.Triples.{count_of};
ghost use Rattle.layout.specs.Placing.{slice_length, opened, round_up, matrix_start};
ghost use Rattle.layout.specs.Shaped.{Laid};

pub(crate) fn pow2(log: u32) -> usize
    requires { log < 64 }
    ensures { result ≡ 2 ^ log }
{
    1usize << log
}

// The rows that a column takes. In the Rust: StackedSlice::_len.
pub(crate) fn slice_len(log: u32, l_skip: u32) -> usize
    requires { (log < 64) × (l_skip < 64) }
    ensures { result ≡ slice_length l_skip log }
{
    if l_skip <= log {
        return pow2(log);
    }
    pow2(l_skip)
}

// The first multiple of 2^k from s on.
pub(crate) fn round_up(k: u32, s: usize) -> usize
    requires { (k ≤ 24) × (s ≤ 2 ^ 62) }
    ensures { result ≡ round_up (2 ^ k) s }
{
    let h = pow2(k);
    (s + (h - 1)) / h * h
}

// Where matrix i starts after cells up to s.
pub(crate) fn opening(l_skip: u32, n_stack: u32, first: usize, i: usize, s: usize) -> usize
    requires { (l_skip + n_stack ≤ 24) × (s ≤ 2 ^ 62) }
    ensures { result ≡ opened l_skip n_stack first i s }
{
    if first <= i {
        return round_up(l_skip + n_stack, s);
    }
    s
}

// Where matrix i starts after a matrix at cell s of w columns of log height log.
pub(crate) fn after(
    l_skip: u32,
    n_stack: u32,
    first: usize,
    i: usize,
    s: usize,
    w: usize,
    log: u32,
) -> usize
    requires { (l_skip + n_stack ≤ 24) × (s ≤ 2 ^ 60) × (w ≤ 4096) × (0 < w → log ≤ 24) }
    ensures { result ≡ opened l_skip n_stack first i (s + w * slice_length l_skip log) }
{
    if w == 0 {
        return opening(l_skip, n_stack, first, i, s);
    }
    let len = slice_len(log, l_skip);
    opening(l_skip, n_stack, first, i, s + w * len)
}

// Where matrix i starts.
pub(crate) fn matrix_start(l_skip: u32, n_stack: u32, first: usize, list: &[u32], i: usize) -> usize
    requires { Laid l_skip n_stack list.now × (i ≤ count_of list.now) }
    ensures { result ≡ matrix_start l_skip n_stack first list.now i }
{
    let mut s = 0usize;
    for k in 0..i {
        let w = list[3 * k] as usize;
        s = after(l_skip, n_stack, first, k + 1, s, w, list[3 * k + 1]);
    }
    s
}
