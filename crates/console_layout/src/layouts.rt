// Planning, stacking and the view, on one commitment's triples.
ghost use Rattle.std.specs.Prelude.{◌≤◌};

use console_lines::commands::Command;
use console_lines::memory::{Held, Words};
use console_lines::replies::{Outcome, Refusal, Reply};
use layout::stacked_pcs::{StackedLayout, get, mat_place, stacked_matrix};
use ordering::unsorted;

// The columns of a list, at most 4,096.
fn columns(list: &[u32]) -> usize
    ensures { result ≤ 4096 }
{
    list.as_chunks::<3>()
        .0
        .iter()
        .fold(0usize, |n, [width, _, _]| n.saturating_add(*width as usize))
        .min(4096)
}

fn low_word(x: u64) -> u32 {
    (x & 0xffff_ffff) as u32
}

// Puts a record of two numbers, in four words.
fn put_record(words: &mut Words, a: u64, b: u64) {
    words.grow(&[
        low_word(a >> 32),
        low_word(a),
        low_word(b >> 32),
        low_word(b),
    ]);
}

// Puts the three numbers of a plan.
fn put_plan(words: &mut Words, plan: StackedLayout) {
    words.grow(&[plan.width, plan.height, plan.columns]);
}

// Puts the records of a plan.
fn put_records(words: &mut Words, records: &[u64]) {
    for [a, b] in records.as_chunks::<2>().0 {
        put_record(words, *a, *b);
    }
}

// plan I
fn plan(list: &[u32], held: &Held, words: &mut Words) -> Outcome {
    let mut records = [0u64; 8192];
    let records = &mut records[..2 * columns(list)];
    let layout = StackedLayout::new(held.shape.l_skip, held.shape.n_stack, list, records)?;
    put_plan(words, layout);
    put_records(words, records);
    Ok(Reply::Records(3))
}

// plan_unsorted I
fn plan_unsorted(list: &[u32], held: &Held, words: &mut Words) -> Outcome {
    let mut arrivals = [0u32; 4096];
    let mut records = [0u64; 8192];
    let m = (list.len() / 3).min(4096);
    let arrivals = &mut arrivals[..m];
    let records = &mut records[..2 * columns(list)];
    let layout = unsorted::plan_unsorted(
        held.shape.l_skip,
        held.shape.n_stack,
        list,
        arrivals,
        records,
    )?;
    put_plan(words, layout);
    words.grow(arrivals);
    put_records(words, records);
    Ok(Reply::Records(3 + m))
}

// The first word of a slice record.
fn first_word(matrix: u32, column: u32, col_idx: u32, row_idx: u32) -> u64 {
    ((matrix as u64) << 48) | ((column as u64) << 36) | ((col_idx as u64) << 24) | row_idx as u64
}

// The second.
fn second_word(log_height: u32) -> u64 {
    (log_height as u64) << 59
}

// get I M J
fn get_record(list: &[u32], held: &Held, m: u32, j: u32, words: &mut Words) -> Outcome {
    let slice = get(
        held.shape.l_skip,
        held.shape.n_stack,
        list,
        m as usize,
        j as usize,
    )?;
    put_record(
        words,
        first_word(m, j, slice.col_idx, slice.row_idx),
        second_word(slice.log_height),
    );
    Ok(Reply::Records(0))
}

// The words of the stacked matrix of a list with heights, and 0 where the list is refused.
fn stacked_words(list: &[u32], l_skip: u32, n_stack: u32) -> usize {
    let mut logs = [0u32; 12288];
    let n = list.len().min(12288);
    for (i, (log, x)) in logs.iter_mut().zip(list).enumerate() {
        *log = if i % 3 == 1 { x.trailing_zeros() } else { *x };
    }
    let mut records = [0u64; 8192];
    let list = &logs[..n];
    StackedLayout::new(l_skip, n_stack, list, &mut records[..2 * columns(list)]).map_or(
        0,
        |layout| layout.width as usize * layout.height as usize,
    )
}

// stack I
fn stack(list: &[u32], held: &Held, words: &mut Words) -> Outcome {
    let l_skip = held.shape.l_skip;
    let n_stack = held.shape.n_stack;
    let cells = held.cells.given();
    let Ok(out) = words.lent(stacked_words(list, l_skip, n_stack)) else {
        return Err(no_room(list, l_skip, n_stack, cells));
    };
    stacked_matrix(l_skip, n_stack, list, cells, out)?;
    Ok(Reply::Done)
}

// The answer where the stacked matrix has more words than there is room for: a number below that of the length, or full.
fn no_room(list: &[u32], l_skip: u32, n_stack: u32, cells: &[u32]) -> Refusal {
    match stacked_matrix(l_skip, n_stack, list, cells, &mut []) {
        Err(why) if u32::from(why) < 9 => why.into(),
        _ => Refusal::Full,
    }
}

// A word of a place or a length in what is held, which is below 2^32.
fn word(x: usize) -> u32 {
    u32::try_from(x).unwrap_or(u32::MAX)
}

// view I M
fn view(list: &[u32], held: &Held, m: u32, words: &mut Words) -> Outcome {
    let place = mat_place(
        held.shape.l_skip,
        held.shape.n_stack,
        list,
        held.matrix.given(),
        m as usize,
    )?;
    words.grow(&[word(place.start), word(place.len)]);
    Ok(Reply::Done)
}

// The answer to one of these commands, by the words of the answer.
pub fn reply(command: Command, x: &[u32], held: &Held, words: &mut Words) -> Outcome {
    let [i, rest @ ..] = x else {
        return Err(Refusal::Error);
    };
    let list = held.shape.commitment(*i).ok_or(Refusal::Error)?;
    match (command, rest) {
        (Command::Plan, []) => plan(list, held, words),
        (Command::Get, [m, j]) => get_record(list, held, *m, *j, words),
        (Command::Stack, []) => stack(list, held, words),
        (Command::PlanUnsorted, []) => plan_unsorted(list, held, words),
        (Command::View, [m]) => view(list, held, *m, words),
        _ => Err(Refusal::Error),
    }
}
