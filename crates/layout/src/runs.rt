// The lists of a run, of all commitments.
ghost use Rattle.std.specs.Prelude.{◌≡◌, ◌+◌, ◌-◌, ◌*◌, ◌≤◌, ◌<◌, ◌^◌, length};
ghost use Rattle.layout.specs.Answers.{answer_of};
ghost use Rattle.layout.specs.Lists.{first_count, named, commitment_number, counts_number, width_there, later_number, empty_number, there_number, lists_number, lists_length, run_lists};
ghost use Rattle.layout.specs.Checks.{first_of};
ghost use Rattle.layout.specs.Refusals.{limits_number};
ghost use Rattle.layout.specs.Triples.{count_of, column_count};

use crate::placing::matrix_start;
use crate::refusals::{columns, count_before, flags, laid, limits};
use field::answer::Refusal;

// What a run's lists come to, where 1, 2, 4, 5, 6 and 7 do not refuse them: whether they are as long as their counts say (9 comes
// after the call's turn), and then the matrices of the first commitment, and the columns and stack columns of all commitments.
#[derive(Clone, Copy)]
pub struct RunLists {
    pub length: Result<(), Refusal>,
    pub first: usize,
    pub columns: usize,
    pub stacked: usize,
}

fn first_count(counts: &[u32]) -> usize
    ensures { result ≡ first_count counts.now }
{
    if counts.len() == 0 {
        return 0;
    }
    counts[0] as usize
}

// The matrices of all commitments.
fn named_count(counts: &[u32]) -> usize
    ensures { result ≡ named counts.now }
{
    let n = counts.len();
    let first = first_count(counts);
    if n == 0 {
        return first;
    }
    first + (n - 1)
}

// Each commitment after the first has one matrix.
fn later_counts(counts: &[u32]) -> Result<(), Refusal>
    requires { 0 < length counts.now }
    ensures { result ≡ answer_of (first_of (length counts.now) (commitment_number counts.now)) }
{
    let n = counts.len();
    for c in 1..n {
        if counts[c] != 1 {
            return Err(Refusal::LimitExceeded);
        }
    }
    Ok(())
}

fn counts_number(counts: &[u32]) -> Result<(), Refusal>
    ensures { result ≡ answer_of (counts_number counts.now) }
{
    let n = counts.len();
    if n == 0 {
        return Err(Refusal::LimitExceeded);
    }
    if 16 < n {
        return Err(Refusal::LimitExceeded);
    }
    if 4096 < counts[0] {
        return Err(Refusal::LimitExceeded);
    }
    later_counts(counts)
}

fn width_there(list: &[u32], i: usize) -> u32
    ensures { result ≡ width_there list.now i }
{
    if i < list.len() / 3 {
        return list[3 * i];
    }
    0
}

// Each commitment after the first has a column.
fn later_empty(first: usize, later: usize, list: &[u32]) -> Result<(), Refusal>
    requires { (first ≤ 4096) × (later ≤ 15) }
    ensures { result ≡ answer_of (first_of later (later_number first list.now)) }
{
    for c in 0..later {
        if width_there(list, first + c) == 0 {
            return Err(Refusal::NoColumn);
        }
    }
    Ok(())
}

fn empty_number(first: usize, later: usize, list: &[u32]) -> Result<(), Refusal>
    requires { (first ≤ 4096) × (later ≤ 15) × (column_count list.now ≤ 2 ^ 30) }
    ensures { result ≡ answer_of (empty_number first later list.now) }
{
    let end = first.min(list.len() / 3);
    if count_before(list, end) == 0 {
        return Err(Refusal::NoColumn);
    }
    later_empty(first, later, list)
}

fn there_number(
    l_skip: u32,
    n_stack: u32,
    first: usize,
    later: usize,
    list: &[u32],
) -> Result<(), Refusal>
    requires { (limits_number l_skip n_stack ≡ 0) × (first ≤ 4096) × (later ≤ 15) × (count_of list.now ≤ 4111) }
    ensures { result ≡ answer_of (there_number l_skip n_stack first later list.now) }
{
    flags(list)?;
    columns(first, list)?;
    laid(l_skip, n_stack, first, list)?;
    empty_number(first, later, list)
}

fn lists_number(l_skip: u32, n_stack: u32, counts: &[u32], lists: &[u32]) -> Result<(), Refusal>
    ensures { result ≡ answer_of (lists_number l_skip n_stack counts.now lists.now) }
{
    limits(l_skip, n_stack)?;
    counts_number(counts)?;
    let first = first_count(counts);
    let later = counts.len() - 1;
    let end = (3 * named_count(counts)).min(lists.len());
    there_number(l_skip, n_stack, first, later, &lists[..end])
}

// Whether lists are as long as their counts say, whatever else refuses them.
pub fn lists_length(counts: &[u32], lists: &[u32]) -> Result<(), Refusal>
    ensures { result ≡ answer_of (lists_length counts.now lists.now) }
{
    if lists.len() != 3 * named_count(counts) {
        return Err(Refusal::WrongLength);
    }
    Ok(())
}

// What a run's lists come to, or why they are refused.
pub fn read_lists(
    l_skip: u32,
    n_stack: u32,
    counts: &[u32],
    lists: &[u32],
) -> Result<RunLists, Refusal>
    ensures { result ≡ run_lists l_skip n_stack counts.now lists.now }
{
    lists_number(l_skip, n_stack, counts, lists)?;
    let length = lists_length(counts, lists);
    if length.is_err() {
        return Ok(RunLists {
            length,
            first: 0,
            columns: 0,
            stacked: 0,
        });
    }
    let first = first_count(counts);
    let m = lists.len() / 3;
    let n = count_before(lists, m);
    let end = matrix_start(l_skip, n_stack, first, lists, m);
    Ok(RunLists {
        length,
        first,
        columns: n,
        stacked: end >> (l_skip + n_stack),
    })
}
