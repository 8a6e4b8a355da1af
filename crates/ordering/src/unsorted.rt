// Planning a list in whatever order it came.
ghost use Rattle.std.specs.Prelude.{◌≡◌, ◌++◌, ◌*◌, ◌≤◌, length, take, drop};
ghost use Rattle.layout.specs.Answers.{answer_of};
ghost use Rattle.layout.specs.Triples.{count_of};
ghost use Rattle.layout.specs.Planning.{laid_out};
ghost use Rattle.layout.specs.Packed.{records};
ghost use Rattle.ordering.specs.Ordered.{positions, ordered};
ghost use Rattle.ordering.specs.Unsorted.{in_order_number, unless_refused, unsorted_of, unsorted_into, arrivals_into};

use crate::merging::order_into;
use field::answer::Refusal;
use layout::stacked_pcs::{StackedLayout, planning};

// The triples in order, at the front of `out`.
fn gather(list: &[u32], order: &[u32], out: &mut [u32])
    requires { (take (count_of list.now) order.now ≡ positions list.now) × (3 * count_of list.now ≤ length out.old) }
    ensures { out.new ≡ ordered list.now ++ drop (3 * count_of list.now) out.old }
{
    let n = 3 * (list.len() / 3);
    for k in 0..n {
        let i = order[k / 3] as usize;
        out[k] = list[3 * i + k % 3];
    }
}

// Whether a list in order can be planned; then 9 for words after its last triple, and for `arrivals` of another length.
fn number(
    l_skip: u32,
    n_stack: u32,
    sorted: &[u32],
    over: usize,
    arrivals: usize,
    places: usize,
) -> Result<(), Refusal>
    ensures { result ≡ answer_of (in_order_number l_skip n_stack sorted.now over arrivals places) }
{
    planning(l_skip, n_stack, sorted, places)?;
    if over != 0 {
        return Err(Refusal::WrongLength);
    }
    if arrivals != sorted.len() / 3 {
        return Err(Refusal::WrongLength);
    }
    Ok(())
}

// Plans a list in order, whose arrival positions are at the front of `order`.
fn plan_in_order(
    l_skip: u32,
    n_stack: u32,
    sorted: &[u32],
    over: usize,
    order: &[u32],
    arrivals: &mut [u32],
    sorted_cols: &mut [u64],
) -> Result<StackedLayout, Refusal>
    requires { count_of sorted.now ≤ length order.now }
    ensures { (result ≡ laid_out l_skip n_stack sorted.now (in_order_number l_skip n_stack sorted.now over (length arrivals.old) (length sorted_cols.old))) × (arrivals.new ≡ unless_refused (in_order_number l_skip n_stack sorted.now over (length arrivals.old) (length sorted_cols.old)) (take (count_of sorted.now) order.now) arrivals.old) × (sorted_cols.new ≡ unless_refused (in_order_number l_skip n_stack sorted.now over (length arrivals.old) (length sorted_cols.old)) (records l_skip n_stack sorted.now) sorted_cols.old) }
{
    let places = sorted_cols.len();
    number(l_skip, n_stack, sorted, over, arrivals.len(), places)?;
    arrivals.copy_from_slice(&order[..arrivals.len()]);
    StackedLayout::new(l_skip, n_stack, sorted, sorted_cols)
}

// Orders the matrices of a list, three words each, by falling log height, the wider first among equals, then the earlier
// arrival; plans the ordered list, and writes the position at which the matrix of each place came.
pub fn plan_unsorted(
    l_skip: u32,
    n_stack: u32,
    unsorted: &[u32],
    arrivals: &mut [u32],
    sorted_cols: &mut [u64],
) -> Result<StackedLayout, Refusal>
    ensures { (result ≡ unsorted_of l_skip n_stack unsorted.now (length arrivals.old) (length sorted_cols.old)) × (arrivals.new ≡ arrivals_into l_skip n_stack unsorted.now arrivals.old (length sorted_cols.old)) × (sorted_cols.new ≡ unsorted_into l_skip n_stack unsorted.now (length arrivals.old) sorted_cols.old) }
{
    let m = unsorted.len() / 3;
    if 4096 < m {
        return Err(Refusal::LimitExceeded);
    }
    let n = 3 * m;
    let over = unsorted.len() % 3;
    let mut order = [0u32; 4096];
    let mut sorted = [0u32; 12288];
    order_into(unsorted, &mut order, &mut sorted);
    gather(unsorted, &order, &mut sorted);
    plan_in_order(
        l_skip,
        n_stack,
        &sorted[..n],
        over,
        &order,
        arrivals,
        sorted_cols,
    )
}
