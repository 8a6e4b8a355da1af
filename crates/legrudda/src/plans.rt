// Planning, stacking and views.
ghost use Rattle.std.specs.Prelude.{◌≡◌, length};
ghost use Rattle.layout.specs.Planning.{planned_of, planned_into};
ghost use Rattle.layout.specs.Getting.{got_of};
ghost use Rattle.layout.specs.Viewing.{mat_place_of};
ghost use Rattle.layout.specs.Stacking.{stacked_of, stacked_into};
ghost use Rattle.ordering.specs.Unsorted.{unsorted_of, unsorted_into, arrivals_into};
ghost use Rattle.legrudda.specs.Exported.{plan_of, slice_of, place_of};

use field::answer::Refusal;
use layout::stacked_pcs;
use layout::stacked_pcs::StackedLayout;
use ordering::unsorted;

// The plan of one commitment, or the number of a refusal and zeros.
#[repr(C)]
#[derive(Clone, Copy)]
pub struct Plan {
    pub number: u32,
    pub width: u32,
    pub height: u32,
    pub columns: u32,
}

// Where a column lies.
#[repr(C)]
#[derive(Clone, Copy)]
pub struct Slice {
    pub number: u32,
    pub col_idx: u32,
    pub row_idx: u32,
    pub log_height: u32,
}

// Where a matrix's cells lie in the stacked matrix.
#[repr(C)]
#[derive(Clone, Copy)]
pub struct Place {
    pub number: u32,
    pub start: usize,
    pub len: usize,
}

impl From<Result<StackedLayout, Refusal>> for Plan {
    ghost from_gives = { λ planned plan. plan ≡ plan_of planned };

    fn from(planned: Result<StackedLayout, Refusal>) -> Plan {
        match planned {
            Ok(layout) => Plan {
                number: 0,
                width: layout.width,
                height: layout.height,
                columns: layout.columns,
            },
            Err(refusal) => Plan {
                number: refusal.into(),
                width: 0,
                height: 0,
                columns: 0,
            },
        }
    }
}

#[unsafe(no_mangle)]
pub extern "C" fn legrudda_plan(
    l_skip: u32,
    n_stack: u32,
    list: &[u32],
    records: &mut [u64],
) -> Plan
    ensures { (result ≡ plan_of (planned_of l_skip n_stack list.now (length records.old))) × (records.new ≡ planned_into l_skip n_stack list.now records.old) }
{
    StackedLayout::new(l_skip, n_stack, list, records).into()
}

#[unsafe(no_mangle)]
pub extern "C" fn legrudda_get(
    l_skip: u32,
    n_stack: u32,
    list: &[u32],
    mat_idx: usize,
    col_idx: usize,
) -> Slice
    ensures { result ≡ slice_of (got_of l_skip n_stack list.now mat_idx col_idx) }
{
    match stacked_pcs::get(l_skip, n_stack, list, mat_idx, col_idx) {
        Ok(slice) => Slice {
            number: 0,
            col_idx: slice.col_idx,
            row_idx: slice.row_idx,
            log_height: slice.log_height,
        },
        Err(refusal) => Slice {
            number: refusal.into(),
            col_idx: 0,
            row_idx: 0,
            log_height: 0,
        },
    }
}

#[unsafe(no_mangle)]
pub extern "C" fn legrudda_stacked_matrix(
    l_skip: u32,
    n_stack: u32,
    traces: &[u32],
    cells: &[u32],
    q_mat: &mut [u32],
) -> Plan
    ensures { (result ≡ plan_of (stacked_of l_skip n_stack traces.now cells.now (length q_mat.old))) × (q_mat.new ≡ stacked_into l_skip n_stack traces.now cells.now q_mat.old) }
{
    stacked_pcs::stacked_matrix(l_skip, n_stack, traces, cells, q_mat).into()
}

#[unsafe(no_mangle)]
pub extern "C" fn legrudda_mat_place(
    l_skip: u32,
    n_stack: u32,
    list: &[u32],
    stacked: &[u32],
    mat_idx: usize,
) -> Place
    ensures { result ≡ place_of (mat_place_of l_skip n_stack list.now stacked.now mat_idx) }
{
    match stacked_pcs::mat_place(l_skip, n_stack, list, stacked, mat_idx) {
        Ok(place) => Place {
            number: 0,
            start: place.start,
            len: place.len,
        },
        Err(refusal) => Place {
            number: refusal.into(),
            start: 0,
            len: 0,
        },
    }
}

// The plan of a list in whatever order, and the arrival position of each place.
#[unsafe(no_mangle)]
pub extern "C" fn legrudda_plan_unsorted(
    l_skip: u32,
    n_stack: u32,
    list: &[u32],
    arrivals: &mut [u32],
    records: &mut [u64],
) -> Plan
    ensures { (result ≡ plan_of (unsorted_of l_skip n_stack list.now (length arrivals.old) (length records.old))) × (arrivals.new ≡ arrivals_into l_skip n_stack list.now arrivals.old (length records.old)) × (records.new ≡ unsorted_into l_skip n_stack list.now (length arrivals.old) records.old) }
{
    unsorted::plan_unsorted(l_skip, n_stack, list, arrivals, records).into()
}
