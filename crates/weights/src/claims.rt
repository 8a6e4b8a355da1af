// How many claims there are, from verifier/stacked_reduction.rs.
ghost use Rattle.std.specs.Prelude.{◌≡◌, List, ℕ};
ghost use Rattle.layout.specs.Walked.{Walked};
ghost use Rattle.weights.specs.LambdaPowers.{claims_of, claims_before};
ghost use Rattle.weights.specs.RunOf.{run_of};

use layout::columns::{walk_first, walk_next};

// The claims of a column with this flag.
pub fn claims_of(flag: u32) -> usize
    ensures { result ≡ claims_of flag }
{
    if flag == 0 { 1 } else { 2 }
}

// The claims of all columns of lists that were decided before, whatever r and lambda; 0 for more columns than any lists have.
pub fn claim_count(l_skip: u32, n_stack: u32, first: usize, lists: &[u32], columns: usize) -> usize
    ensures { Walked l_skip n_stack first lists.now columns → (point lambda : List ℕ) → result ≡ claims_before (run_of l_skip n_stack first lists.now point lambda) columns }
{
    if 16838656 < columns {
        return 0;
    }
    let mut count: usize = 0;
    let mut c = walk_first(l_skip, n_stack, first, lists);
    for _ in 0..columns {
        count += claims_of(c.flag);
        c = walk_next(l_skip, n_stack, first, lists, c);
    }
    count
}
