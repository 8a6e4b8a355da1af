// Matrices in whatever order they come: their order, and the plan of the ordered list.
#![tactic(auto)]

mod merging;
pub mod unsorted;
