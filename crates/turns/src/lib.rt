// The prover's turn lent by `&mut self`, from prover/stacked_reduction.rs: thin methods over the calls that take the turn by value.
#![tactic(auto)]

pub mod stacked_reduction;
