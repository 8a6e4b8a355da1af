// The strided view of a matrix, from prover/matrix.rs, and that of a matrix in the stacked one, from prover/stacked_pcs.rs: a
// struct that holds its slice, and thin functions over covered ones.
#![tactic(auto)]

pub mod matrix;
pub mod stacked_pcs;
