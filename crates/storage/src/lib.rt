// Rows for storage: a stacked matrix as rows of all its columns in bit-reversed order, and back.
#![tactic(auto)]

mod moving;
pub mod rows;
