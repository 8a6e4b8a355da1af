// The layout of a stacked matrix: plan, slice records, stacking, and the part of a matrix.
#![tactic(auto)]

pub mod columns;
mod placing;
mod records;
mod refusals;
pub mod runs;
pub mod stacked_pcs;
mod stacking;
