// The prover's side of the stacked opening reduction: the calls of a run, and their loops over the work buffers.
#![tactic(auto)]

mod accumulator;
mod canonical;
mod claims;
mod column_weights;
mod columns;
mod elements;
mod first;
mod geometric;
pub mod given;
mod heights;
mod kernels;
mod lines;
mod made;
mod pairs;
mod plans;
mod points;
pub mod rooms;
mod row_sums;
mod rows;
pub mod stacked_reduction;
mod sumcheck;
mod table_rows;
mod transforms;
pub mod turns;
mod words;
