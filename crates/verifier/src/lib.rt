// The verdict on a stacked opening reduction.
#![tactic(auto)]

pub mod asked;
mod claims;
mod column_weights;
mod final_sum;
mod observed;
pub mod rooms;
mod rounds;
mod shapes;
pub mod stacked_reduction;
