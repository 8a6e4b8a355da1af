// Eq and rotation kernels, their tables, and interpolation.
#![tactic(auto)]

pub mod poly;
pub mod poly_common;
