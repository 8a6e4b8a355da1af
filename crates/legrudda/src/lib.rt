// The static library: the calls for programs in other languages. An element goes by value as a struct of its four words,
// a slice as a pointer and a count. Each function promises what the call under it promises.
#![tactic(auto)]

pub mod elements;
pub mod kernels;
pub mod plans;
pub mod rooms;
pub mod runs;
pub mod verdicts;
pub mod version;
