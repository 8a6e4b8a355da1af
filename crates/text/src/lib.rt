// Lines of a word and numbers: read a byte at a time, looked up, and printed.
#![tactic(auto)]

pub mod line;
pub mod name;
pub mod print;
pub mod template;
pub mod writer;
