// Words, elements and the powers of the skip generator; the numbers that calls answer with.
#![tactic(auto)]

pub mod answer;
pub mod element;
pub mod powers;
pub mod slice;
pub mod word;
