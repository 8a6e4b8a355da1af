// The weighted sum that every pair and every verdict is about, in specs/ and proofs/; and how many claims there are.
#![tactic(auto)]

pub mod claims;
