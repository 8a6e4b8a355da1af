// The mathematics under the field and its polynomials. All of it is in specs/ and proofs/; there is nothing to run.
#![tactic(auto)]

pub fn nothing() {}
