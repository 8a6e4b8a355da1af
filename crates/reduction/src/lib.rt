// Demand 3, as the contract of a function that does nothing: every list of a run's calls, and the verdict on what they return.
#![tactic(auto)]

ghost use Rattle.reduction.specs.Theorem.{Demand};

pub fn demand_3()
    ensures { Demand }
{}
