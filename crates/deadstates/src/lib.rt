// The theory of dead ends (docs/reference.md, "Dead ends"): the set of dead states, computed, has exactly the dead states. There is no code here;
// the crate `deadend` has it.
#![tactic(auto)]
