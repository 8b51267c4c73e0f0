// The theory of checks in order (docs/reference.md, "Refusals"): rows of a table, of which the first whose condition holds gives the answer, and
// conditions on the automaton of a file. There is no code here; each call has the code of its checks.
#![tactic(auto)]
