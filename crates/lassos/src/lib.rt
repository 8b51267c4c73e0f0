// The theory of the lasso verdict (docs/reference.md, "Verdict"): acceptance of a lasso word, computed by sets of states and closures, is acceptance by
// a run. There is no code here; the crate `verdict` has it.
#![tactic(auto)]
