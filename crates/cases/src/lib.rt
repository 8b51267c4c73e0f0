// The worked automata of document 01, and the cases that it marks to be proved.
#![tactic(auto)]
