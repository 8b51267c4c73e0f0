// Runs of Büchi automata: definitions and theorems only.
#![tactic(auto)]
