// The theory of the labels of Hanoi edges (docs/reference.md, "Hanoi texts"): what they say, the grammar, and the reader as a definition. There is no code
// here; the crate `label_reader` has it.
#![tactic(auto)]
