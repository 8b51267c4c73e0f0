// What crosses to vendors: an entry as bytes, and the numbers that stand for answers (docs/reference.md, "The boundary for vendors").
#![tactic(auto)]

pub mod bytes;
pub mod numbers;
