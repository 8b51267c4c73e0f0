// The theory of the walk (docs/reference.md, "The walk"): the discovery list, the lag-checking graph and its theorems. There is no code here but the type of a
// bound; the crate `walk` has the rest.
#![tactic(auto)]

mod bound;

pub use bound::Bound;
