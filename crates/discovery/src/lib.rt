// Successors discovered: each is listed already, or final, or takes the next slot, or finds none. The left states that are listed with the
// counters of a class are known as a set, so that only targets that are not listed are gone through.
#![tactic(auto)]

mod listed;
mod sides;

pub use listed::Listed;
pub use sides::{Side, Sides};

// Why a list ends: a final vertex, with its place, and the letter and the place of the parent by which it was found, numbers as in a slot, 255 and 65535 of
// the initial vertex; or a vertex that found no slot, with the number of slots.
#[derive(Clone, Copy, Debug, PartialEq, Eq)]
pub enum Stop {
    Final {
        place: usize,
        letter: u8,
        parent: usize,
    },
    Full(usize),
}
