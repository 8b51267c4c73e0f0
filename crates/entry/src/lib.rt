// Open, offer and verdict on an entry, which open and offer change. The crate `history` says what they answer and leave.
#![tactic(auto)]

mod offers;
mod opens;
mod verdicts;

pub use offers::{is_taken, offer_entry, offer_part, part_length};
pub use opens::open_entry;
pub use verdicts::verdict;
