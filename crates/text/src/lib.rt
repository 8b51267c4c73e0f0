// Numbers and letters as text in a lent buffer, and the percent of states saved. No Display and no `write!`: every byte of the buffer is promised, which a
// formatter's contract does not say.
#![tactic(auto)]

mod parts;
mod saved;

pub use parts::{put_decimal, put_field, put_letters};
pub use saved::percent_saved;
