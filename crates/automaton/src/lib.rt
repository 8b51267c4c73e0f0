// A Büchi automaton as a value: equal values are equal automata, since the bits of states and letters that it lacks are zero.
#![tactic(auto)]

ghost use Rattle.std.specs.Prelude.{◌≡◌};
ghost use Rattle.automaton.specs.Automata.{header_values};

mod sets;
mod targets;
mod valid;

pub use sets::{add_member, has_bit, is_member, least_member, with_bit};
pub use valid::Valid;

// The most states and the most letters that a header allows. States and letters are plain numbers, since they index bytes and are counted through; the functions
// that take one say its bound.
pub const MAX_STATES: usize = 32;

pub const MAX_LETTERS: usize = 16;

// The header's three numbers, the accepting states eight to a byte, and the transitions: the bit for the transition from q
// on letter a to r is bit r % 8 of byte (q * 16 + a) * 4 + r / 8. The numbers may be any, as those of forged entries are, which are examined; so what needs
// them bounded asks for it, or for a `Valid`.
#[derive(Clone, Copy)]
pub struct Automaton {
    pub states: usize,
    pub letters: usize,
    pub initial: usize,
    pub accepting: [u8; 4],
    pub transitions: [u8; 2048],
}

// Whether a header's three numbers are in their ranges.
pub fn header_values(states: usize, letters: usize, initial: usize) -> bool
    ensures { result ≡ header_values states letters initial }
{
    (1 <= states)
        & (states <= MAX_STATES)
        & (1 <= letters)
        & (letters <= MAX_LETTERS)
        & (initial < states)
}
