// An automaton's members, looked up and added in its bytes.
ghost use Rattle.std.specs.Prelude.{◌≡◌, ◌<◌, replicate};
ghost use Rattle.automaton.specs.Automata.{bare, transition_bit, with_accepting, with_transition};

use crate::sets::{add_member, has_bit, with_bit};
use crate::{Automaton, MAX_LETTERS};

impl Automaton {
    // No states, no letters and nothing set: what a file or a text is read into.
    #[tactic(auto, unfolding(crate::specs::Automata::bare))]
    pub fn empty() -> Automaton
        ensures { result ≡ bare 0 0 0 }
    {
        Automaton {
            states: 0,
            letters: 0,
            initial: 0,
            accepting: [0; 4],
            transitions: [0; 2048],
        }
    }

    // Whether the bit for the transition from q on letter a to r is set.
    pub fn has_transition(&self, q: usize, a: usize, r: usize) -> bool
        requires { (q < 32) × (a < 16) × (r < 32) }
        ensures { result ≡ transition_bit self.now q a r }
    {
        has_bit(self.transitions[(q * MAX_LETTERS + a) * 4 + r / 8], r % 8)
    }

    // State q accepts afterwards.
    #[tactic(auto, unfolding(crate::specs::Automata::with_accepting))]
    pub fn add_accepting(&mut self, q: usize)
        requires { q < 32 }
        ensures { self.new ≡ with_accepting self.old q }
    {
        add_member(&mut self.accepting, q);
    }

    // The bit for the transition from q on letter a to r is set afterwards.
    #[tactic(auto, unfolding(crate::specs::Automata::with_transition))]
    pub fn add_transition(&mut self, q: usize, a: usize, r: usize)
        requires { (q < 32) × (a < 16) × (r < 32) }
        ensures { self.new ≡ with_transition self.old q a r }
    {
        let place = (q * MAX_LETTERS + a) * 4 + r / 8;
        self.transitions[place] = with_bit(self.transitions[place], r % 8);
    }
}
