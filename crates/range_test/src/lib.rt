// The number of transitions of an automaton, and whether it is in range.
#![tactic(auto)]

ghost use Rattle.std.specs.Prelude.{◌≡◌, ◌≤◌};
ghost use Rattle.automaton.specs.Automata.{transition_count, in_range};

use automaton::{Automaton, header_values};

mod counts;
mod strays;

// The number of transitions.
pub fn transition_count(automaton: &Automaton) -> usize
    requires { (automaton.now.states ≤ 32) × (automaton.now.letters ≤ 16) }
    ensures { result ≡ transition_count automaton.now }
{
    (0..automaton.states)
        .map(|q| counts::transitions_from(automaton, q))
        .sum()
}

// Whether the header values are those of a file, and only states and letters of the header are used.
#[tactic(auto, unfolding(automaton::specs::Automata::in_range))]
pub fn in_range(automaton: &Automaton) -> bool
    ensures { result ≡ in_range automaton.now }
{
    header_values(automaton.states, automaton.letters, automaton.initial)
        && !strays::stray(automaton)
}
