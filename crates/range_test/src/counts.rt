// Transitions counted.
ghost use Rattle.std.specs.Prelude.{◌≡◌, ℕ, ◌<◌, ◌≤◌};
ghost use Rattle.automaton.specs.Ranges.{total};
ghost use Rattle.automaton.specs.Automata.{one, transition};

use automaton::Automaton;

// The number of targets of q on letter a.
#[tactic(auto, using(automaton::proofs::Members::total_same, automaton::proofs::Members::transition_bit_lem))]
fn targets(automaton: &Automaton, q: usize, a: usize) -> usize
    requires { (automaton.now.states ≤ 32) × (automaton.now.letters ≤ 16) × (q < automaton.now.states) × (a < automaton.now.letters) }
    ensures { (result ≡ total (λ r. one (transition automaton.now q a r)) automaton.now.states 0) × (result ≤ 32) }
{
    relations::count_below(relations::row(automaton, q, a), automaton.states)
}

// The number of transitions from q.
pub fn transitions_from(automaton: &Automaton, q: usize) -> usize
    requires { (automaton.now.states ≤ 32) × (automaton.now.letters ≤ 16) × (q < automaton.now.states) }
    ensures { (result ≡ total (λ a. total (λ r. one (transition automaton.now q a r)) automaton.now.states 0) automaton.now.letters 0) × (result ≤ 512) }
{
    (0..automaton.letters)
        .map(|a| targets(automaton, q, a))
        .sum()
}
