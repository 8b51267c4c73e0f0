// Bits set for states and letters that the header lacks.
ghost use Rattle.std.specs.Prelude.{◌≡◌, cond, ◌&&◌, not, ℕ, ◌<◌, ◌≤◌, ltb};
ghost use Rattle.automaton.specs.Automata.{stray_state, stray_transition, stray};
ghost use Rattle.automaton.specs.Ranges.{some};
ghost use Rattle.automaton.specs.Sets.{bit};

use automaton::{Automaton, MAX_LETTERS, MAX_STATES};

// The states that a header with so many lacks; for so many letters, the letters.
fn lacking(count: usize) -> u32
    ensures { (r : ℕ) → r < 32 → bit result r ≡ not (ltb r count) }
{
    u32::MAX
        .checked_shl(count.min(MAX_STATES) as u32)
        .unwrap_or(0)
}

// Whether a state that the header lacks accepts.
#[tactic(auto, using(relations::proofs::Rows::some_same), unfolding(automaton::specs::Automata::stray_state))]
fn stray_state(automaton: &Automaton) -> bool
    ensures { result ≡ some (stray_state automaton.now) 32 0 }
{
    let accepting = relations::of_bytes(&automaton.accepting);
    relations::meets(accepting, lacking(automaton.states))
}

// The states to which the header allows no transition from q on letter a. The letter is sought in a set: compared with the number of letters, 16 at
// a time, it takes 48 bytes of constants more.
#[tactic(auto, using(crate::proofs::Words::bit_all))]
fn barred(automaton: &Automaton, q: usize, a: usize) -> u32
    requires { a < 32 }
    ensures { (r : ℕ) → r < 32 → bit result r ≡ not (ltb q automaton.now.states && ltb a automaton.now.letters && ltb r automaton.now.states) }
{
    let lacks = relations::has(lacking(automaton.letters), a);
    if (q < automaton.states) & !lacks {
        lacking(automaton.states)
    } else {
        u32::MAX
    }
}

// Whether there is a transition from q on letter a that the header lacks.
#[tactic(auto, using(relations::proofs::Rows::some_same), unfolding(automaton::specs::Automata::stray_transition))]
fn stray_on(automaton: &Automaton, q: usize, a: usize) -> bool
    requires { (q < 32) × (a < 16) }
    ensures { result ≡ some (stray_transition automaton.now q a) 32 0 }
{
    relations::meets(relations::row(automaton, q, a), barred(automaton, q, a))
}

// Whether there is a transition from q that the header lacks. Every letter is tested: with an `any`, which ends early, the range test of 32 states takes
// 2,800 instructions more than the 1,600 that it takes so.
#[tactic(auto, using(relations::proofs::Rows::some_none, relations::proofs::Rows::some_more))]
fn stray_from(automaton: &Automaton, q: usize) -> bool
    requires { q < 32 }
    ensures { result ≡ some (λ a. some (stray_transition automaton.now q a) 32 0) 16 0 }
{
    let mut found = false;
    for a in 0..MAX_LETTERS {
        found |= stray_on(automaton, q, a);
    }
    found
}

// Whether there is a transition that the header lacks.
fn stray_transition(automaton: &Automaton) -> bool
    ensures { result ≡ some (λ q. some (λ a. some (stray_transition automaton.now q a) 32 0) 16 0) 32 0 }
{
    (0..MAX_STATES).any(|q| stray_from(automaton, q))
}

// Whether there is a state or a transition that the header lacks.
#[tactic(auto, unfolding(automaton::specs::Automata::stray))]
pub fn stray(automaton: &Automaton) -> bool
    ensures { result ≡ stray automaton.now }
{
    stray_state(automaton) || stray_transition(automaton)
}
