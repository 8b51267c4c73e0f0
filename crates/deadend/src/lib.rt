// The dead-end test, with sets of states as words: what each state's transitions lead to, what paths of them lead to, the accepting
// states that lie on a loop, and the reachable states that have no path to one.
#![tactic(auto)]

ghost use Rattle.std.specs.Prelude.{◌≡◌, false, ◌&&◌, not, ℕ, ◌<◌, ◌≤◌, ltb, get_or};
ghost use Rattle.automaton.specs.Ranges.{some};
ghost use Rattle.automaton.specs.Sets.{bit};
ghost use Rattle.automaton.specs.Automata.{transition_bit};
ghost use Rattle.relations.specs.Closure.{row_has};
ghost use Rattle.deadstates.specs.DeadEnds.{dead_states, has_dead};

use automaton::{Automaton, MAX_STATES, Valid};
use std::array;

// The targets of q on any letter.
#[tactic(auto, using(automaton::proofs::Bits::bit_zero, automaton::proofs::Bits::bit_of_or, relations::proofs::Rows::some_none, relations::proofs::Rows::some_more))]
fn edges(automaton: &Automaton, q: usize) -> u32
    requires { (automaton.now.letters ≤ 16) × (q < 32) }
    ensures { (r : ℕ) → r < 32 → bit result r ≡ some (λ a. transition_bit automaton.now q a r) automaton.now.letters 0 }
{
    let mut found: u32 = 0;
    for a in 0..automaton.letters {
        found |= relations::row(automaton, q, a);
    }
    found
}

// Row q has the targets of q on any letter.
fn edge_rows(automaton: &Automaton) -> [u32; MAX_STATES]
    requires { (automaton.now.states ≤ 32) × (automaton.now.letters ≤ 16) }
    ensures { (q r : ℕ) → q < automaton.now.states → r < 32
        → row_has result q r ≡ some (λ a. transition_bit automaton.now q a r) automaton.now.letters 0 }
{
    let mut rows = [0; MAX_STATES];
    for q in 0..automaton.states {
        rows[q] = edges(automaton, q);
    }
    rows
}

// The states below n for which the test holds.
fn states_where<F: Fn(usize) -> bool>(n: usize, test: F) -> u32
    requires few { n ≤ 32 }
    requires callable { (q : ℕ) → q < n → F.pre test q }
    ensures tested { (q : ℕ) → q < n → F.post test q (bit result q) }
    ensures others { (q : ℕ) → n ≤ q → bit result q ≡ false }
{
    let mut found = 0;
    for q in 0..n {
        found = relations::with_state_where(found, q, test(q));
    }
    found
}

// The accepting states below n that lie on a loop: row q has what paths from q lead to.
fn on_loops(rows: &[u32; MAX_STATES], n: usize, accepting: u32) -> u32
    requires { n ≤ 32 }
    ensures { (q : ℕ) → bit result q ≡ (ltb q n && (bit accepting q && row_has rows.now q q)) }
{
    states_where(n, |q| {
        relations::has(accepting, q) && relations::has(rows[q], q)
    })
}

// The states below n that are reached and reach none of the accepting states on loops: row q has what q reaches.
fn dead_among(rows: &[u32; MAX_STATES], n: usize, reached: u32, loops: u32) -> u32
    requires { n ≤ 32 }
    ensures { (q : ℕ) → bit result q
        ≡ (ltb q n && (bit reached q && not (some (λ r. row_has rows.now q r && bit loops r) 32 0))) }
{
    states_where(n, |q| {
        relations::has(reached, q) && !relations::meets(rows[q], loops)
    })
}

// The set of dead states.
pub fn dead_set(valid: Valid) -> u32
    ensures { (q : ℕ) → q < 32 → bit result q ≡ get_or (dead_states valid.entry.automaton.now) q false }
{
    let automaton = valid.automaton;
    let n = automaton.states;
    let mut rows = edge_rows(automaton);
    relations::close(&mut rows, n);
    let loops = on_loops(&rows, n, relations::of_bytes(&automaton.accepting));
    relations::add_diagonal(&mut rows, n);
    dead_among(&rows, n, rows[automaton.initial], loops)
}

// Whether there is a dead state.
#[tactic(auto, using(crate::proofs::WordDeadEnds::dead_any))]
pub fn has_dead(valid: Valid) -> bool
    ensures { result ≡ has_dead valid.entry.automaton.now }
{
    relations::has_state(dead_set(valid))
}

// For each of the 32 states whether it is dead.
pub fn dead_states(valid: Valid) -> [bool; MAX_STATES]
    ensures { result ≡ dead_states valid.entry.automaton.now }
{
    let dead = dead_set(valid);
    array::from_fn(|q| relations::has(dead, q))
}
