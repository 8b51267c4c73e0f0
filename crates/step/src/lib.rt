// One step of the lag-checking graph's counters: from the counters of a vertex and a letter to the counters of all right states
// afterwards, and the initial vertex that the first step starts from.
#![tactic(auto)]

ghost use Rattle.std.specs.Prelude.{◌≡◌, cond, ◌&&◌, not, ◌+◌, ◌<◌, ◌≤◌, max, min, ltb, length, get_or};
ghost use Rattle.automaton.specs.Automata.{max_states};
ghost use Rattle.automaton.specs.Ranges.{table};
ghost use Rattle.step.specs.Masks.{row_place};
ghost use Rattle.step.specs.Steps.{PresentOf, all_largest, tops_of, counter_at, stepped_counters, initial_from};

pub mod masks;
pub mod present;

use automaton::{Automaton, MAX_STATES, is_member};
use graph::Bound;
use present::Present;
use slots::Vertex;

// Raises the targets of a right state to its counter; their masks stand from place `at` on. The smaller of a counter and a mask is the counter
// where the mask is 255, and 0 where it is 0.
#[tactic(auto, using(crate::proofs::SteppedBytes::written_all))]
fn raised(masks: &[u8], at: usize, counter: u8, largest: [u8; 32]) -> [u8; 32]
    requires { at + max_states ≤ length masks.now }
    ensures { result ≡ table (λ r. max (get_or largest r 0) (min counter (get_or masks.now (at + r) 0))) max_states 0 }
{
    let mut after = largest;
    for r in 0..MAX_STATES {
        after[r] = after[r].max(counter.min(masks[at + r]));
    }
    after
}

// For each right state the largest counter of its predecessors on a letter. Only the states that are listed have one above 0.
#[tactic(auto, using(crate::proofs::PresentStates::raising))]
pub fn largest_into(
    masks: &[u8],
    states: usize,
    letter: usize,
    present: &Present,
    counters: &[u8; 32],
) -> [u8; 32]
    requires { (states ≤ max_states) × (row_place states letter states ≤ length masks.now)
        × PresentOf present.now.count present.now.places counters.now states }
    ensures { result ≡ all_largest masks.now states letter counters.now }
{
    let mut largest = [0u8; 32];
    for place in present.listed() {
        let p = *place as usize;
        let higher = raised(
            masks,
            (letter * states + p) * MAX_STATES,
            counters[p],
            largest,
        );
        largest = higher;
    }
    largest
}

// For each right state the counter that it is raised to: `top` where it accepts, and 0 where it does not. Bytes and no Options, so that a step goes over all 32
// at once.
#[tactic(auto, unfolding(crate::specs::Steps::tops_of), using(crate::proofs::SteppedBytes::written_all))]
pub fn tops_of(automaton: &Automaton, top: u8) -> [u8; 32]
    ensures { result ≡ tops_of automaton.now.accepting top }
{
    let mut tops = [0u8; 32];
    for r in 0..MAX_STATES {
        let accepts = is_member(&automaton.accepting, r);
        tops[r] = if accepts { top } else { 0 };
    }
    tops
}

// The counter of a right state that accepts, after a step: `top`, or 0 where its predecessors have no counter above 0.
fn raised_to(top: u8, largest: u8) -> u8
    ensures { result ≡ cond (ltb 0 largest) top 0 }
{
    if largest == 0 { 0 } else { top }
}

// The counter of a right state after a step, from the largest of its predecessors' counters. It accepts if its `top` is above 0.
fn counter_at(top: u8, visits: u8, largest: u8) -> u8
    ensures { result ≡ counter_at top visits largest }
{
    let plain = largest.saturating_sub(visits);
    let raised = raised_to(top, largest);
    if top == 0 { plain } else { raised }
}

// The counters of all right states after a step to a left target. `visits` is by how much those that are not raised fall: 1 where the target
// accepts, and 0 where it does not: a bool would bar the other numbers, of which the promise is as good.
#[tactic(auto, unfolding(crate::specs::Steps::stepped_counters), using(crate::proofs::SteppedBytes::written_all))]
pub fn counters_after(tops: &[u8; 32], visits: u8, largest: [u8; 32]) -> [u8; 32]
    ensures { result ≡ stepped_counters tops.now visits largest }
{
    let mut after = [0u8; 32];
    for r in 0..MAX_STATES {
        after[r] = counter_at(tops[r], visits, largest[r]);
    }
    after
}

// The counter of the right initial state in the initial vertex.
fn first_counter(left_accepts: bool, right_accepts: bool, bound: Bound) -> u8
    ensures { result ≡ cond (left_accepts && not right_accepts) bound.value (bound.value + 1) }
{
    if left_accepts && !right_accepts {
        bound.value as u8
    } else {
        (bound.value + 1) as u8
    }
}

// The initial vertex of two automata.
#[tactic(auto, using(crate::proofs::Steps::initial_made))]
pub fn initial_vertex(left: &Automaton, right: &Automaton, bound: Bound) -> Vertex
    requires { (left.now.initial < max_states) × (right.now.initial < max_states) }
    ensures { result ≡ initial_from left.now.initial left.now.accepting right.now.initial right.now.accepting bound.value }
{
    let left_accepts = is_member(&left.accepting, left.initial);
    let right_accepts = is_member(&right.accepting, right.initial);
    let mut counters = [0u8; 32];
    counters[right.initial] = first_counter(left_accepts, right_accepts, bound);
    Vertex {
        left: left.initial as u8,
        counters,
    }
}
