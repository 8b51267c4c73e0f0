// The pairs of a loop word, letter by letter from its end. A pair has the ends of runs in its low half and those of visits in its high half.
ghost use Rattle.std.specs.Prelude.{◌≡◌, ◌&&◌, ◌||◌, List, [], ◌∷◌, ℕ, ◌+◌, ◌<◌, eqb};
ghost use Rattle.automaton.specs.Automata.{transition};
ghost use Rattle.automaton.specs.Ranges.{some};
ghost use Rattle.automaton.specs.Sets.{bit};
ghost use Rattle.relations.specs.Closure.{row_has};
ghost use Rattle.unions.specs.Unions.{Unions, groups_for};
ghost use Rattle.verdict.specs.Words.{Met, PairsOf};

use crate::halves::HALF;
use automaton::{Automaton, MAX_STATES, Valid};
use std::array;

// The pair of t for runs that begin one step before t: where t accepts, each of them is a visit.
#[tactic(auto, using(crate::proofs::HalfWords::raised_low, crate::proofs::HalfWords::raised_high))]
fn met(pair: u64, accepting: u32, t: usize) -> u64
    requires { t < 32 }
    ensures runs { (q : ℕ) → q < 32 → bit result q ≡ bit pair q }
    ensures visits { (q : ℕ) → q < 32 → bit result (32 + q) ≡ (bit pair (32 + q) || (bit accepting t && bit pair q)) }
{
    if relations::has(accepting, t) {
        pair | (pair % HALF) * HALF
    } else {
        pair
    }
}

// The same of the states' pairs.
fn met_pairs(valid: Valid, pairs: &[u64; MAX_STATES], after: &mut [u64; MAX_STATES])
    ensures { Met valid.entry.automaton.now pairs.now after.new }
{
    let accepting = relations::of_bytes(&valid.automaton.accepting);
    for t in 0..valid.automaton.states {
        after[t] = met(pairs[t], accepting, t);
    }
}

// The pair of each state becomes the union of the values of its targets on letter a; the table has the unions of their choices.
fn join_pairs(valid: Valid, a: usize, table: &[u64; unions::ENTRIES], pairs: &mut [u64; MAX_STATES])
    requires { a < valid.automaton.now.letters }
    ensures { let A = valid.entry.automaton.now in (values : List ℕ) → Unions table.now values (groups_for A.states)
        → (p x : ℕ) → p < A.states → row_has pairs.new p x ≡ some (λ t. transition A p a t && row_has values t x) A.states 0 }
{
    let n = valid.automaton.states;
    for p in 0..n {
        pairs[p] = unions::union(table, n, relations::row(valid.automaton, p, a) as u64);
    }
}

// The states' pairs for a word with the letter in front. `after` and `table` are room to work in, which no heap gives: lent, it is made once
// for all letters.
fn prepend_letter(
    valid: Valid,
    letter: u8,
    after: &mut [u64; MAX_STATES],
    table: &mut [u64; unions::ENTRIES],
    pairs: &mut [u64; MAX_STATES],
)
    ensures { let A = valid.entry.automaton.now in (v : List ℕ) → PairsOf A v pairs.old → PairsOf A (letter ∷ v) pairs.new }
{
    let a = letter as usize;
    met_pairs(valid, pairs, after);
    if a < valid.automaton.letters {
        unions::fill(table, after, unions::groups_for(valid.automaton.states));
        join_pairs(valid, a, table, pairs);
    } else {
        *pairs = [0; MAX_STATES];
    }
}

// The states' pairs for the empty word: each state leads to itself, without a visit.
fn of_empty() -> [u64; MAX_STATES]
    ensures { (p q : ℕ) → p < 32 → row_has result p q ≡ eqb p q }
{
    array::from_fn(|p| 1 << p)
}

// The states' pairs for the word.
pub fn of_word(valid: Valid, word: &[u8]) -> [u64; MAX_STATES]
    ensures { PairsOf valid.entry.automaton.now word.now result }
{
    let mut after = [0; MAX_STATES];
    let mut table = [0; unions::ENTRIES];
    let mut pairs = of_empty();
    for letter in word.iter().rev() {
        prepend_letter(valid, *letter, &mut after, &mut table, &mut pairs);
    }
    pairs
}
