// Condition 9 of an entry, condition 15 of a lasso word, and whether an offer is smaller (docs/reference.md, "Verdict" and "Entry, open, offer").
#![tactic(auto)]

ghost use Rattle.std.specs.Prelude.{◌≡◌, ◌&&◌, leb};
ghost use Rattle.automaton.specs.Automata.{max_states};
ghost use Rattle.history.specs.Entries.{max_edition, malformed, smaller};
ghost use Rattle.std.specs.List.{list_any};
ghost use Rattle.history.specs.Verdicts.{bad_lasso};

use automaton::{MAX_STATES, Valid};
use history::Entry;

// The last edition number that an entry can have.
pub const MAX_EDITION: usize = 183071;

// The most letters of a stem and of a loop.
pub const MAX_LENGTH: usize = 4096;

// Whether the numbers beside the held automaton are those of an entry.
fn in_bounds(entry: &Entry) -> bool
    ensures { let E = entry.now in
        result ≡ (leb 1 E.first && leb E.first max_states && leb E.held.states E.first && leb E.edition max_edition) }
{
    let first = entry.first;
    (1 <= first)
        & (first <= MAX_STATES)
        & (entry.held.states <= first)
        & (entry.edition <= MAX_EDITION)
}

// Whether the entry is malformed; of an empty one no other field is examined.
#[tactic(auto, using(history::proofs::EntryChecks::empty_not_malformed, history::proofs::EntryChecks::strays_malformed, history::proofs::EntryChecks::tested_in_range))]
pub fn malformed(entry: &Entry) -> bool
    ensures { result ≡ malformed entry.now }
{
    if !entry.filled {
        return false;
    }
    if !range_test::in_range(&entry.held) {
        return true;
    }
    let dead = deadend::has_dead(Valid {
        automaton: &entry.held,
    });
    let outside = !in_bounds(entry);
    dead | outside
}

// Whether the offer has fewer states than the held automaton, or as many and fewer transitions.
#[tactic(auto, unfolding(history::specs::Entries::smaller))]
pub fn smaller(offer: Valid, held: Valid) -> bool
    ensures { result ≡ smaller offer.entry.automaton.now held.entry.automaton.now }
{
    let (offer, held) = (offer.automaton, held.automaton);
    offer.states < held.states
        || (offer.states == held.states
            && range_test::transition_count(offer) < range_test::transition_count(held))
}

// Whether some letter of the word is not one of the first `letters`.
fn outside(letters: usize, word: &[u8]) -> bool
    ensures { result ≡ list_any (λ a. leb letters a) word.now }
{
    word.iter().any(|letter| letters <= *letter as usize)
}

// Whether the stem is too long, the loop `cycle` empty or too long, or a letter not one of the first `letters`.
#[tactic(auto, using(crate::proofs::Letters::outside_any), unfolding(history::specs::Verdicts::bad_lasso))]
pub fn bad_lasso(letters: usize, stem: &[u8], cycle: &[u8]) -> bool
    ensures { result ≡ bad_lasso letters stem.now cycle.now }
{
    if (stem.len() > MAX_LENGTH) | cycle.is_empty() | (cycle.len() > MAX_LENGTH) {
        return true;
    }
    outside(letters, stem) || outside(letters, cycle)
}
