// The verdict on a lasso word, with sets of states as words: the states that the stem leads to, for each state what the loop leads to
// and what it leads to by way of an accepting state, and what copies of the loop join.
#![tactic(auto)]

ghost use Rattle.std.specs.Prelude.{◌≡◌, ℕ, ◌≤◌};
ghost use Rattle.lassos.specs.Verdict.{accepted};
ghost use Rattle.verdict.specs.Words.{returns_from};

use automaton::{MAX_STATES, Valid};

mod halves;
mod pairs;
mod stem;

// Whether the runs lead from a state of `ends` to one that comes back to itself by way of a visit.
fn some_returns(runs: &[u32; MAX_STATES], visits: &[u32; MAX_STATES], n: usize, ends: u32) -> bool
    requires { n ≤ 32 }
    ensures { result ≡ returns_from n runs.now visits.now ends }
{
    let reached = relations::spread(runs, ends, n);
    (0..n).any(|r| {
        relations::has(reached, r) && relations::has(relations::spread(runs, visits[r], n), r)
    })
}

// Whether the automaton accepts the lasso word of the stem and the loop `cycle`; of an empty loop the answer is no.
pub fn accepted(valid: Valid, stem: &[u8], cycle: &[u8]) -> bool
    ensures { result ≡ accepted valid.entry.automaton.now stem.now cycle.now }
{
    let n = valid.automaton.states;
    let ends = stem::ends(valid, stem);
    let pairs = pairs::of_word(valid, cycle);
    let mut runs = pairs.map(halves::low);
    relations::close(&mut runs, n);
    relations::add_diagonal(&mut runs, n);
    some_returns(&runs, &pairs.map(halves::high), n, ends)
}
