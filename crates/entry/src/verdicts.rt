// The verdict call on an entry.
ghost use Rattle.std.specs.Prelude.{◌≡◌};
ghost use Rattle.history.specs.VerdictAnswers.{verdict_answer_of};
ghost use Rattle.history.specs.VerdictDemand.{VerdictDemand1};
ghost use Rattle.history.specs.Verdicts.{verdict_of};

use automaton::Valid;
use conditions::{bad_lasso, malformed};
use history::{Entry, VerdictRefusal};

// Whether the entry's automaton accepts the lasso word of the stem and the loop `cycle`, and demand 1 in its own words.
#[tactic(auto, unfolding(history::specs::Verdicts::verdict_of))]
pub fn verdict(entry: &Entry, stem: &[u8], cycle: &[u8]) -> Result<bool, VerdictRefusal>
    ensures answer { verdict_answer_of result ≡ verdict_of entry.now stem.now cycle.now }
    ensures demand1 { VerdictDemand1 entry.now stem.now cycle.now }
{
    if malformed(entry) {
        return Err(VerdictRefusal::Malformed);
    }
    if !entry.filled {
        return Err(VerdictRefusal::Empty);
    }
    if bad_lasso(entry.held.letters, stem, cycle) {
        return Err(VerdictRefusal::BadLasso);
    }
    let held = Valid {
        automaton: &entry.held,
    };
    Ok(verdict::accepted(held, stem, cycle))
}
