// The open call on an entry.
ghost use Rattle.std.specs.Prelude.{◌≡◌};
ghost use Rattle.history.specs.OpenAnswers.{open_answer_of};
ghost use Rattle.history.specs.OpenDemand.{OpenDemand1};
ghost use Rattle.history.specs.Opens.{open_of};

use automaton::{Automaton, Valid};
use conditions::malformed;
use history::{Entry, OpenRefusal};

// Opens an empty entry with the file's automaton: the answer, the entry, which a refusal leaves as it is, and demand 1 in its own words.
#[tactic(auto, unfolding(history::specs::Opens::open_of, history::specs::Opens::open_checks, automaton::specs::Automata::bare))]
pub fn open_entry(entry: &mut Entry, file: &[u8]) -> Result<(), OpenRefusal>
    ensures answer { open_answer_of result ≡ (open_of entry.old file.now).answer }
    ensures entry { entry.new ≡ (open_of entry.old file.now).entry }
    ensures demand1 { OpenDemand1 entry.old file.now }
{
    if malformed(entry) {
        return Err(OpenRefusal::Malformed);
    }
    if entry.filled {
        return Err(OpenRefusal::Filled);
    }
    let mut held = Automaton::empty();
    file::read(file, &mut held).map_err(OpenRefusal::File)?;
    if deadend::has_dead(Valid { automaton: &held }) {
        return Err(OpenRefusal::Dead);
    }
    *entry = Entry {
        filled: true,
        edition: 0,
        first: held.states,
        held,
    };
    Ok(())
}
