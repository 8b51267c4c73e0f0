// The states that a stem leads to, by tables of unions: one for each letter, of what the letter leads to from each choice of states.
ghost use Rattle.std.specs.Prelude.{◌≡◌, ◌&&◌, List, [], ℕ, ◌<◌, get_or};
ghost use Rattle.automaton.specs.Automata.{transition, transition_bit};
ghost use Rattle.automaton.specs.Ranges.{some};
ghost use Rattle.automaton.specs.Sets.{bit};
ghost use Rattle.lassos.specs.Verdict.{only, on_letter, on_word};
ghost use Rattle.relations.specs.Closure.{row_has};
ghost use Rattle.unions.specs.Unions.{named, groups_for};
ghost use Rattle.verdict.specs.Words.{set_of, HeldUnions};

use crate::halves::low;
use automaton::{Automaton, MAX_LETTERS, MAX_STATES, Valid};

// An automaton in range, with the unions of the targets on each of its letters.
#[derive(Clone, Copy)]
struct Unions<'a> {
    valid: Valid<'a>,
    tables: &'a [[u64; unions::ENTRIES]; MAX_LETTERS],
    ghost held: { HeldUnions valid.automaton.now tables.now },
}

impl Unions<'_> {
    // The states that a transition on the letter reaches from a state of the set.
    #[tactic(auto, using(crate::proofs::WordSets::letter_none))]
    fn on_letter(self, set: u64, letter: u8) -> u64
        ensures { let A = self.entry.valid.automaton.now in set_of A.states result ≡ on_letter A (set_of A.states set) letter }
    {
        let a = letter as usize;
        if a < self.valid.automaton.letters {
            unions::union(&self.tables[a], self.valid.automaton.states, set)
        } else {
            0
        }
    }

    // The states that a run on the word reaches from a state of the set.
    #[tactic(auto, using(crate::proofs::WordSets::on_word_step, crate::proofs::WordSets::on_word_end))]
    fn on_word(self, set: u64, word: &[u8]) -> u64
        ensures { let A = self.entry.valid.automaton.now in set_of A.states result ≡ on_word A (set_of A.states set) word.now }
    {
        let mut reached = set;
        for letter in word {
            reached = self.on_letter(reached, *letter);
        }
        reached
    }
}

// The targets of each state on letter a.
fn letter_targets(automaton: &Automaton, a: usize) -> [u64; MAX_STATES]
    requires { a < 16 }
    ensures { (p q : ℕ) → p < 32 → q < 32 → row_has result p q ≡ transition_bit automaton.now p a q }
{
    let mut targets = [0; MAX_STATES];
    for p in 0..MAX_STATES {
        targets[p] = relations::row(automaton, p, a) as u64;
    }
    targets
}

// For each letter the unions of the choices of its states' targets.
fn letter_unions(valid: Valid, tables: &mut [[u64; unions::ENTRIES]; MAX_LETTERS])
    ensures { HeldUnions valid.entry.automaton.now tables.new }
{
    let automaton = valid.automaton;
    let groups = unions::groups_for(automaton.states);
    for a in 0..automaton.letters {
        unions::fill(&mut tables[a], &letter_targets(automaton, a), groups);
    }
}

// The states that a run on the stem reaches from the initial state.
pub fn ends(valid: Valid, stem: &[u8]) -> u32
    ensures { let A = valid.entry.automaton.now in set_of A.states result ≡ on_word A (only A A.initial) stem.now }
{
    let mut tables = [[0; unions::ENTRIES]; MAX_LETTERS];
    letter_unions(valid, &mut tables);
    let unions = Unions {
        valid,
        tables: &tables,
    };
    low(unions.on_word(1 << valid.automaton.initial, stem))
}
