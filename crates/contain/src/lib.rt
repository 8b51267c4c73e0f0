// The contain call: whether a first automaton is contained in a second at a bound. The crate `answers` says what it answers and leaves.
#![tactic(auto)]

ghost use Rattle.std.specs.Prelude.{◌≡◌};
ghost use Rattle.answers.specs.Outcomes.{comparison_of, outcome_for};
ghost use Rattle.answers.specs.Contain.{differing, comparing, deciding, containing};
ghost use Rattle.answers.specs.Demand1.{Demand1};
ghost use Rattle.answers.specs.Demand2.{Demand2};

use answers::{ContainRefusal, Containment, WalkRefusal};
use automaton::{Automaton, Valid};
use discovery::Stop;
use graph::Bound;

// What a final vertex at a place with a word of len letters comes to, where there is room for so many.
fn differing(place: usize, len: usize, room: usize) -> Result<Containment, WalkRefusal>
    ensures { comparison_of result ≡ differing room place len }
{
    if len <= room {
        Ok(Containment::Differs { place, len })
    } else {
        Err(WalkRefusal::NoRoom(len))
    }
}

// The walk of two automata from the start of the work buffer, and its word in front in the word buffer where there is one and it has room.
#[tactic(auto, unfolding(answers::specs::Contain::comparing))]
pub fn compare(
    left: Valid,
    right: Valid,
    bound: Bound,
    work: &mut [u8],
    word: &mut [u8],
) -> Result<Containment, WalkRefusal>
    ensures answer { comparison_of result
        ≡ (comparing left.entry.automaton.now right.entry.automaton.now bound.value work.old word.old).answer }
    ensures work { work.new
        ≡ (comparing left.entry.automaton.now right.entry.automaton.now bound.value work.old word.old).work }
    ensures word { word.new
        ≡ (comparing left.entry.automaton.now right.entry.automaton.now bound.value work.old word.old).word }
{
    match walk::walk(left, right, bound, work) {
        Ok(count) => Ok(Containment::Contained(count)),
        Err(
            Stop::Final {
                place,
                letter,
                parent,
            },
        ) => {
            let len = walk::final_word(work, place, letter, parent, word);
            differing(place, len, word.len())
        }
        Err(Stop::Full(slots)) => Err(WalkRefusal::NoSlots(slots)),
    }
}

// The checks of two automata in order, bound, letter counts and dead states, and then their walk.
#[tactic(auto, unfolding(answers::specs::Contain::deciding))]
fn decide(
    left: Valid,
    right: Valid,
    bound: u64,
    work: &mut [u8],
    word: &mut [u8],
) -> Result<Containment, ContainRefusal>
    ensures outcome { outcome_for result
        ≡ (deciding left.entry.automaton.now right.entry.automaton.now bound work.old word.old).outcome }
    ensures work { work.new
        ≡ (deciding left.entry.automaton.now right.entry.automaton.now bound work.old word.old).work }
    ensures word { word.new
        ≡ (deciding left.entry.automaton.now right.entry.automaton.now bound work.old word.old).word }
{
    let bound = Bound::new(bound).ok_or(ContainRefusal::Bound)?;
    if left.automaton.letters != right.automaton.letters {
        return Err(ContainRefusal::Letters);
    }
    if deadend::has_dead(left) {
        return Err(ContainRefusal::FirstDead);
    }
    if deadend::has_dead(right) {
        return Err(ContainRefusal::SecondDead);
    }
    compare(left, right, bound, work, word).map_err(ContainRefusal::Walk)
}

// Whether the first file's automaton is contained in the second's at the bound: the outcome, every byte of work and word, and
// demands 1 and 2 in their own words.
#[tactic(auto, unfolding(answers::specs::Contain::containing, automaton::specs::Automata::bare))]
pub fn contain(
    first: &[u8],
    second: &[u8],
    bound: u64,
    work: &mut [u8],
    word: &mut [u8],
) -> Result<Containment, ContainRefusal>
    ensures outcome { outcome_for result
        ≡ (containing first.now second.now bound work.old word.old).outcome }
    ensures work { work.new ≡ (containing first.now second.now bound work.old word.old).work }
    ensures word { word.new ≡ (containing first.now second.now bound work.old word.old).word }
    ensures demand1 { Demand1 first.now second.now bound work.old word.old }
    ensures demand2 { Demand2 first.now second.now bound work.old word.old }
{
    let mut left = Automaton::empty();
    file::read(first, &mut left).map_err(ContainRefusal::First)?;
    let mut right = Automaton::empty();
    file::read(second, &mut right).map_err(ContainRefusal::Second)?;
    decide(
        Valid { automaton: &left },
        Valid { automaton: &right },
        bound,
        work,
        word,
    )
}
