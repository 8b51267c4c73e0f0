// The theory of the contain call (docs/reference.md, "Contain"): its checks, answers, table and demands. There is no code here but the types of
// the answers, and refusals' numbers; the crate `contain` has it.
#![tactic(auto)]

ghost use Rattle.std.specs.Prelude.{◌≡◌};
ghost use Rattle.answers.specs.Outcomes.{walk_refusal_number, contain_row};

use format::{FileRefusal, Numbered};

// What the walk of two automata finds: no final vertex among so many, or one at a place, whose word has so many letters.
#[derive(Clone, Copy, Debug, PartialEq, Eq)]
pub enum Containment {
    Contained(usize),
    Differs { place: usize, len: usize },
}

// Why a walk gives no answer: it does not fit so many slots (refusal 10), or its word, so long, does not fit the word buffer (refusal 11).
#[derive(Clone, Copy, Debug, PartialEq, Eq)]
pub enum WalkRefusal {
    NoSlots(usize),
    NoRoom(usize),
}

impl Numbered for WalkRefusal {
    ghost number = { walk_refusal_number };

    fn number(self) -> usize {
        match self {
            WalkRefusal::NoSlots(_) => 10,
            WalkRefusal::NoRoom(_) => 11,
        }
    }
}

// Why contain gives no answer: the first file or the second is not read (1 to 5), the bound is above the largest (8), the letter counts differ (7), one of
// the two automata has a dead state (6), or the walk gives none (10 or 11).
#[derive(Clone, Copy, Debug, PartialEq, Eq)]
pub enum ContainRefusal {
    First(FileRefusal),
    Second(FileRefusal),
    Bound,
    Letters,
    FirstDead,
    SecondDead,
    Walk(WalkRefusal),
}

// A row of contain's table of refusals with any numbers: a refusal's number and the file, 1 or 2, and 0 where none is meant; or a walk's refusal.
#[derive(Clone, Copy, Debug, PartialEq, Eq)]
pub enum ContainRow {
    Refused { number: usize, file: usize },
    Walk(WalkRefusal),
}

// What refuses a contain call: the table has a row for it.
pub trait RefusesContain: Copy {
    ghost use Rattle.answers.specs.declared.ContainRow.{ContainRow};

    ghost table_row: { Self → ContainRow };

    fn table_row(self) -> ContainRow
        ensures { result ≡ table_row self };
}

impl RefusesContain for ContainRefusal {
    ghost table_row = { contain_row };

    fn table_row(self) -> ContainRow {
        let (number, file) = match self {
            ContainRefusal::First(refusal) => (refusal.number(), 1),
            ContainRefusal::Second(refusal) => (refusal.number(), 2),
            ContainRefusal::Bound => (8, 0),
            ContainRefusal::Letters => (7, 0),
            ContainRefusal::FirstDead => (6, 1),
            ContainRefusal::SecondDead => (6, 2),
            ContainRefusal::Walk(refusal) => return ContainRow::Walk(refusal),
        };
        ContainRow::Refused { number, file }
    }
}

// A row stands for itself, so that what takes a refusal takes every number that can stand in the table.
impl RefusesContain for ContainRow {
    ghost table_row = { λ r. r };

    fn table_row(self) -> ContainRow {
        self
    }
}
