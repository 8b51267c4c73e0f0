// The theory of entries (docs/reference.md, "Verdict" and "Entry, open, offer"): entries, the calls on them, their tables, the account of a list of
// calls and demand 3. There is no code here but the types of entries and answers, and refusals' numbers; the crate `entry` has it.
#![tactic(auto)]

ghost use Rattle.std.specs.Prelude.{◌≡◌};
ghost use Rattle.history.specs.Entries.{fresh_entry};
ghost use Rattle.history.specs.OpenAnswers.{open_refusal_number};
ghost use Rattle.history.specs.OfferAnswers.{offer_refusal_number, row_number, offer_row};
ghost use Rattle.history.specs.VerdictAnswers.{verdict_refusal_number};

use answers::WalkRefusal;
use automaton::Automaton;
use format::{FileRefusal, Numbered};

// An entry: whether it holds an edition, that edition's number and automaton, and how many states the first edition had. A flag and no Option, since
// an empty entry keeps all its documented bytes.
#[derive(Clone, Copy)]
pub struct Entry {
    pub filled: bool,
    pub edition: usize,
    pub first: usize,
    pub held: Automaton,
}

impl Entry {
    // An empty entry.
    #[tactic(auto, unfolding(crate::specs::Entries::fresh_entry))]
    pub fn fresh() -> Entry
        ensures { result ≡ fresh_entry }
    {
        Entry {
            filled: false,
            edition: 0,
            first: 0,
            held: Automaton::empty(),
        }
    }
}

// Why open opens nothing: the entry is malformed (9), it holds an edition (12), the file is not read (1 to 5), or its automaton has a dead state (6).
#[derive(Clone, Copy, Debug, PartialEq, Eq)]
pub enum OpenRefusal {
    Malformed,
    Filled,
    File(FileRefusal),
    Dead,
}

impl Numbered for OpenRefusal {
    ghost number = { open_refusal_number };

    fn number(self) -> usize {
        match self {
            OpenRefusal::Malformed => 9,
            OpenRefusal::Filled => 12,
            OpenRefusal::File(refusal) => refusal.number(),
            OpenRefusal::Dead => 6,
        }
    }
}

// The walks of an offer, 1 and 2.
#[derive(Clone, Copy, Debug, PartialEq, Eq)]
pub enum Walk {
    Forward = 1,
    Back,
}

// What offer answers: taken with the forward and the back count; the forward walk differs, with its count and the word's length; the back walk differs, with
// both counts and the word's length.
#[derive(Clone, Copy, Debug, PartialEq, Eq)]
pub enum Offered {
    Taken {
        forward: usize,
        back: usize,
    },
    Forward {
        forward: usize,
        len: usize,
    },
    Back {
        forward: usize,
        back: usize,
        len: usize,
    },
}

// Why an offer gets no answer: the entry is malformed (9) or empty (13), the file is not read (1 to 5), the bound is above the largest (8), the letter counts
// differ (7), the offer has a dead state (6) or is not smaller (14), or a walk gives none (10 or 11).
#[derive(Clone, Copy, Debug, PartialEq, Eq)]
pub enum OfferRefusal {
    Malformed,
    Empty,
    File(FileRefusal),
    Bound,
    Letters,
    Dead,
    NotSmaller,
    Walk(Walk, WalkRefusal),
}

impl Numbered for OfferRefusal {
    ghost number = { offer_refusal_number };

    fn number(self) -> usize {
        match self {
            OfferRefusal::Malformed => 9,
            OfferRefusal::Empty => 13,
            OfferRefusal::File(refusal) => refusal.number(),
            OfferRefusal::Bound => 8,
            OfferRefusal::Letters => 7,
            OfferRefusal::Dead => 6,
            OfferRefusal::NotSmaller => 14,
            OfferRefusal::Walk(_, refusal) => refusal.number(),
        }
    }
}

// A row of offer's table of refusals with any numbers: a refusal's number; 10 with the walk, 1 forward or 2 back, and the slots; 11 with the walk and the
// length needed.
#[derive(Clone, Copy, Debug, PartialEq, Eq)]
pub enum OfferRow {
    Refused(usize),
    NoSlots { walk: usize, slots: usize },
    NoRoom { walk: usize, len: usize },
}

impl Numbered for OfferRow {
    ghost number = { row_number };

    fn number(self) -> usize {
        match self {
            OfferRow::Refused(number) => number,
            OfferRow::NoSlots { .. } => 10,
            OfferRow::NoRoom { .. } => 11,
        }
    }
}

// What refuses an offer: the table has a row for it.
pub trait RefusesOffer: Copy {
    ghost use Rattle.history.specs.declared.OfferRow.{OfferRow};

    ghost table_row: { Self → OfferRow };

    fn table_row(self) -> OfferRow
        ensures { result ≡ table_row self };
}

impl RefusesOffer for OfferRefusal {
    ghost table_row = { offer_row };

    fn table_row(self) -> OfferRow {
        match self {
            OfferRefusal::Walk(walk, WalkRefusal::NoSlots(slots)) => OfferRow::NoSlots {
                walk: walk as usize,
                slots,
            },
            OfferRefusal::Walk(walk, WalkRefusal::NoRoom(len)) => OfferRow::NoRoom {
                walk: walk as usize,
                len,
            },
            refusal => OfferRow::Refused(refusal.number()),
        }
    }
}

// A row stands for itself, so that what takes a refusal takes every number that can stand in the table.
impl RefusesOffer for OfferRow {
    ghost table_row = { λ r. r };

    fn table_row(self) -> OfferRow {
        self
    }
}

// Why there is no verdict: the entry is malformed (9) or empty (13), or the lasso word is not one of its letters (15).
#[derive(Clone, Copy, Debug, PartialEq, Eq)]
pub enum VerdictRefusal {
    Malformed = 9,
    Empty = 13,
    BadLasso = 15,
}

impl Numbered for VerdictRefusal {
    ghost number = { verdict_refusal_number };

    fn number(self) -> usize {
        self as usize
    }
}
