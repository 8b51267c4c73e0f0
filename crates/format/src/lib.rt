// The theory of files (docs/reference.md, "The file"): the layout of records, what a file holds, and the faults for which it is refused. There is no
// code here but the types of a record and of a refusal, and refusals' numbers; the crates `records` and `file` have the rest.
#![tactic(auto)]

ghost use Rattle.std.specs.Prelude.{◌≡◌, ℕ};
ghost use Rattle.format.specs.Numbers.{file_number};

// Why a file is refused: refusals 1 to 5, in this order.
#[derive(Clone, Copy, Debug, PartialEq, Eq)]
pub enum FileRefusal {
    CutShort = 1,
    UnknownMark,
    HeaderValues,
    OutsideHeader,
    Repeated,
}

// What the table of refusals gives a number.
pub trait Numbered {
    ghost number: { Self → ℕ };

    fn number(self) -> usize
        ensures { result ≡ number self };
}

impl Numbered for FileRefusal {
    ghost number = { file_number };

    fn number(self) -> usize {
        self as usize
    }
}

// A number stands for itself, so that what takes a refusal takes its number too.
impl Numbered for usize {
    ghost number = { λ n. n };

    fn number(self) -> usize {
        self
    }
}

// A record past the header, with the position after it where one follows.
#[derive(Clone, Copy, Debug, PartialEq, Eq)]
pub enum Record {
    Accepting {
        state: usize,
        next: usize,
    },
    Transition {
        from: usize,
        letter: usize,
        to: usize,
        next: usize,
    },
    End,
}
