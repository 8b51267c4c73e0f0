// Steps that are kept: vertices with the same counters share their steps, so the classes after a step are kept for each letter and for the left
// targets that accept and those that do not. There are 16 lines of 32 places; a class has the line of its number modulo 16.
#![tactic(auto)]

ghost use Rattle.std.specs.Prelude.{◌≡◌, ◌*◌, ◌%◌, ◌<◌, replicate, set};
ghost use Rattle.kept.specs.Kept.{lines, line_length, kept_after};

// The lines.
pub const LINES: usize = 16;

// The places of a line: two for each letter.
pub const LINE_LENGTH: usize = 32;

// The places of all lines.
pub const PLACES: usize = LINES * LINE_LENGTH;

// The class that has each line, 0 where none has it, and the places of the lines one after the other: two arrays, since a step is lent places alone. Classes are
// numbers of 16 bits and no Options, which would take twice the fixed memory.
#[derive(Drop)]
pub struct Kept {
    pub owners: [u16; LINES],
    pub lines: [u16; PLACES],
}

impl Kept {
    // No line has a class, and nothing is kept.
    pub fn new() -> Kept
        ensures owners { result.owners ≡ replicate lines 0 }
        ensures kept { result.lines ≡ replicate (lines * line_length) 0 }
    {
        Kept {
            owners: [0; LINES],
            lines: [0; PLACES],
        }
    }

    // The place from which on the line of a class stands. A line that another class had is cleared first. A number, since a line that is lent needs
    // a clause more for what is written through it, and is no plainer.
    #[tactic(auto, using(crate::proofs::KeptSteps::line_cleared))]
    pub fn line_of(&mut self, class: usize) -> usize
        requires { class < 65536 }
        ensures place { result ≡ class % lines * line_length }
        ensures owners { self.new.owners ≡ set self.old.owners (class % lines) class }
        ensures kept { self.new.lines ≡ kept_after self.old.owners self.old.lines class }
    {
        let line = class % LINES;
        let at = line * LINE_LENGTH;
        if self.owners[line] as usize != class {
            self.owners[line] = class as u16;
            self.lines[at..at + LINE_LENGTH].fill(0);
        }
        at
    }
}
