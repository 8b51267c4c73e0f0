// The reader of automaton files: the header, and then one record after another up to the end record or the first fault.
#![tactic(auto)]

ghost use Rattle.std.specs.Prelude.{◌≡◌, OnOk, replicate};
ghost use Rattle.automaton.specs.Automata.{bare, InRange};
ghost use Rattle.format.specs.File.{read_file};
ghost use Rattle.file.specs.Taking.{Headed, started, automaton_read, read_of};

use automaton::Automaton;
use format::{FileRefusal, Record};
use records::Reader;
use taking::{take_accepting, take_transition};

mod first;
mod taking;

// A header's values.
#[derive(Clone, Copy, Default)]
pub struct Header {
    pub states: usize,
    pub letters: usize,
    pub initial: usize,
}

// Makes the automaton that of a header alone, but for its transitions, which stay.
pub fn start(automaton: &mut Automaton, header: Header)
    ensures { automaton.new ≡ started header automaton.old }
{
    automaton.states = header.states;
    automaton.letters = header.letters;
    automaton.initial = header.initial;
    automaton.accepting = [0; 4];
}

// Reads the records past the header: what `read` promises of the whole file.
fn read_records(file: &[u8], automaton: &mut Automaton) -> Result<(), FileRefusal>
    requires { Headed file.now automaton.old }
    ensures answer { read_of result automaton.new ≡ read_file file.now }
    ensures automaton { automaton.new ≡ automaton_read file.now }
{
    let mut reader = Reader::new(file, 5);
    loop {
        match reader.next_record()? {
            Record::Accepting { state, .. } => take_accepting(automaton, state)?,
            Record::Transition {
                from,
                letter,
                to,
                ..
            } => take_transition(automaton, from, letter, to)?,
            Record::End => return Ok(()),
        }
    }
}

// Reads a file into an automaton that is without transitions, so that its 2 KB are cleared once: refused with 1 to 5, or read. The automaton is then that
// of the header and of the records before the end or the first fault; without a header it has nothing.
pub fn read(file: &[u8], automaton: &mut Automaton) -> Result<(), FileRefusal>
    requires { automaton.old.transitions ≡ replicate 2048 0 }
    ensures answer { read_of result automaton.new ≡ read_file file.now }
    ensures automaton { automaton.new ≡ automaton_read file.now }
    ensures in_range { OnOk result (InRange automaton.new) }
{
    match first::read_header(file) {
        Ok(header) => {
            start(automaton, header);
            read_records(file, automaton)
        }
        Err(refusal) => {
            start(automaton, Header::default());
            Err(refusal)
        }
    }
}
