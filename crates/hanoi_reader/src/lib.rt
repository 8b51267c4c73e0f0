// The reader of Hanoi texts: the header, and then one state or edge after another up to the end or the first fault; and the call that writes the automaton of a
// text. The crate `hanoi` says what a text describes.
#![tactic(auto)]

ghost use Rattle.std.specs.Prelude.{◌≡◌, ◌≤◌, ◌^◌, replicate, OnOk};
ghost use Rattle.automaton.specs.Automata.{bare, InRange};
ghost use Rattle.fixed_form.specs.WriteAnswers.{write_answer_of};
ghost use Rattle.hanoi.specs.Numbers.{text_number};
ghost use Rattle.hanoi.specs.Hanoi.{hanoi_of};
ghost use Rattle.hanoi.specs.HanoiDemand.{HanoiDemand1};
ghost use Rattle.hanoi_reader.specs.Taking.{Headed, ReadTo};

use automaton::{Automaton, Valid};
use fixed_form::WriteRefusal;
use hanoi::TextRefusal;
use hanoi_header::Header;
use parts::Body;
use tokens::Scanner;

mod parts;

// Makes the automaton that of a header alone, whose letters are the sets of propositions; its transitions are none already.
fn start(automaton: &mut Automaton, header: Header)
    requires { (header.propositions ≤ 4) × (automaton.old.transitions ≡ replicate 2048 0) }
    ensures { automaton.new ≡ bare header.states (2 ^ header.propositions) header.start }
{
    let numbers = file::Header {
        states: header.states,
        letters: 1 << header.propositions,
        initial: header.start,
    };
    file::start(automaton, numbers);
}

// Reads the body behind a header: what `read` promises of the whole text.
fn read_body(
    scanner: &mut Scanner,
    header: Header,
    automaton: &mut Automaton,
) -> Result<(), TextRefusal>
    requires { Headed scanner.old header × (automaton.old ≡ bare header.states (2 ^ header.propositions) header.start) }
    ensures { ReadTo scanner.old.text.now result automaton.new }
{
    let mut body = Body::new(header.propositions, automaton);
    while body.take_part(scanner)? {}
    Ok(())
}

// Reads a text into an automaton that is without transitions, so that its 2 KB are cleared once: refused, or read. The automaton is then that of the header
// and of the states and edges before the end or the first fault; without a header it has no states.
fn read(text: &[u8], automaton: &mut Automaton) -> Result<(), TextRefusal>
    requires { automaton.old.transitions ≡ replicate 2048 0 }
    ensures answer { ReadTo text.now result automaton.new }
    ensures in_range { OnOk result (InRange automaton.new) }
{
    let mut scanner = Scanner::new(text);
    match hanoi_header::read_header(&mut scanner) {
        Ok(header) => {
            start(automaton, header);
            read_body(&mut scanner, header, automaton)
        }
        Err(refusal) => {
            start(automaton, Header::default());
            Err(refusal)
        }
    }
}

// Writes the automaton of a Hanoi text in the fixed form: the answer, every byte of the buffer, and demand 1 in its own words.
pub fn write_text(text: &[u8], out: &mut [u8]) -> Result<usize, WriteRefusal<TextRefusal>>
    ensures answer { write_answer_of text_number result ≡ (hanoi_of text.now out.old).answer }
    ensures out { out.new ≡ (hanoi_of text.now out.old).out }
    ensures demand1 { HanoiDemand1 text.now out.old }
{
    let mut automaton = Automaton::empty();
    read(text, &mut automaton).map_err(WriteRefusal::Unread)?;
    writer::write(
        Valid {
            automaton: &automaton,
        },
        out,
    )
}
