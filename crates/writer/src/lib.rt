// The writer of automaton files in the fixed form: the header, accepting states lowest first, transitions by from, letter and to, and the end. The crate
// `fixed_form` says what it answers and leaves.
#![tactic(auto)]

ghost use Rattle.std.specs.Prelude.{◌≡◌, ℕ, length};
ghost use Rattle.buffers.specs.Cursors.{HasRoom, Added};
ghost use Rattle.format.specs.Numbers.{file_number};
ghost use Rattle.fixed_form.specs.FixedForm.{written};
ghost use Rattle.fixed_form.specs.Write.{writing, write_of};
ghost use Rattle.fixed_form.specs.WriteAnswers.{write_answer_of};
ghost use Rattle.fixed_form.specs.WriteDemand.{WriteDemand1};

use automaton::{Automaton, Valid};
use buffers::Cursor;
use fixed_form::WriteRefusal;
use format::FileRefusal;

mod putting;

// The length of the automaton's file.
fn length_of(valid: Valid) -> usize
    ensures { result ≡ length (written valid.entry.automaton.now) }
{
    let automaton = valid.automaton;
    let set = relations::of_bytes(&automaton.accepting);
    let accepting = relations::count_below(set, automaton.states);
    7 + 3 * accepting + 5 * range_test::transition_count(automaton)
}

// Writes the automaton's file.
fn put_file(out: &mut Cursor, valid: Valid)
    requires { HasRoom out.old (length (written valid.automaton.now)) }
    ensures { Added out.old (written valid.entry.automaton.now) out.new }
{
    putting::put_header(out, valid);
    putting::put_accepting(out, valid);
    putting::put_transitions(out, valid);
    putting::put_end(out);
}

// Writes the file of an automaton to the front of the buffer, and answers its length; without the room for it nothing is written.
pub fn write<R>(valid: Valid, out: &mut [u8]) -> Result<usize, WriteRefusal<R>>
    ensures answer { (number : R → ℕ)
        → write_answer_of number result ≡ (writing valid.entry.automaton.now out.old).answer }
    ensures out { out.new ≡ (writing valid.entry.automaton.now out.old).out }
{
    let needed = length_of(valid);
    if out.len() < needed {
        return Err(WriteRefusal::NoRoom(needed));
    }
    let mut cursor = Cursor::new(out);
    put_file(&mut cursor, valid);
    Ok(needed)
}

// Writes the automaton of a file in the fixed form: the answer, every byte of the buffer, and demand 1 in its own words.
pub fn write_file(file: &[u8], out: &mut [u8]) -> Result<usize, WriteRefusal<FileRefusal>>
    ensures answer { write_answer_of file_number result ≡ (write_of file.now out.old).answer }
    ensures out { out.new ≡ (write_of file.now out.old).out }
    ensures demand1 { WriteDemand1 file.now out.old }
{
    let mut automaton = Automaton::empty();
    file::read(file, &mut automaton).map_err(WriteRefusal::Unread)?;
    write(
        Valid {
            automaton: &automaton,
        },
        out,
    )
}
