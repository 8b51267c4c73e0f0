// Reads files and finds their dead states. Each line of standard input gives a file of at most 64 bytes: a name, a colon, and the bytes
// in hexadecimal. A line is written for each: the name; the refusal number of every truncation, from no bytes to the whole file, a digit
// each; and where the last is 0 the numbers of states, letters and transitions, and the dead states.
#![tactic(auto)]

ghost use Rattle.std.specs.Prelude.{◌<◌, length};
ghost use Rattle.input.specs.Counts.{IsPrefixLen};

use automaton::{Automaton, MAX_STATES, Valid};
use format::{FileRefusal, Numbered};
use input::read_full;
use std::io;

// Writes the numbers of the states whose flags are set.
fn show_states(rt: &impl Print, flags: [bool; MAX_STATES]) -> io::Result<()> {
    for (q, is_set) in flags.iter().enumerate() {
        if *is_set {
            print!(rt; " {q}")?;
        }
    }
    Ok(())
}

// Writes whether an automaton has a dead state, and its dead states.
fn show_dead(rt: &impl Print, valid: Valid) -> io::Result<()> {
    let found = if deadend::has_dead(valid) {
        "dead"
    } else {
        "none dead"
    };
    print!(rt; " {found}")?;
    show_states(rt, deadend::dead_states(valid))
}

// Writes the numbers and the dead states of an automaton.
fn show_automaton(rt: &impl Print, valid: Valid) -> io::Result<()> {
    let automaton = valid.automaton;
    let states = automaton.states;
    let letters = automaton.letters;
    let transitions = range_test::transition_count(automaton);
    print!(rt; " states {states} letters {letters} transitions {transitions}")?;
    show_dead(rt, valid)
}

// Writes the refusal number of what reading a file gave, 0 where it was read.
fn show_refusal(rt: &impl Print, read: Result<(), FileRefusal>) -> io::Result<()> {
    rt.print(read.err().map_or(0, FileRefusal::number))
}

// Writes what reading each truncation of a file gives, and then what reading all of it gives.
#[tactic(auto, unfolding(automaton::specs::Automata::bare))]
fn show_file(rt: &impl Print, file: &[u8]) -> io::Result<()> {
    for n in 0..file.len() {
        show_refusal(rt, file::read(&file[..n], &mut Automaton::empty()))?;
    }
    let mut automaton = Automaton::empty();
    let read = file::read(file, &mut automaton);
    show_refusal(rt, read)?;
    if read.is_ok() {
        show_automaton(
            rt,
            Valid {
                automaton: &automaton,
            },
        )?;
    }
    rt.println("")
}

// The number of a hexadecimal digit in lower case. By hand, since any other byte counts for a number too, where the library's `to_digit` gives none.
fn digit(c: u8) -> u8
    ensures { result < 16 }
{
    if c < b'a' { c % 16 } else { (c % 16 + 9) % 16 }
}

// Puts the bytes that a text gives, each in two digits behind a colon or a space, at the front of a file, and answers the part of it that they fill.
fn put_bytes<'a>(text: &[u8], file: &'a mut [u8]) -> &'a [u8]
    ensures { IsPrefixLen (length result.now) file.old }
{
    let (chunks, _) = text.as_chunks::<3>();
    for (byte, [_, high, low]) in file.iter_mut().zip(chunks) {
        *byte = digit(*high) * 16 + digit(*low);
    }
    &file[..chunks.len().min(file.len())]
}

// Writes the line of the file that a line of the input gives.
fn show_line(rt: &impl Print, line: &[u8]) -> io::Result<()> {
    let line = line.strip_suffix(b"\n").unwrap_or(line);
    let colon = line.iter().position(|c| *c == b':').unwrap_or(line.len());
    let (name, text) = line.split_at(colon);
    rt.write_all(name)?;
    rt.write_all(b": ")?;
    show_file(rt, put_bytes(text, &mut [0; 64]))
}

fn main(rt: HostRuntime) -> io::Result<()> {
    let mut buffer = [0; 65536];
    let text = read_full(&mut rt.stdin(), &mut buffer);
    for line in text.split_inclusive(|c| *c == b'\n') {
        show_line(&rt, line)?;
    }
    Ok(())
}
