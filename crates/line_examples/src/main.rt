// Prints the lines of made-up entries and answers: those of document 01, and those at its edges.
#![tactic(auto)]

ghost use Rattle.std.specs.Prelude.{◌≤◌, length, IfSome};

use answers::WalkRefusal;
use automaton::Automaton;
use format::FileRefusal;
use history::{Entry, OfferRefusal, Offered, Walk};
use report::Misuse;
use std::io;

// An entry with an edition number, held states and first states.
fn entry_of(edition: usize, states: usize, first: usize) -> Entry {
    let held = Automaton {
        states,
        letters: 2,
        ..Automaton::empty()
    };
    Entry {
        filled: true,
        edition,
        first,
        held,
    }
}

// Prints the bytes of a line that was written to the front of a buffer.
fn print(rt: &impl Print, line: &[u8], written: Option<usize>) -> io::Result<()>
    requires { IfSome written (λ n. n ≤ length line.now) }
{
    rt.write_all(&line[..written.unwrap_or(0)])
}

// Prints the line of an offer.
fn show(
    rt: &impl Print,
    entry: Entry,
    answer: Result<Offered, OfferRefusal>,
    letters: &[u8],
) -> io::Result<()> {
    let mut line = [b'.'; 1024];
    let written = report::offer_line(&entry, answer, letters, &mut line);
    print(rt, &line, written)
}

// Prints the line of an offer that is taken.
fn show_taken(rt: &impl Print, entry: Entry, forward: usize, back: usize) -> io::Result<()> {
    show(rt, entry, Ok(Offered::Taken { forward, back }), b"")
}

// Prints the line of an offer whose forward walk differs.
fn show_forward(rt: &impl Print, entry: Entry, forward: usize, letters: &[u8]) -> io::Result<()> {
    let len = letters.len();
    show(rt, entry, Ok(Offered::Forward { forward, len }), letters)
}

// Prints the line of an offer whose back walk differs.
fn show_back(
    rt: &impl Print,
    entry: Entry,
    forward: usize,
    back: usize,
    letters: &[u8],
) -> io::Result<()> {
    let len = letters.len();
    show(rt, entry, Ok(Offered::Back { forward, back, len }), letters)
}

// The outcomes: the two lines of 01, percents of 13, 38, 33 and 97, an empty word and the largest numbers.
fn show_outcomes(rt: &impl Print) -> io::Result<()> {
    show_taken(rt, entry_of(1, 3, 4), 5, 8)?;
    show_back(rt, entry_of(0, 4, 4), 4, 2, b"\x00")?;
    show_forward(rt, entry_of(2, 7, 8), 0, b"")?;
    show_forward(
        rt,
        entry_of(183071, 5, 8),
        4096,
        b"\x00\x0f\xff\x0a\x09\x64",
    )?;
    show_back(rt, entry_of(10, 2, 3), 100, 99, b"\x01\x00\x01")?;
    show_taken(rt, entry_of(31, 1, 32), 4096, 4096)?;
    let most = usize::MAX;
    show_taken(rt, entry_of(most, most / 2 + 1, most), most, most)
}

// Prints the line of an offer that is refused.
fn show_refusal(rt: &impl Print, entry: Entry, refusal: OfferRefusal) -> io::Result<()> {
    show(rt, entry, Err(refusal), b"")
}

// The refusals of an offer.
fn show_refusals(rt: &impl Print) -> io::Result<()> {
    let entry = entry_of(0, 4, 4);
    let no_slots = OfferRefusal::Walk(Walk::Back, WalkRefusal::NoSlots(7));
    let no_room = OfferRefusal::Walk(Walk::Forward, WalkRefusal::NoRoom(3));
    show_refusal(rt, entry, OfferRefusal::NotSmaller)?;
    show_refusal(
        rt,
        entry_of(0, 0, 0),
        OfferRefusal::File(FileRefusal::CutShort),
    )?;
    show_refusal(rt, entry, no_slots)?;
    show_refusal(rt, entry, no_room)
}

// The other lines; behind the last one the bytes of the buffer are as they were.
fn show_others(rt: &impl Print) -> io::Result<()> {
    let mut line = [b'.'; 256];
    let refused = report::refused_line(OfferRefusal::Bound, &mut line);
    print(rt, &line, refused)?;
    let usage = report::misuse_line(Misuse::Usage, &mut line);
    print(rt, &line, usage)?;
    let mut fresh = [b'.'; 256];
    report::misuse_line(Misuse::Long, &mut fresh);
    rt.write_all(&fresh[..16])?;
    rt.println("")
}

// A byte too few: no length is answered, and the buffer is as it was.
fn show_short(rt: &impl Print) -> io::Result<()> {
    let mut line = [b'.'; 259];
    let back: Result<Offered, OfferRefusal> = Ok(Offered::Back {
        forward: 4,
        back: 2,
        len: 1,
    });
    let written = report::offer_line(&entry_of(0, 4, 4), back, b"\x00", &mut line);
    let n = written.unwrap_or(0);
    println!(rt; "short {n}")?;
    rt.write_all(&line[..16])?;
    rt.println("")
}

fn main(rt: HostRuntime) -> io::Result<()> {
    show_outcomes(&rt)?;
    show_refusals(&rt)?;
    show_others(&rt)?;
    show_short(&rt)
}
