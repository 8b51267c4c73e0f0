// The parts of a file, each written behind what stands in the buffer.
ghost use Rattle.std.specs.Prelude.{◌<◌, length};
ghost use Rattle.buffers.specs.Cursors.{HasRoom, Added};
ghost use Rattle.format.specs.Writing.{header_bytes, items_bytes, end_bytes};
ghost use Rattle.fixed_form.specs.FixedForm.{accepting_items, transition_items};
ghost use Rattle.writer.specs.Parts.{target_items, from_items};

use automaton::Valid;
use buffers::Cursor;
use relations::states_below;

// Writes the header.
pub(crate) fn put_header(out: &mut Cursor, valid: Valid)
    requires { HasRoom out.old 5 }
    ensures { let A = valid.entry.automaton.now in
        Added out.old (header_bytes A.states A.letters A.initial) out.new }
{
    let automaton = valid.automaton;
    let states = automaton.states as u8;
    let letters = automaton.letters as u8;
    out.put_text(&[0x41, b'H', states, letters, automaton.initial as u8]);
}

// Writes the records of the accepting states, lowest first.
pub(crate) fn put_accepting(out: &mut Cursor, valid: Valid)
    requires { HasRoom out.old (length (items_bytes (accepting_items valid.automaton.now))) }
    ensures { Added out.old (items_bytes (accepting_items valid.entry.automaton.now)) out.new }
{
    let automaton = valid.automaton;
    let set = relations::of_bytes(&automaton.accepting);
    for q in states_below(set, automaton.states) {
        out.put_text(&[0x41, b'F', q as u8]);
    }
}

// Writes the records of the transitions from q on letter a, lowest target first. A function beside put_accepting, since no closure may give an array of a
// length of its own, and one that gives slices is no plainer.
fn put_targets(out: &mut Cursor, valid: Valid, q: usize, a: usize)
    requires { ((q < valid.automaton.now.states) × (a < valid.automaton.now.letters))
        × HasRoom out.old (length (items_bytes (target_items valid.automaton.now q a))) }
    ensures { Added out.old (items_bytes (target_items valid.entry.automaton.now q a)) out.new }
{
    let automaton = valid.automaton;
    let row = relations::row(automaton, q, a);
    for r in states_below(row, automaton.states) {
        out.put_text(&[0x41, b'T', q as u8, a as u8, r as u8]);
    }
}

// Writes the records of the transitions from q, lowest letter first.
fn put_from(out: &mut Cursor, valid: Valid, q: usize)
    requires { (q < valid.automaton.now.states)
        × HasRoom out.old (length (items_bytes (from_items valid.automaton.now q))) }
    ensures { Added out.old (items_bytes (from_items valid.entry.automaton.now q)) out.new }
{
    for a in 0..valid.automaton.letters {
        put_targets(out, valid, q, a);
    }
}

// Writes the records of all transitions, lowest state first.
pub(crate) fn put_transitions(out: &mut Cursor, valid: Valid)
    requires { HasRoom out.old (length (items_bytes (transition_items valid.automaton.now))) }
    ensures { Added out.old (items_bytes (transition_items valid.entry.automaton.now)) out.new }
{
    for q in 0..valid.automaton.states {
        put_from(out, valid, q);
    }
}

// Writes the end record.
pub(crate) fn put_end(out: &mut Cursor)
    requires { HasRoom out.old 2 }
    ensures { Added out.old end_bytes out.new }
{
    out.put_text(&[0x41, b'E']);
}
