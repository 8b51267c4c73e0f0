// The line of each answer and of each misuse, written behind what stands in a lent buffer.
ghost use Rattle.std.specs.Prelude.{◌++◌, ◌+◌, ◌*◌, ◌≤◌, length};
ghost use Rattle.buffers.specs.Cursors.{HasRoom, Added};
ghost use Rattle.text.specs.Text.{decimal, space};
ghost use Rattle.history.specs.OfferAnswers.{offer_answer_by, offer_answer_of};
ghost use Rattle.report.specs.Line.{newline, word_text, fields, offer_line, refused_line, misuse_line, line_room};
ghost use Rattle.text.specs.Text.{letters as letters_text};

use crate::Misuse;
use buffers::Cursor;
use format::Numbered;
use history::{Entry, Offered, RefusesOffer};
use text::{percent_saved, put_decimal, put_field, put_letters};

// Writes the fields of an entry, from the space before the edition number to the space before the counts.
fn put_fields(line: &mut Cursor, entry: &Entry)
    requires { HasRoom line.old 107 }
    ensures added { Added line.old (fields entry.now) line.new }
    ensures upper_bound { line.new.at ≤ line.old.at + 107 }
{
    let states = entry.held.states;
    put_field(line, b" ", entry.edition);
    put_field(line, b" states ", states);
    put_field(line, b" of ", entry.first);
    put_field(line, b" saved ", percent_saved(entry.first, states));
    line.put_text(b" walks ");
}

// Writes a line's front: the outcome, the fields, the forward count and a space.
fn put_front(line: &mut Cursor, outcome: &[u8], entry: &Entry, forward: usize)
    requires { HasRoom line.old (length outcome.now + 128) }
    ensures added { Added line.old (outcome.now ++ fields entry.now ++ decimal forward ++ space) line.new }
    ensures upper_bound { line.new.at ≤ line.old.at + length outcome.now + 128 }
{
    line.put_text(outcome);
    put_fields(line, entry);
    put_decimal(line, forward);
    line.put_byte(b' ');
}

// Writes a line's end with a word: `word`, the letters and the newline.
fn put_word(line: &mut Cursor, letters: &[u8])
    requires { HasRoom line.old (6 + 4 * length letters.now) }
    ensures { Added line.old (word_text ++ letters_text letters.now ++ newline) line.new }
{
    line.put_text(b" word");
    put_letters(line, letters);
    line.put_byte(b'\n');
}

// Writes the line of an offer that comes to an outcome.
fn put_offered(line: &mut Cursor, entry: &Entry, offered: Offered, letters: &[u8])
    requires { HasRoom line.old (line_room letters.now) }
    ensures { Added line.old (offer_line entry.now (offer_answer_of (Ok offered)) letters.now) line.new }
{
    match offered {
        Offered::Taken { forward, back } => {
            put_front(line, b"taken", entry, forward);
            put_decimal(line, back);
            line.put_byte(b'\n');
        }
        Offered::Forward { forward, .. } => {
            put_front(line, b"forward", entry, forward);
            line.put_byte(b'-');
            put_word(line, letters);
        }
        Offered::Back { forward, back, .. } => {
            put_front(line, b"back", entry, forward);
            put_decimal(line, back);
            put_word(line, letters);
        }
    }
}

// Writes the line of a refusal.
pub fn put_refused<R: Numbered>(line: &mut Cursor, refusal: R)
    requires { HasRoom line.old 256 }
    ensures { Added line.old (refused_line (R.number refusal)) line.new }
{
    put_field(line, b"refused ", refusal.number());
    line.put_byte(b'\n');
}

// Writes the line of an offer's answer.
pub fn put_answer<R: RefusesOffer>(
    line: &mut Cursor,
    entry: &Entry,
    answer: Result<Offered, R>,
    letters: &[u8],
)
    requires { HasRoom line.old (line_room letters.now) }
    ensures { Added line.old (offer_line entry.now (offer_answer_by R.table_row answer) letters.now) line.new }
{
    match answer {
        Ok(offered) => put_offered(line, entry, offered, letters),
        Err(refusal) => put_refused(line, refusal.table_row()),
    }
}

// Writes the line of a misuse.
pub fn put_misuse(line: &mut Cursor, misuse: Misuse)
    requires { HasRoom line.old 256 }
    ensures { Added line.old (misuse_line misuse) line.new }
{
    match misuse {
        Misuse::Usage => line.put_text(b"usage\n"),
        Misuse::Long => line.put_text(b"long\n"),
    }
}
