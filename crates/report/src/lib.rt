// The line that the listing prints, written into a lent buffer.
#![tactic(auto)]

ghost use Rattle.std.specs.Prelude.{◌≡◌, [], ◌+◌, ◌*◌, leb};
ghost use Rattle.history.specs.OfferAnswers.{offer_answer_by};
ghost use Rattle.report.specs.Line.{offer_line, refused_line, misuse_line, line_room, Lined};

mod answer_lines;
mod listings;

use answer_lines::{put_answer, put_misuse, put_refused};
use buffers::Cursor;
use format::Numbered;
use history::{Entry, Offered, RefusesOffer};
pub use listings::{MAX_FILE, ROOM, listing_line};

// Why the listing makes no call: its input has another length than one byte, or a file is too long.
#[derive(Clone, Copy, Debug, PartialEq, Eq)]
pub enum Misuse {
    Usage,
    Long,
}

// Whether a buffer of so many bytes has the room that is asked for a line with so many letters.
fn has_room(size: usize, letters: usize) -> bool
    ensures { result ≡ leb (256 + 4 * letters) size }
{
    size >= 256 && letters <= (size - 256) / 4
}

// Writes the line of an offer to the front of the buffer, and answers its length: the entry after the call, the answer and the
// letters of the word. With less room than is asked for nothing is written. A length and no slice, since a slice lent on would leave no promise of the
// whole buffer. The functions for the three lines begin alike: one that takes what is
// written as a closure would ask for its conditions at every cursor, in more lines than it spares.
pub fn offer_line<R: RefusesOffer>(
    entry: &Entry,
    answer: Result<Offered, R>,
    letters: &[u8],
    line: &mut [u8],
) -> Option<usize>
    ensures { Lined (line_room letters.now) (offer_line entry.now (offer_answer_by R.table_row answer) letters.now)
        line.old line.new result }
{
    if !has_room(line.len(), letters.len()) {
        return None;
    }
    let mut cursor = Cursor::new(line);
    put_answer(&mut cursor, entry, answer, letters);
    Some(cursor.at)
}

// Writes the line of a refusal, as offer_line does.
pub fn refused_line<R: Numbered + Drop>(refusal: R, line: &mut [u8]) -> Option<usize>
    ensures { Lined (line_room []) (refused_line (R.number refusal)) line.old line.new result }
{
    if !has_room(line.len(), 0) {
        return None;
    }
    let mut cursor = Cursor::new(line);
    put_refused(&mut cursor, refusal);
    Some(cursor.at)
}

// Writes the line of a misuse, as offer_line does.
pub fn misuse_line(misuse: Misuse, line: &mut [u8]) -> Option<usize>
    ensures { Lined (line_room []) (misuse_line misuse) line.old line.new result }
{
    if !has_room(line.len(), 0) {
        return None;
    }
    let mut cursor = Cursor::new(line);
    put_misuse(&mut cursor, misuse);
    Some(cursor.at)
}
