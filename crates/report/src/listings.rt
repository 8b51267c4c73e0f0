// What the program `listing` prints, written into a lent buffer: the calls, with buffers of their own, and the line of their answer.
ghost use Rattle.std.specs.Prelude.{◌≡◌, ◌+◌, ◌*◌, ◌≤◌, length};
ghost use Rattle.history.specs.Entries.{fresh_entry};
ghost use Rattle.history.specs.Opens.{open_of};
ghost use Rattle.report.specs.Line.{Lined};
ghost use Rattle.report.specs.Listing.{word_bytes, offer_listing, open_listing, bound_listing, listing};

use crate::{Misuse, misuse_line, offer_line, refused_line};
use history::Entry;

// The longest file that is read.
pub const MAX_FILE: usize = 65536;

// The bytes of work and of word that the offer is lent.
const WORK_BYTES: usize = 65520;

const WORD_BYTES: usize = 2048;

// The room that is asked for any line of the listing.
pub const ROOM: usize = 256 + 4 * WORD_BYTES;

// Writes the line of an offer to an opened entry.
fn offer_listing(entry: &mut Entry, offer: &[u8], bound: u64, line: &mut [u8]) -> Option<usize>
    requires { 256 + 4 * word_bytes ≤ length line.old }
    ensures { Lined (256 + 4 * word_bytes) (offer_listing entry.old offer.now bound)
        line.old line.new result }
{
    let mut work = [0u8; WORK_BYTES];
    let mut word = [0u8; WORD_BYTES];
    let answer = entry::offer_entry(entry, offer, bound, &mut work, &mut word);
    let part = entry::offer_part(answer, &mut word);
    offer_line(entry, answer, part, line)
}

// Writes the line of the calls: open the first file, and offer the other one where it is opened.
fn open_listing(first: &[u8], offer: &[u8], bound: u64, line: &mut [u8]) -> Option<usize>
    requires { 256 + 4 * word_bytes ≤ length line.old }
    ensures { Lined (256 + 4 * word_bytes)
        (open_listing (open_of fresh_entry first.now).answer (open_of fresh_entry first.now).entry
        offer.now bound)
        line.old line.new result }
{
    let mut entry = Entry::fresh();
    match entry::open_entry(&mut entry, first) {
        Ok(()) => offer_listing(&mut entry, offer, bound, line),
        Err(refusal) => refused_line(refusal, line),
    }
}

// The bound that the input gives as one byte, where no file is too long.
#[tactic(auto, unfolding(crate::specs::Listing::listing))]
fn bound_of(input: &[u8], first: &[u8], offer: &[u8]) -> Result<u8, Misuse>
    ensures { bound_listing result first.now offer.now ≡ listing input.now first.now offer.now }
{
    let [bound] = input else {
        return Err(Misuse::Usage);
    };
    if first.len() > MAX_FILE || offer.len() > MAX_FILE {
        return Err(Misuse::Long);
    }
    Ok(*bound)
}

// Writes what the program `listing` prints, of its input and its two files, to the front of the buffer, and answers its length. With
// less room than is asked for nothing is written.
pub fn listing_line(input: &[u8], first: &[u8], offer: &[u8], line: &mut [u8]) -> Option<usize>
    ensures { Lined (256 + 4 * word_bytes) (listing input.now first.now offer.now)
        line.old line.new result }
{
    if line.len() < ROOM {
        return None;
    }
    match bound_of(input, first, offer) {
        Ok(bound) => open_listing(first, offer, u64::from(bound), line),
        Err(misuse) => misuse_line(misuse, line),
    }
}
