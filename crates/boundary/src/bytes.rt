// Entries as the bytes that cross to vendors. Functions and no TryFrom or From, since entries and bytes are both of other crates, and the bytes are lent.
ghost use Rattle.std.specs.Prelude.{◌≡◌, length};
ghost use Rattle.boundary.specs.Bytes.{entry_length, is_entry, entry_of, entry_bytes, FitsBytes};

use automaton::Automaton;
use history::Entry;

// The bytes of an entry.
pub const ENTRY_LENGTH: usize = 2061;

// Whether the bytes are those of an entry, empty or not: the length is tested first.
#[tactic(auto, unfolding(crate::specs::Bytes::is_entry))]
pub fn is_entry(bytes: &[u8]) -> bool
    ensures { result ≡ is_entry bytes.now }
{
    bytes.len() == ENTRY_LENGTH && matches!(bytes[0], 0 | 1)
}

// The entry that the bytes describe.
pub fn decode(bytes: &[u8]) -> Entry
    requires { length bytes.now ≡ entry_length }
    ensures { result ≡ entry_of bytes.now }
{
    Entry {
        filled: bytes[0] == 1,
        edition: u32::from_le_bytes((&bytes[5..9]).try_into().unwrap()) as usize,
        first: bytes[4] as usize,
        held: Automaton {
            states: bytes[1] as usize,
            letters: bytes[2] as usize,
            initial: bytes[3] as usize,
            accepting: (&bytes[9..13]).try_into().unwrap(),
            transitions: (&bytes[13..]).try_into().unwrap(),
        },
    }
}

// Writes the bytes of the entry.
pub fn encode(entry: &Entry, bytes: &mut [u8])
    requires { (length bytes.old ≡ entry_length) × FitsBytes entry.now }
    ensures { bytes.new ≡ entry_bytes entry.now }
{
    bytes[0] = u8::from(entry.filled);
    bytes[1] = entry.held.states as u8;
    bytes[2] = entry.held.letters as u8;
    bytes[3] = entry.held.initial as u8;
    bytes[4] = entry.first as u8;
    bytes[5..9].copy_from_slice(&(entry.edition as u32).to_le_bytes());
    bytes[9..13].copy_from_slice(&entry.held.accepting);
    bytes[13..].copy_from_slice(&entry.held.transitions);
}
