// The records past the header of an automaton file, as far as their bytes go, and the reader that goes from one to the next.
#![tactic(auto)]

ghost use Rattle.std.specs.Prelude.{◌≡◌, drop};
ghost use Rattle.format.specs.Records.{record_in};
ghost use Rattle.records.specs.Readers.{place_after};

use format::{FileRefusal, Record};

// A file, the position in it where the next record stands, and the bytes that are left from there on.
#[derive(Clone, Copy)]
pub struct Reader<'a> {
    pub file: &'a [u8],
    pub at: usize,
    pub rest: &'a [u8],
    pub ghost left: { rest.now ≡ drop at file.now },
}

impl<'a> Reader<'a> {
    // The reader of a file from a position on.
    pub fn new(file: &'a [u8], at: usize) -> Reader<'a>
        ensures { (result.file ≡ file.entry) × (result.at ≡ at) }
    {
        Reader {
            file,
            at,
            rest: file.get(at..).unwrap_or_default(),
        }
    }

    // The next record; the reader is behind it afterwards, unless it is the end or a fault.
    #[tactic(auto, unfolding(format::specs::Records::record_in))]
    pub fn next_record(&mut self) -> Result<Record, FileRefusal>
        ensures record { result ≡ record_in self.old.file.now self.old.at }
        ensures file { self.new.file ≡ self.old.file }
        ensures at { self.new.at ≡ place_after result self.old.at }
    {
        let [first, second, fields @ ..] = self.rest else {
            return Err(FileRefusal::CutShort);
        };
        match (*first, *second, fields) {
            (0x41, 0x46, [q, rest @ ..]) => {
                *self = Reader {
                    file: self.file,
                    at: self.at + 3,
                    rest,
                };
                Ok(Record::Accepting {
                    state: *q as usize,
                    next: self.at,
                })
            }
            (0x41, 0x54, [q, a, r, rest @ ..]) => {
                *self = Reader {
                    file: self.file,
                    at: self.at + 5,
                    rest,
                };
                Ok(Record::Transition {
                    from: *q as usize,
                    letter: *a as usize,
                    to: *r as usize,
                    next: self.at,
                })
            }
            (0x41, 0x45, []) => Ok(Record::End),
            (0x41, 0x46 | 0x54, _) => Err(FileRefusal::CutShort),
            _ => Err(FileRefusal::UnknownMark),
        }
    }
}

// The record of a file at a position, by its reader.
pub fn record_from(file: &[u8], at: usize) -> Result<Record, FileRefusal>
    ensures { result ≡ record_in file.now at }
{
    Reader::new(file, at).next_record()
}
