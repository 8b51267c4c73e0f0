// Opens the file first.ba, offers the file offer.ba to it at the bound that standard input gives as one byte, and prints the line.
#![tactic(auto)]

ghost use Rattle.std.specs.Prelude.{length};
ghost use Rattle.input.specs.Counts.{IsPrefixLen};

use input::read_full;
use std::rt::Files;
use std::{fs, io};

// Reads a file to the front of the buffer, until its end or the buffer's, and answers the part that was read to. A file that cannot be
// opened counts as empty.
fn load<'a>(rt: &impl Files, path: &str, buffer: &'a mut [u8]) -> &'a [u8]
    ensures { IsPrefixLen (length result.now) buffer.old }
{
    match fs::open(rt, path) {
        Ok(mut file) => read_full(&mut file, buffer),
        Err(_) => &[],
    }
}

// The buffers have a byte more than the longest input and the longest file that are accepted, so that a longer one shows.
fn main(rt: HostRuntime) -> io::Result<()> {
    let mut input = [0u8; 2];
    let mut first = [0u8; report::MAX_FILE + 1];
    let mut offer = [0u8; report::MAX_FILE + 1];
    let mut line = [0u8; report::ROOM];
    let written = report::listing_line(
        read_full(&mut rt.stdin(), &mut input),
        load(&rt, "first.ba", &mut first),
        load(&rt, "offer.ba", &mut offer),
        &mut line,
    );
    rt.write_all(&line[..written.unwrap_or(0)])
}
