// Input that is read into a buffer of a fixed length.
#![tactic(auto)]

ghost use Rattle.std.specs.Prelude.{◌≡◌, length};
ghost use Rattle.input.specs.Counts.{IsPrefixLen};

use std::io::Read;

// Reads until the buffer is full, the input ends or a read fails, and answers the part of the buffer that was read to, which stands at its front: it is
// no longer than the buffer, whose length no call changes, and begins where the buffer does. The bytes behind it are as they were, or as a failed read left them.
// A lent buffer, where std's `read_to_end` takes a `Vec`: the listing has fixed memory and no heap, as the kernel has.
pub fn read_full<'a, R: Read>(input: &mut R, buffer: &'a mut [u8]) -> &'a [u8]
    ensures length { IsPrefixLen (length result.now) buffer.old }
    ensures place { result.ref_ptr ≡ buffer.entry.ref_ptr }
{
    let mut done = 0;
    while done < buffer.len() {
        match input.read(&mut buffer[done..]) {
            Ok(0) | Err(_) => break,
            Ok(n) => done += n,
        }
    }
    &buffer[..done]
}
