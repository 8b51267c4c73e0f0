// Numbers and letters, written behind what stands on a line.
ghost use Rattle.std.specs.Prelude.{◌≡◌, ◌++◌, ◌+◌, ◌*◌, ◌<◌, ◌≤◌, length};
ghost use Rattle.buffers.specs.Cursors.{HasRoom, Added};
ghost use Rattle.text.specs.Text.{decimal, space};
ghost use Rattle.text.specs.Text.{letters as letters_text};

use buffers::Cursor;
use itoa::Buffer;

// Writes the decimal digits of a number, for which there is room. Beside `put_decimal`, which asks for the room of the longest number.
#[tactic(auto, using(buffers::proofs::Cursors::added_as, crate::proofs::Decimals::decimal_library))]
fn put_digits(line: &mut Cursor, n: usize)
    requires { HasRoom line.old (length (decimal n)) }
    ensures { Added line.old (decimal n) line.new }
{
    let mut buffer = Buffer::new();
    line.put_text(buffer.format(n).as_bytes());
}

// Writes a number in decimal, at most 20 bytes.
pub fn put_decimal(line: &mut Cursor, n: usize)
    requires { HasRoom line.old 20 }
    ensures added { Added line.old (decimal n) line.new }
    ensures upper_bound { line.new.at ≤ line.old.at + 20 }
{
    put_digits(line, n);
}

// Writes a letter in decimal after a space, at most 4 bytes.
fn put_letter(line: &mut Cursor, letter: u8)
    requires { HasRoom line.old 4 }
    ensures added { Added line.old (space ++ decimal letter) line.new }
    ensures upper_bound { line.new.at ≤ line.old.at + 4 }
{
    line.put_byte(b' ');
    put_digits(line, letter as usize);
}

// Writes the letters of a word in decimal, each after a space.
pub fn put_letters(line: &mut Cursor, word: &[u8])
    requires { HasRoom line.old (4 * length word.now) }
    ensures added { Added line.old (letters_text word.now) line.new }
    ensures upper_bound { line.new.at ≤ line.old.at + 4 * length word.now }
{
    for letter in word {
        put_letter(line, *letter);
    }
}

// Writes a text and a number behind it.
pub fn put_field(line: &mut Cursor, text: &[u8], n: usize)
    requires { HasRoom line.old (length text.now + 20) }
    ensures added { Added line.old (text.now ++ decimal n) line.new }
    ensures upper_bound { line.new.at ≤ line.old.at + length text.now + 20 }
{
    line.put_text(text);
    put_decimal(line, n);
}
