// The tokens of a Hanoi text, taken one after another from its front on: words and marks, numbers of any length, quoted names. White space may stand before
// each.
#![tactic(auto)]

ghost use Rattle.std.specs.Prelude.{◌≡◌, true, ◌≤◌, ◌+◌, ◌*◌, ◌-◌, min, length};
ghost use Rattle.tokens.specs.Tokens.{white, whites, digit, digits, value, name_byte, name_bytes, byte_at, touches};

mod scanner;

pub use scanner::Scanner;

// Whether a byte is white space. So written it is the test of one bit, where `matches!` is four branches.
fn is_white(b: u8) -> bool
    ensures { result ≡ white b }
{
    (b == b' ') | (b == b'\t') | (b == b'\n') | (b == b'\r')
}

// The number of bytes of white space in front.
fn whites(text: &[u8]) -> usize
    ensures { (result ≡ whites text.now) × (result ≤ length text.now) }
{
    text.iter().take_while(|b| is_white(**b)).count()
}

// Whether a byte may stand in a quoted name.
fn is_name_byte(b: u8) -> bool
    ensures { result ≡ name_byte b }
{
    matches!(b, b' '..=b'~') && b != b'"' && b != b'\\'
}

// The number of bytes in front that a quoted name may hold. The same as `whites` but for the test, which a contract over a closure would name no plainer.
fn name_bytes(text: &[u8]) -> usize
    ensures { (result ≡ name_bytes text.now) × (result ≤ length text.now) }
{
    text.iter().take_while(|b| is_name_byte(**b)).count()
}

// The byte at a place; at the end 0, which is in no token. A number and no Option, since it is only compared with bytes of tokens.
pub fn byte_at(text: &[u8], j: usize) -> u8
    ensures { result ≡ byte_at text.now j }
{
    text.get(j).copied().unwrap_or(0)
}

// Whether the byte at a place and the one before it are letters or digits.
fn touches(text: &[u8], j: usize) -> bool
    ensures { result ≡ touches text.now j }
{
    j > 0
        && byte_at(text, j - 1).is_ascii_alphanumeric()
        && byte_at(text, j).is_ascii_alphanumeric()
}

// The value with one digit more behind it, at most 1,000.
fn with_digit(v: usize, b: u8) -> usize
    requires { (v ≤ 1000) × (digit b ≡ true) }
    ensures { (result ≡ min (10 * v + (b - 0x30)) 1000) × (result ≤ 1000) }
{
    (10 * v + usize::from(b - b'0')).min(1000)
}

// The value of the digits in front, at most 1,000, and their number.
fn digits(text: &[u8]) -> (usize, usize)
    ensures value { result.0 ≡ min (value 0 text.now) 1000 }
    ensures count { (result.1 ≡ digits text.now) × (result.1 ≤ length text.now) }
{
    let mut value = 0;
    for j in 0..text.len() {
        if !text[j].is_ascii_digit() {
            return (value, j);
        }
        value = with_digit(value, text[j]);
    }
    (value, text.len())
}
