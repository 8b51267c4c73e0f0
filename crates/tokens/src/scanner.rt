// A text that is read token by token. Words and numbers are read inline where they are called for: so the place stays in a register, and a word is compared
// with a constant.
ghost use Rattle.std.specs.Prelude.{◌≤◌, length};

use crate::{byte_at, digits, name_bytes, touches, whites};

// A text, and the place in it up to which it is read.
#[derive(Drop)]
pub struct Scanner<'a> {
    pub text: &'a [u8],
    pub at: usize,
    pub ghost within: { at ≤ length text.now },
}

impl<'a> Scanner<'a> {
    ghost use Rattle.std.specs.Prelude.{◌≡◌, ◌≤◌, length, is_some};
    ghost use Rattle.std.specs.Bool.{then_some};
    ghost use Rattle.std.specs.Option.{option_map};
    ghost use Rattle.tokens.specs.Tokens.{skip, number_at};
    ghost use Rattle.tokens.specs.Places.{token_at, byte_from, mark_at, name_at, capped};
    ghost use Rattle.tokens.specs.Scanners.{Ahead, Moved};

    // A text of which nothing is read yet.
    pub fn new(text: &'a [u8]) -> Scanner<'a>
        ensures { (result.text ≡ text.entry) × (result.at ≡ 0) }
    {
        Scanner { text, at: 0 }
    }

    // The first place from here on that holds no white space. Mostly it is this one, which a test without a loop tells.
    #[tactic(auto, using(crate::proofs::Runs::start_steps), unfolding(crate::specs::Tokens::skip))]
    fn start(&self) -> usize
        ensures { (result ≡ skip self.now.text.now self.now.at) × (self.now.at ≤ result) × (result ≤ length self.now.text.now) }
    {
        if byte_at(self.text, self.at) > b' ' {
            return self.at;
        }
        self.at + whites(&self.text[self.at..])
    }

    // Passes white space.
    pub fn skip(&mut self)
        ensures place { self.new.at ≡ skip self.old.text.now self.old.at }
        ensures moved { Ahead 0 self.old self.new }
    {
        self.at = self.start();
    }

    // Passes the token that the word spells, if it stands here.
    #[inline(always)]
    #[tactic(auto, using(crate::proofs::Places::token_steps))]
    pub fn token(&mut self, word: &[u8]) -> bool
        ensures meaning { then_some result self.new.at ≡ token_at word.now self.old.text.now self.old.at }
        ensures moved { Moved result (length word.now) self.old self.new }
    {
        let j = self.start();
        if !self.text[j..].starts_with(word) || touches(self.text, j) {
            return false;
        }
        self.at = j + word.len();
        true
    }

    // Passes the byte, if it is the next one.
    #[tactic(auto, using(crate::proofs::Places::byte_steps))]
    pub fn take(&mut self, byte: u8) -> bool
        requires { 1 ≤ byte }
        ensures meaning { then_some result self.new.at ≡ byte_from byte self.old.text.now self.old.at }
        ensures moved { Moved result 1 self.old self.new }
    {
        if byte_at(self.text, self.at) != byte {
            return false;
        }
        self.at += 1;
        true
    }

    // Passes the byte, if it stands here behind white space; it may touch what is before it.
    #[tactic(auto, using(crate::proofs::Places::byte_steps))]
    pub fn mark(&mut self, byte: u8) -> bool
        requires { 1 ≤ byte }
        ensures meaning { then_some result self.new.at ≡ mark_at byte self.old.text.now self.old.at }
        ensures moved { Moved result 1 self.old self.new }
    {
        let j = self.start();
        if byte_at(self.text, j) != byte {
            return false;
        }
        self.at = j + 1;
        true
    }

    // Passes the number that stands here: its value, 1,000 where it is that or more.
    #[inline(always)]
    #[tactic(auto, using(crate::proofs::Places::number_steps))]
    pub fn number(&mut self) -> Option<usize>
        ensures meaning { option_map (λ v. (v, self.new.at)) result ≡ capped (number_at self.old.text.now self.old.at) }
        ensures moved { Moved (is_some result) 1 self.old self.new }
    {
        let j = self.start();
        let first = byte_at(self.text, j);
        if !first.is_ascii_digit() {
            return None;
        }
        if (first == b'0') & byte_at(self.text, j + 1).is_ascii_digit() {
            return None;
        }
        let (value, count) = digits(&self.text[j..]);
        self.at = j + count;
        Some(value)
    }

    // Passes the quoted name that stands here, if one does.
    #[tactic(auto, using(crate::proofs::Places::name_steps))]
    pub fn name(&mut self) -> bool
        ensures meaning { then_some result self.new.at ≡ name_at self.old.text.now self.old.at }
        ensures moved { Moved result 1 self.old self.new }
    {
        let start = self.at;
        if !self.token(b"\"") {
            return false;
        }
        let end = self.at + name_bytes(&self.text[self.at..]);
        if byte_at(self.text, end) != b'"' {
            self.at = start;
            return false;
        }
        self.at = end + 1;
        true
    }
}
