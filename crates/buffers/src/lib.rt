// Bytes and texts, written into a lent buffer from its front on.
#![tactic(auto)]

ghost use Rattle.std.specs.Prelude.{◌≡◌, [], ◌∷◌, length};

// A lent buffer, and the place up to which it is written.
#[derive(Drop)]
pub struct Cursor<'a> {
    pub out: &'a mut [u8],
    pub at: usize,
}

impl<'a> Cursor<'a> {
    ghost use Rattle.buffers.specs.Cursors.{HasRoom, Added};

    // The front of a buffer, of which nothing is written yet.
    pub fn new(out: &'a mut [u8]) -> Cursor<'a>
        ensures same_buffer { result.out.ghost_name ≡ out.entry.ghost_name }
        ensures out { result.out.now ≡ out.old }
        ensures at { result.at ≡ 0 }
    {
        Cursor { out, at: 0 }
    }

    // Writes a byte behind what is written.
    pub fn put_byte(&mut self, byte: u8)
        requires { HasRoom self.old 1 }
        ensures { Added self.old (byte ∷ []) self.new }
    {
        self.out[self.at] = byte;
        self.at += 1;
    }

    // Writes a text behind what is written.
    pub fn put_text(&mut self, text: &[u8])
        requires { HasRoom self.old (length text.now) }
        ensures { Added self.old text.now self.new }
    {
        let next = self.at + text.len();
        self.out[self.at..next].copy_from_slice(text);
        self.at = next;
    }
}
