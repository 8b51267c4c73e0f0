// Sets of states, held eight states to a byte: the bits of a byte, its least member, and membership.
ghost use Rattle.std.specs.Prelude.{◌≡◌, ◌<◌};
ghost use Rattle.automaton.specs.Sets.{bit, with_bit, member, least_member};
ghost use Rattle.automaton.specs.Members.{with_member};

// Whether bit i of the byte is set.
pub fn has_bit(w: u8, i: usize) -> bool
    requires { i < 8 }
    ensures { result ≡ bit w i }
{
    (w >> i) % 2 == 1
}

// The byte with bit i set.
pub fn with_bit(w: u8, i: usize) -> u8
    requires { i < 8 }
    ensures { result ≡ with_bit w i }
{
    w | 1 << i
}

// Whether the set has state q.
pub fn is_member(set: &[u8; 4], q: usize) -> bool
    requires { q < 32 }
    ensures { result ≡ member set.now q }
{
    has_bit(set[q / 8], q % 8)
}

// State q is in the set afterwards.
pub fn add_member(set: &mut [u8; 4], q: usize)
    requires { q < 32 }
    ensures { set.new ≡ with_member set.old q }
{
    set[q / 8] = with_bit(set[q / 8], q % 8);
}

// The number of the lowest set bit of a byte; of 0 it is 8. A number and no Option, since the rule that it follows gives that value for 0.
pub fn least_member(w: u8) -> usize
    ensures { result ≡ least_member w }
{
    u8::trailing_zeros(w) as usize
}
