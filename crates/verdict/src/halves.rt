// The halves of a word of 64 bits, a set of states each.
ghost use Rattle.std.specs.Prelude.{◌≡◌, ℕ, ◌+◌, ◌<◌};
ghost use Rattle.automaton.specs.Sets.{bit};

// Past the low half.
pub const HALF: u64 = 1 << 32;

// Bits 0 to 31.
#[tactic(auto, using(crate::proofs::HalfWords::low_half))]
pub fn low(pair: u64) -> u32
    ensures { (q : ℕ) → q < 32 → bit result q ≡ bit pair q }
{
    (pair % HALF) as u32
}

// Bits 32 to 63.
#[tactic(auto, using(crate::proofs::HalfWords::high_half))]
pub fn high(pair: u64) -> u32
    ensures { (q : ℕ) → bit result q ≡ bit pair (32 + q) }
{
    (pair / HALF) as u32
}
