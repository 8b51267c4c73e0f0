// The states of a set, one after the other.
ghost use Rattle.std.specs.Prelude.{◌≡◌, ◌-◌, ◌<◌, ◌≤◌, All};
ghost use Rattle.std.specs.Iterator.{YieldsFirst, item_count};
ghost use Rattle.automaton.specs.Ranges.{next_from, those};
ghost use Rattle.automaton.specs.Sets.{bit};

use crate::below;
use automaton::{MAX_STATES, least_member};
use std::marker::Model;

// The least state of a set, found byte by byte; 32 where there is none.
fn least(set: u32) -> usize
    ensures { result ≡ next_from (bit set) 32 0 }
{
    for b in 0..4 {
        let m = least_member(((set >> (b * 8)) % 256) as u8);
        if m != 8 {
            return b * 8 + m;
        }
    }
    MAX_STATES
}

// The least state of the set from q on; 32 where there is none.
pub fn next_state(set: u32, q: usize) -> usize
    requires { q ≤ 32 }
    ensures { result ≡ next_from (bit set) (32 - q) q }
{
    if q < 32 {
        least(set >> q << q)
    } else {
        MAX_STATES
    }
}

// The states of a set that are left, lowest first; seen as their list.
#[derive(Drop)]
pub struct States {
    rest: u32,
}

impl Model for States {
    ghost use Rattle.std.specs.Prelude.{ℕ, List};
    ghost use Rattle.automaton.specs.Ranges.{those};
    ghost use Rattle.automaton.specs.Sets.{bit};

    ghost Value = { List ℕ };

    ghost view = { λ s. those (bit s.rest) 32 0 };
}

impl Iterator for States {
    type Item = usize;

    ghost next_gives = { YieldsFirst (λ left. left) };

    ghost remaining = { item_count (λ left. left) };

    fn next(&mut self) -> Option<usize> {
        if self.rest == 0 {
            return None;
        }
        let q = least(self.rest);
        self.rest &= self.rest - 1;
        Some(q)
    }
}

// The states of a set, lowest first.
pub fn states_of(set: u32) -> States
    ensures states { result ≡ those (bit set) 32 0 }
    ensures below { All (λ q. q < 32) result }
{
    States { rest: set }
}

// The states of the set below n, lowest first.
pub fn states_below(set: u32, n: usize) -> States
    requires { n ≤ 32 }
    ensures states { result ≡ those (bit set) n 0 }
    ensures below { All (λ q. q < n) result }
{
    States {
        rest: below(set, n),
    }
}
