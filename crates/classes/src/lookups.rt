// Classes looked up in the arrays of an index, which are lent one by one.
ghost use Rattle.std.specs.Prelude.{◌≡◌, ◌&&◌, not, ℕ, ◌<◌, ◌≤◌, length};
ghost use Rattle.automaton.specs.Sets.{bit};
ghost use Rattle.slots.specs.Slots.{slot_count};
ghost use Rattle.classes.specs.Classes.{class_of, Chained, class_at, listed_in};

use crate::{Keyed, same_counters};

// The class of counters among the first n slots, by the chain of their key. The chain is followed by hand: its links are numbers in fixed
// memory, and an iterator over them is no plainer.
pub fn class_of(work: &[u8], heads: &[u16], nexts: &[u16], n: usize, keyed: Keyed) -> usize
    requires { (n ≤ slot_count (length work.now)) × Chained work.now heads.now nexts.now n }
    ensures { result ≡ class_of work.now keyed.entry.counters.now n }
{
    let mut c = heads[keyed.key] as usize;
    while c > 0 {
        if same_counters(work, c - 1, *keyed.counters) {
            return c;
        }
        c = nexts[c - 1] as usize;
    }
    0
}

// The class of slot s.
pub fn class_at(nexts: &[u16], listed: &[u32], s: usize) -> usize
    requires { (s < length nexts.now) × (s < length listed.now) }
    ensures { result ≡ class_at nexts.now listed.now s }
{
    if listed[s] == 0 {
        nexts[s] as usize
    } else {
        s + 1
    }
}

// The targets that are not listed with the counters of the class.
pub fn unlisted(listed: &[u32], class: usize, targets: u32) -> u32
    requires { class ≤ length listed.now }
    ensures { (t : ℕ) → bit result t ≡ (bit targets t && not (bit (listed_in listed.now class) t)) }
{
    if class == 0 {
        return targets;
    }
    targets ^ (targets & listed[class - 1])
}
