// The index of the listed vertices by classes of equal counters: the class of counters, the left states that are listed with them, and a new
// slot that joins a class or leads one.
#![tactic(auto)]

ghost use Rattle.std.specs.Prelude.{◌≡◌, ◌&&◌, not, ℕ, ◌+◌, ◌<◌, ◌≤◌, ◌^◌, ltb, length, get_or};
ghost use Rattle.automaton.specs.Automata.{max_states};
ghost use Rattle.automaton.specs.Ranges.{some};
ghost use Rattle.automaton.specs.Sets.{bit};
ghost use Rattle.slots.specs.Slots.{slot_count, max_slots, same_list, all_zero};
ghost use Rattle.slots.specs.Bytes.{with_slot};
ghost use Rattle.classes.specs.Classes.{counters_at, class_of, eight_from, key_from, key_of, keys, empty_index, Classes, index_after};
ghost use Rattle.classes.specs.Indexes.{Chained, class_at, listed_in};

mod keyed;
mod lookups;

use automaton::MAX_STATES;
pub use keyed::Keyed;
pub use lookups::{class_at, class_of, unlisted};
use slots::{MAX_SLOTS, SLOT_SIZE, Slot};

// The number of keys.
const KEYS: usize = 4096;

// The index of the slots: for each key the top leader with it, for each slot that leads the next leader with its key, and for each slot that
// joined a class that class, 1 + a slot and 0 for none; and for each leader the left states that are listed with its counters. Numbers and no
// Options, which would not fit 16 bits in the fixed memory, and functions answer them so; arrays side by side, since a struct of both would take 8 bytes where
// 6 stand.
#[derive(Drop)]
pub struct Index {
    pub heads: [u16; KEYS],
    pub nexts: [u16; MAX_SLOTS],
    pub listed: [u32; MAX_SLOTS],
}

// The class of counters by number, 1 + the slot that leads it, and 0 where no slot has them, as the index holds it; and their key.
#[derive(Clone, Copy)]
pub struct Class {
    pub key: usize,
    pub number: usize,
}

// Eight counters, from number i on, as one number. The bytes are written out: so it is one load, and an array made of a slice is no plainer.
#[tactic(auto, using(crate::proofs::Words::eight_read))]
fn eight(counters: &[u8; 32], i: usize) -> u64
    requires { i ≤ 24 }
    ensures { result ≡ eight_from counters.now i }
{
    u64::from_le_bytes([
        counters[i],
        counters[i + 1],
        counters[i + 2],
        counters[i + 3],
        counters[i + 4],
        counters[i + 5],
        counters[i + 6],
        counters[i + 7],
    ])
}

// The key of four numbers of 64 bits.
#[tactic(auto, unfolding(crate::specs::Classes::key_from))]
fn mixed(w0: u64, w1: u64, w2: u64, w3: u64) -> usize
    ensures { (result ≡ key_from w0 w1 w2 w3) × (result < keys) }
{
    let a = w0 ^ (w1 << 4);
    let b = w2 ^ (w3 << 4);
    let x = a ^ (b >> 29) ^ (b << 35);
    let y = (x ^ (x >> 30)) % 0x100000000;
    (y * 2654435761 / 0x100000) as usize % KEYS
}

// The key of counters.
#[tactic(auto, unfolding(crate::specs::Classes::key_of))]
pub fn key_of(counters: &[u8; 32]) -> usize
    ensures { (result ≡ key_of counters.now) × (result < keys) }
{
    mixed(
        eight(counters, 0),
        eight(counters, 8),
        eight(counters, 16),
        eight(counters, 24),
    )
}

// Whether all counters are 0, by words.
#[tactic(auto, using(crate::proofs::Words::words_none))]
pub fn all_zero(counters: &[u8; 32]) -> bool
    ensures { result ≡ all_zero counters.now }
{
    eight(counters, 0) | eight(counters, 8) | eight(counters, 16) | eight(counters, 24) == 0
}

// Whether slot s has these counters. All of them are compared, with no branch: by `==` on slices a walk takes up to 8 % more instructions.
fn same_counters(work: &[u8], s: usize, counters: [u8; 32]) -> bool
    requires { s < slot_count (length work.now) }
    ensures { result ≡ same_list counters (counters_at work.now s) }
{
    let from = s * SLOT_SIZE + 1;
    let mut same = true;
    for r in 0..MAX_STATES {
        same &= counters[r] == work[from + r];
    }
    same
}

impl Index {
    // The index of no slots.
    pub fn empty() -> Index
        ensures { result ≡ empty_index }
    {
        Index {
            heads: [0; KEYS],
            nexts: [0; MAX_SLOTS],
            listed: [0; MAX_SLOTS],
        }
    }

    // The class of counters among the first n slots.
    pub fn class_of(&self, work: &[u8], n: usize, keyed: Keyed) -> usize
        requires { (n ≤ slot_count (length work.now)) × Chained work.now self.now n }
        ensures { result ≡ class_of work.now keyed.entry.counters.now n }
    {
        class_of(work, &self.heads, &self.nexts, n, keyed)
    }

    // The class of slot s.
    pub fn class_at(&self, s: usize) -> usize
        requires { s < max_slots }
        ensures { result ≡ class_at self.now s }
    {
        class_at(&self.nexts, &self.listed, s)
    }

    // The targets that are not listed with the counters of the class.
    pub fn unlisted(&self, class: usize, targets: u32) -> u32
        requires { class ≤ max_slots }
        ensures { (t : ℕ) → bit result t ≡ (bit targets t && not (bit (listed_in self.now class) t)) }
    {
        unlisted(&self.listed, class, targets)
    }

    // Slot n, with this left state, joins the class, or leads one where the number is 0.
    fn join(&mut self, n: usize, left: usize, class: Class)
        requires { (class.key < keys) × (n < max_slots) × (class.number ≤ n) × (left < max_states) }
        ensures { self.new ≡ index_after self.old class.number left class.key n }
    {
        if class.number == 0 {
            self.nexts[n] = self.heads[class.key];
            self.heads[class.key] = (n + 1) as u16;
            self.listed[n] = relations::with_state(0, left);
        } else {
            let leader = class.number - 1;
            self.nexts[n] = class.number as u16;
            self.listed[leader] = relations::with_state(self.listed[leader], left);
        }
    }

    // Writes the next free slot, n, and puts it into the index by the class of its counters.
    pub fn append(&mut self, work: &mut [u8], n: usize, slot: Slot, class: Class)
        requires { (n < slot_count (length work.old)) × (slot.vertex.left < max_states)
            × (class.key ≡ key_of slot.vertex.counters) × (class.key < keys) × Classes work.old self.old n
            × (class.number ≡ class_of work.old slot.vertex.counters n) }
        ensures bytes { work.new ≡ with_slot work.old n slot.vertex slot.edge.letter slot.edge.parent }
        ensures index { self.new ≡ index_after self.old class.number slot.vertex.left class.key n }
        ensures classes { Classes work.new self.new (n + 1) }
    {
        slots::write_slot(work, n, slot);
        self.join(n, slot.vertex.left as usize, class);
    }
}
