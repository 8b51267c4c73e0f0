// Vertices of the lag-checking graph, and the slots of the work buffer that have them. Only this crate knows a slot's layout.
// The buffer and a slot's number are two parameters: a method of a struct with the buffer would ask the same of the number, its bound
// and that its parents fall.
#![tactic(auto)]

ghost use Rattle.std.specs.Prelude.{◌≡◌, ◌++◌, ◌<◌, ◌≤◌, length, drop};
ghost use Rattle.slots.specs.Slots.{slot_count, slot_size, slot_bytes};
ghost use Rattle.slots.specs.Bytes.{with_slot, vertex_at, letter_at, parent_at, Falls, word_at};

mod edge;

pub use edge::Edge;

// The bytes of a slot.
pub const SLOT_SIZE: usize = 40;

// The most slots that a walk uses.
pub const MAX_SLOTS: usize = 4096;

// What the initial vertex's slot has as letter and as parent, since it was found by none. Numbers, since these are documented bytes of its slot.
pub const NO_LETTER: u8 = 255;

pub const NO_PARENT: usize = 65535;

// A left state, and a counter for each right state that there can be.
#[derive(Clone, Copy)]
pub struct Vertex {
    pub left: u8,
    pub counters: [u8; 32],
}

// What a slot is to hold: a vertex, and the edge by which it was found.
#[derive(Clone, Copy)]
pub struct Slot {
    pub vertex: Vertex,
    pub edge: Edge,
}

// The number of slots of a work buffer of `len` bytes.
pub fn slot_count(len: usize) -> usize
    ensures { result ≡ slot_count len }
{
    (len / SLOT_SIZE).min(MAX_SLOTS)
}

// Writes a slot to the front of the part that is lent.
#[tactic(auto, using(crate::proofs::SlotLayout::slot_written))]
pub fn put_slot(part: &mut [u8], slot: Slot)
    requires { slot_size ≤ length part.old }
    ensures { part.new ≡ slot_bytes slot.vertex slot.edge.letter slot.edge.parent ++ drop slot_size part.old }
{
    let [low, high] = (slot.edge.parent as u16).to_le_bytes();
    part[0] = slot.vertex.left;
    part[1..33].copy_from_slice(&slot.vertex.counters);
    part[33..40].copy_from_slice(&[slot.edge.letter, low, high, 0, 0, 0, 0]);
}

// Writes slot s of the work buffer, which is lent to the slot writer from that slot's offset on.
#[tactic(auto, unfolding(crate::specs::Bytes::with_slot), using(crate::proofs::SlotLayout::part_back))]
pub fn write_slot(work: &mut [u8], s: usize, slot: Slot)
    requires { s < slot_count (length work.old) }
    ensures { work.new ≡ with_slot work.old s slot.vertex slot.edge.letter slot.edge.parent }
{
    let at = s * SLOT_SIZE;
    put_slot(&mut work[at..], slot);
}

// The vertex in slot s.
#[tactic(auto, unfolding(crate::specs::Bytes::vertex_at))]
pub fn load(work: &[u8], s: usize) -> Vertex
    requires { s < slot_count (length work.now) }
    ensures { result ≡ vertex_at work.now s }
{
    let at = s * SLOT_SIZE;
    let mut counters = [0u8; 32];
    counters.copy_from_slice(&work[at + 1..at + 33]);
    Vertex {
        left: work[at],
        counters,
    }
}

// The letter in slot s.
pub fn letter_of(work: &[u8], s: usize) -> u8
    requires { s < slot_count (length work.now) }
    ensures { result ≡ letter_at work.now s }
{
    work[s * SLOT_SIZE + 33]
}

// The number of the slot from which the vertex in slot s was found.
pub fn parent_of(work: &[u8], s: usize) -> usize
    requires { s < slot_count (length work.now) }
    ensures { result ≡ parent_at work.now s }
{
    let at = s * SLOT_SIZE;
    u16::from_le_bytes([work[at + 34], work[at + 35]]) as usize
}

// The number of letters on the way to slot s. The chain is followed by hand: each parent is read from the bytes of its slot, and an iterator is no
// plainer.
#[tactic(auto, using(crate::proofs::Words::word_none, crate::proofs::Words::word_longer, crate::proofs::Words::word_few))]
pub fn word_length(work: &[u8], s: usize) -> usize
    requires { (s < slot_count (length work.now)) × Falls work.now s }
    ensures { result ≡ length (word_at work.now s) }
{
    let mut n: usize = 0;
    let mut at = s;
    while at > 0 {
        at = parent_of(work, at);
        n += 1;
    }
    n
}

// Writes the letters on the way to slot s to the front of word, first letter first, and answers how many there are. By recursion, a rule of the
// project: the last letter is read first, and there is no heap.
#[tactic(auto, using(crate::proofs::Words::word_none, crate::proofs::Words::word_longer, crate::proofs::Words::letter_behind))]
pub fn read_back(work: &[u8], s: usize, word: &mut [u8]) -> usize
    requires { (s < slot_count (length work.now)) × Falls work.now s × (length (word_at work.now s) ≤ length word.old) }
    ensures count { result ≡ length (word_at work.now s) }
    ensures letters { word.new ≡ word_at work.now s ++ drop result word.old }
{
    if s == 0 {
        return 0;
    }
    let n = read_back(work, parent_of(work, s), word);
    word[n] = letter_of(work, s);
    n + 1
}
