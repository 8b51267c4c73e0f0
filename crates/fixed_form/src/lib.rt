// The theory of the fixed form of a file (docs/reference.md, "The fixed form"): the file, the call that writes it, its table and its demand 1. There
// is no code here but the type of a refusal; the crate `writer` has it.
#![tactic(auto)]

// Why nothing is written: what was to be written is refused, or the bytes find no room (16), and then it says how many they are.
#[derive(Clone, Copy, Debug, PartialEq, Eq)]
pub enum WriteRefusal<R> {
    Unread(R),
    NoRoom(usize),
}
