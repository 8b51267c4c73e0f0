// Counters after a step, as the index knows them.
use classes::Keyed;

// Counters after a step with their key, and their class as far as it is known: a number, 0 for none, as the index holds it.
#[derive(Clone, Copy)]
pub struct Side<'a> {
    pub keyed: Keyed<'a>,
    pub class: usize,
}

// The counters after a step to a left target: where it is one of the accepting states, and where it is another.
#[derive(Clone, Copy)]
pub struct Sides<'a> {
    pub accepting: u32,
    pub low: Side<'a>,
    pub other: Side<'a>,
}
