// How a vertex is found.
ghost use Rattle.std.specs.Prelude.{◌<◌};

// A vertex is found by a letter, from the vertex at a place.
#[derive(Clone, Copy)]
pub struct Edge {
    pub letter: u8,
    pub parent: usize,
    pub ghost in_slot: { parent < 65536 },
}
