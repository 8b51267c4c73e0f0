// The right states that have a counter above 0, listed once for all letters on which a place is expanded.
ghost use Rattle.std.specs.Prelude.{◌≡◌, cond, ◌+◌, ◌<◌, ◌≤◌, ltb, take};
ghost use Rattle.automaton.specs.Automata.{max_states};
ghost use Rattle.step.specs.Steps.{PresentOf, places_after};

// The first `count` places hold the states, lowest first; the places after them are room to work in, since there is no heap.
#[derive(Clone, Copy)]
pub struct Present {
    pub count: usize,
    pub places: [u8; 32],
}

impl Present {
    // The states that are listed.
    pub fn listed(&self) -> &[u8]
        requires { self.now.count ≤ 32 }
        ensures { result.now ≡ take self.now.count self.now.places }
    {
        &self.places[..self.count]
    }
}

// One more where the counter is above 0. A call of it also tells its caller that a counter is below 256.
fn counted(count: usize, counter: u8) -> usize
    requires { count < max_states }
    ensures { (result ≡ cond (ltb 0 counter) (count + 1) count) × (counter < 256) }
{
    if 0 < counter { count + 1 } else { count }
}

// The states below `states` with a counter above 0. A state is written to the next place and stays there if it counts.
pub fn present_of(counters: [u8; 32], states: usize) -> Present
    requires { states ≤ max_states }
    ensures listed { PresentOf result.count result.places counters states }
    ensures places { result.places ≡ places_after counters states }
{
    let mut places = [0u8; 32];
    let mut count: usize = 0;
    for p in 0..states {
        places[count] = p as u8;
        count = counted(count, counters[p]);
    }
    Present { count, places }
}
