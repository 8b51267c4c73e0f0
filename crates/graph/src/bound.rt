// Bounds on the lag.
ghost use Rattle.std.specs.Prelude.{◌≡◌, ◌≤◌, leb, cond, Some, None};
ghost use Rattle.std.specs.Option.{option_map};
ghost use Rattle.graph.specs.LagGraph.{max_bound};

// The largest bound.
const MAX_BOUND: u64 = 14;

// A bound on the lag, at most the largest.
#[derive(Clone, Copy)]
pub struct Bound {
    pub value: usize,
    pub ghost within: { value ≤ max_bound },
}

impl Bound {
    // The bound that is this number, where it is not above the largest.
    pub fn new(n: u64) -> Option<Bound>
        ensures { option_map (λ b. b.value) result ≡ cond (leb n max_bound) (Some n) None }
    {
        if n > MAX_BOUND {
            return None;
        }
        Some(Bound { value: n as usize })
    }
}
