// Counters with their key.
ghost use Rattle.std.specs.Prelude.{◌≡◌};
ghost use Rattle.classes.specs.Keys.{HasKey};

// Counters with their key, by which their class is looked up.
#[derive(Clone, Copy)]
pub struct Keyed<'a> {
    pub counters: &'a [u8; 32],
    pub key: usize,
    pub ghost keyed: { HasKey counters.now key },
}

impl<'a> Keyed<'a> {
    // The counters with their key.
    pub fn new(counters: &'a [u8; 32]) -> Keyed<'a>
        ensures { result.counters.now ≡ counters.now }
    {
        Keyed {
            counters,
            key: crate::key_of(counters),
        }
    }
}
