// Automata in range, lent.
ghost use Rattle.automaton.specs.Automata.{InRange};

use crate::Automaton;

// An automaton that is lent and is in range, as those of files and of well-formed entries are.
#[derive(Clone, Copy)]
pub struct Valid<'a> {
    pub automaton: &'a Automaton,
    pub ghost in_range: { InRange automaton.now },
}
