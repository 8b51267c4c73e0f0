// What a step on a letter needs of two automata.
ghost use Rattle.std.specs.Prelude.{◌≤◌, length};
ghost use Rattle.automaton.specs.Automata.{max_states, max_letters};
ghost use Rattle.step.specs.Masks.{row_place};

use automaton::Automaton;

// Two automata, the accepting states of the left one as a set in a word, what each state of the right one is raised to, and bytes for the masks
// of the right one's transitions on the left one's letters.
#[derive(Clone, Copy)]
pub struct Rules<'a> {
    pub left: &'a Automaton,
    pub right: &'a Automaton,
    pub accepting: u32,
    pub tops: &'a [u8; 32],
    pub masks: &'a [u8],
    pub ghost few_letters: { left.now.letters ≤ max_letters },
    pub ghost few_states: { right.now.states ≤ max_states },
    pub ghost room: { row_place right.now.states left.now.letters 0 ≤ length masks.now },
}
