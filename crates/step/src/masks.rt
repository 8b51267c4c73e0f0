// The right automaton's transitions as masks, a byte for each pair of states and letter: 255 where there is a transition from p on
// letter a to r, and else 0, at place (a * states + p) * 32 + r. A step raises all targets of a state with a few wide operations.
// The bytes and the number of states are two parameters, each with the room that it needs: a struct of the two would ask for the same room at each place.
ghost use Rattle.std.specs.Prelude.{◌≡◌, ◌+◌, ◌*◌, ◌<◌, ◌≤◌, length};
ghost use Rattle.automaton.specs.Automata.{max_states, max_letters};
ghost use Rattle.step.specs.Masks.{mask, row_place, row_masks, letter_masks, masks_after};

use automaton::{Automaton, MAX_STATES};

// The mask of a test.
fn mask(test: bool) -> u8
    ensures { result ≡ mask «test» }
{
    if test { 255 } else { 0 }
}

// Writes the masks of the targets of p on a letter; the other bytes stay.
#[tactic(auto, using(relations::proofs::Rows::changed_none, relations::proofs::Rows::changed_more))]
fn fill_row(masks: &mut [u8], automaton: &Automaton, p: usize, letter: usize)
    requires { (p < max_states) × (letter < max_letters) × (row_place automaton.now.states letter p + max_states ≤ length masks.old) }
    ensures { masks.new ≡ row_masks automaton.now.transitions automaton.now.states p letter masks.old }
{
    let at = (letter * automaton.states + p) * MAX_STATES;
    for r in 0..MAX_STATES {
        masks[at + r] = mask(automaton.has_transition(p, letter, r));
    }
}

// Writes the masks of the automaton's states on a letter; the other bytes stay.
#[tactic(auto, using(crate::proofs::MaskRows::rows_none, crate::proofs::MaskRows::rows_next))]
fn fill_letter(masks: &mut [u8], automaton: &Automaton, letter: usize)
    requires { (automaton.now.states ≤ max_states) × (letter < max_letters)
        × (row_place automaton.now.states letter automaton.now.states ≤ length masks.old) }
    ensures { masks.new ≡ letter_masks automaton.now.transitions automaton.now.states letter masks.old }
{
    for p in 0..automaton.states {
        fill_row(masks, automaton, p, letter);
    }
}

// Writes the masks of the automaton's states on the letters below `letters`, those of the left automaton; the other bytes stay.
#[tactic(auto, unfolding(crate::specs::Masks::masks_after), using(crate::proofs::MaskRows::letters_next))]
pub fn fill(masks: &mut [u8], automaton: &Automaton, letters: usize)
    requires { (automaton.now.states ≤ max_states) × (letters ≤ max_letters) × (letters * automaton.now.states * max_states ≤ length masks.old) }
    ensures { masks.new ≡ masks_after automaton.now.transitions automaton.now.states letters masks.old }
{
    for a in 0..letters {
        fill_letter(masks, automaton, a);
    }
}
