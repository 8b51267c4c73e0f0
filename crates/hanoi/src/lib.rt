// The theory of Hanoi texts (docs/reference.md, "Hanoi texts"): the grammar, the first fault, the automaton that a text describes, the call that writes it, its
// table and its demand 1. There is no code here but the type of a refusal and its number; the crate `hanoi_reader` has the rest.
#![tactic(auto)]

ghost use Rattle.hanoi.specs.Numbers.{text_number};

use format::Numbered;

// Why a text is refused: refusals 3, 4, 17 and 18.
#[derive(Clone, Copy, Debug, PartialEq, Eq)]
pub enum TextRefusal {
    HeaderValues = 3,
    OutsideHeader,
    OutsideSubset = 17,
    ManyPropositions,
}

impl Numbered for TextRefusal {
    ghost number = { text_number };

    fn number(self) -> usize {
        self as usize
    }
}
