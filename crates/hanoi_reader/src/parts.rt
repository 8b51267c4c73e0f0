// The body of a Hanoi text: what stands at a place of it, and what it does to the automaton so far.
ghost use Rattle.std.specs.Prelude.{◌≡◌, Bool, ℕ, ◌≤◌, ◌<◌};
ghost use Rattle.tokens.specs.Scanners.{Ahead};
ghost use Rattle.hanoi.specs.Reading.{Step, acceptance};
ghost use Rattle.hanoi_header.specs.Items.{onward};
ghost use Rattle.hanoi_reader.specs.Taking.{with_mask, Holds};

use automaton::{Automaton, add_member, is_member};
use hanoi::TextRefusal;
use hanoi_header::{expect, number_in, numbered};
use label_reader::label_at;
use tokens::Scanner;

// A body as far as it is read: the automaton so far, which is lent, the number of propositions, the states that are declared, and the state that the next edge
// belongs to. The fact says that it holds a description of what is read, and not which.
#[derive(Drop)]
pub struct Body<'a> {
    pub automaton: &'a mut Automaton,
    pub propositions: usize,
    pub declared: [u8; 4],
    pub latest: Option<usize>,
    pub ghost holds: { ∥ Holds propositions declared latest automaton.now ∥₁ },
}

// `{0}` behind a state's number, or nothing: whether the state accepts.
fn mark_at(scanner: &mut Scanner) -> Result<bool, TextRefusal>
    ensures meaning { (go : Bool → ℕ → Step) → acceptance scanner.old.text.now scanner.old.at go ≡ onward result (λ m. go m scanner.new.at) }
    ensures ahead { Ahead 0 scanner.old scanner.new }
{
    if !scanner.token(b"{") {
        return Ok(false);
    }
    expect(scanner, b"0")?;
    expect(scanner, b"}")?;
    Ok(true)
}

// Adds the transitions from q to r on those letters whose bit is set in the mask.
fn add_letters(automaton: &mut Automaton, q: usize, mask: u16, r: usize)
    requires { (automaton.old.letters ≤ 16) × (q < 32) × (r < 32) }
    ensures { automaton.new ≡ with_mask automaton.old q mask r automaton.old.letters 0 }
{
    for a in 0..automaton.letters {
        if relations::has(u32::from(mask), a) {
            automaton.add_transition(q, a, r);
        }
    }
}

impl<'a> Body<'a> {
    ghost use Rattle.std.specs.Prelude.{◌≡◌, None, Some, is_ok, replicate};
    ghost use Rattle.tokens.specs.Scanners.{Ahead, Moved};
    ghost use Rattle.hanoi.specs.Descriptions.{Description};
    ghost use Rattle.hanoi.specs.Reading.{state_at, edge_at, part_at};
    ghost use Rattle.hanoi_reader.specs.Taking.{Holds, goes};
    ghost use Rattle.hanoi_reader.specs.Bodies.{HeldBy, Taken};

    // Nothing is declared yet.
    pub fn new(propositions: usize, automaton: &'a mut Automaton) -> Body<'a>
        requires { ∥ Holds propositions (replicate 4 0) None automaton.old ∥₁ }
        ensures same_automaton { result.automaton.ghost_name ≡ automaton.entry.ghost_name }
        ensures automaton { result.automaton.now ≡ automaton.old }
        ensures begun { (result.propositions ≡ propositions) × (result.declared ≡ replicate 4 0) × (result.latest ≡ None) }
    {
        Body {
            automaton,
            propositions,
            declared: [0; 4],
            latest: None,
        }
    }

    // Takes the state behind `State:`. A refusal leaves the body as it was.
    fn take_state(&mut self, scanner: &mut Scanner) -> Result<(), TextRefusal>
        ensures taken { (D : Description) → HeldBy D self.old
            → Taken scanner.old D (state_at scanner.old.text.now scanner.old.at D) self.old scanner.new self.new (goes result) }
        ensures ahead { Ahead 0 scanner.old scanner.new }
        ensures same_automaton { self.new.automaton.ghost_name ≡ self.old.automaton.ghost_name }
    {
        let states = 0..self.automaton.states;
        let q = number_in(scanner, states, TextRefusal::OutsideHeader)?;
        if is_member(&self.declared, q) {
            return Err(TextRefusal::OutsideSubset);
        }
        let accepting = mark_at(scanner)?;
        add_member(&mut self.declared, q);
        self.latest = Some(q);
        if accepting {
            self.automaton.add_accepting(q);
        }
        Ok(())
    }

    // Takes the edge of state q behind its `[`. A refusal leaves the body as it was.
    fn take_edge(&mut self, scanner: &mut Scanner, q: usize) -> Result<(), TextRefusal>
        requires { self.old.latest ≡ Some q }
        ensures taken { (D : Description) → HeldBy D self.old
            → Taken scanner.old D (edge_at scanner.old.text.now scanner.old.at q D) self.old scanner.new self.new (goes result) }
        ensures ahead { Ahead 0 scanner.old scanner.new }
        ensures same_automaton { self.new.automaton.ghost_name ≡ self.old.automaton.ghost_name }
    {
        let mask = label_at(scanner, self.propositions).ok_or(TextRefusal::OutsideSubset)?;
        let r = numbered(
            scanner,
            b"]",
            0..self.automaton.states,
            TextRefusal::OutsideHeader,
        )?;
        add_letters(self.automaton, q, mask, r);
        Ok(())
    }

    // What `take_part` does, but that a refusal may leave the scanner further on.
    fn take_here(&mut self, scanner: &mut Scanner) -> Result<bool, TextRefusal>
        ensures taken { (D : Description) → HeldBy D self.old
            → Taken scanner.old D (part_at scanner.old.text.now scanner.old.at D) self.old scanner.new self.new result }
        ensures ahead { Ahead 0 scanner.old scanner.new }
        ensures same_automaton { self.new.automaton.ghost_name ≡ self.old.automaton.ghost_name }
    {
        // White space is passed once, and not by each of the three words.
        scanner.skip();
        if scanner.token(b"--END--") {
            scanner.skip();
            if scanner.at != scanner.text.len() {
                return Err(TextRefusal::OutsideSubset);
            }
            return Ok(false);
        }
        if scanner.token(b"State:") {
            return self.take_state(scanner).and(Ok(true));
        }
        expect(scanner, b"[")?;
        let q = self.latest.ok_or(TextRefusal::OutsideSubset)?;
        self.take_edge(scanner, q).and(Ok(true))
    }

    // Takes what stands at the scanner, a state, or an edge of the latest state: whether the reading goes on. Behind the end there is nothing to take; a
    // refusal and the end leave the body as it was, and a refusal the scanner too.
    pub fn take_part(&mut self, scanner: &mut Scanner) -> Result<bool, TextRefusal>
        ensures taken { (D : Description) → HeldBy D self.old
            → Taken scanner.old D (part_at scanner.old.text.now scanner.old.at D) self.old scanner.new self.new result }
        ensures moved { Moved (is_ok result) 0 scanner.old scanner.new }
        ensures same_automaton { self.new.automaton.ghost_name ≡ self.old.automaton.ghost_name }
    {
        let at = scanner.at;
        match self.take_here(scanner) {
            Ok(goes_on) => Ok(goes_on),
            Err(refusal) => {
                scanner.at = at;
                Err(refusal)
            }
        }
    }
}
