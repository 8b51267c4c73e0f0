// The label of a Hanoi edge, taken from a text: its truth on letters 0 to 15, a bit for each. Disjunctions, conjunctions, operands and parentheses call each
// other, and behind each `!` or `(` one less may open.
#![tactic(auto)]

ghost use Rattle.std.specs.Prelude.{◌≡◌, ◌≤◌, cond, is_some};
ghost use Rattle.std.specs.Option.{option_map};
ghost use Rattle.labels.specs.Labels.{proposition_mask};
ghost use Rattle.labels.specs.LabelReading.{atom_at, operand_at, conjunction, disjunction, closed, label_at};
ghost use Rattle.tokens.specs.Scanners.{Ahead, Moved};
ghost use Rattle.label_reader.specs.Truths.{answer_of};

use tokens::Scanner;

// Labels of so many propositions.
#[derive(Clone, Copy)]
struct Labels {
    propositions: usize,
    ghost few: { propositions ≤ 4 },
}

// The letters 0 to 15 that have bit p.
fn proposition_mask(p: usize) -> u16
    ensures { result ≡ proposition_mask p }
{
    match p {
        0 => 0xAAAA,
        1 => 0xCCCC,
        2 => 0xF0F0,
        _ => 0xFF00,
    }
}

impl Labels {
    // t, f or a proposition that there is. Inline, so the place stays in a register.
    #[inline(always)]
    #[tactic(auto, using(crate::proofs::ReadTruths::atom_steps))]
    fn atom_at(self, scanner: &mut Scanner) -> Option<u16>
        ensures meaning { option_map (λ m. (m, scanner.new.at)) result ≡ answer_of (atom_at scanner.old.text.now self.propositions scanner.old.at) }
        ensures moved { Ahead (cond (is_some result) 1 0) scanner.old scanner.new }
    {
        if scanner.take(b't') {
            return Some(0xFFFF);
        }
        if scanner.take(b'f') {
            return Some(0);
        }
        let p = scanner.number()?;
        if p >= self.propositions {
            return None;
        }
        Some(proposition_mask(p))
    }

    // Conjunctions joined by `|`. A function beside and_at, since a label is read by functions for or, and, not and parentheses, a rule of the project.
    #[cycle(label)]
    fn or_at(self, scanner: &mut Scanner, depth: usize) -> Option<u16>
        ensures meaning { option_map (λ m. (m, scanner.new.at)) result
            ≡ answer_of (disjunction scanner.old.text.now (operand_at scanner.old.text.now self.propositions depth) scanner.old.at) }
        ensures moved { Ahead (cond (is_some result) 1 0) scanner.old scanner.new }
    {
        let mut mask = self.and_at(scanner, depth)?;
        while scanner.mark(b'|') {
            mask |= self.and_at(scanner, depth)?;
        }
        Some(mask)
    }

    // Operands joined by `&`.
    #[cycle(label)]
    fn and_at(self, scanner: &mut Scanner, depth: usize) -> Option<u16>
        ensures meaning { option_map (λ m. (m, scanner.new.at)) result
            ≡ answer_of (conjunction scanner.old.text.now (operand_at scanner.old.text.now self.propositions depth) scanner.old.at) }
        ensures moved { Ahead (cond (is_some result) 1 0) scanner.old scanner.new }
    {
        let mut mask = self.not_at(scanner, depth)?;
        while scanner.mark(b'&') {
            mask &= self.not_at(scanner, depth)?;
        }
        Some(mask)
    }

    // An operand: a negation, a parenthesis, t, f or a proposition; `depth` more `!` and parentheses may open in it.
    #[cycle(label)]
    #[tactic(auto, using(crate::proofs::ReadTruths::operand_steps))]
    fn not_at(self, scanner: &mut Scanner, depth: usize) -> Option<u16>
        ensures meaning { option_map (λ m. (m, scanner.new.at)) result ≡ answer_of (operand_at scanner.old.text.now self.propositions depth scanner.old.at) }
        ensures moved { Ahead (cond (is_some result) 1 0) scanner.old scanner.new }
    {
        scanner.skip();
        if depth == 0 {
            return self.atom_at(scanner);
        }
        if scanner.take(b'!') {
            return Some(!self.not_at(scanner, depth - 1)?);
        }
        if scanner.take(b'(') {
            return self.paren_at(scanner, depth - 1);
        }
        self.atom_at(scanner)
    }

    // The label behind an opened parenthesis, and the closing one.
    #[cycle(label)]
    #[tactic(auto, using(crate::proofs::ReadTruths::paren_steps))]
    fn paren_at(self, scanner: &mut Scanner, depth: usize) -> Option<u16>
        ensures meaning { option_map (λ m. (m, scanner.new.at)) result
            ≡ answer_of (closed scanner.old.text.now (disjunction scanner.old.text.now (operand_at scanner.old.text.now self.propositions depth) scanner.old.at)) }
        ensures moved { Ahead (cond (is_some result) 1 0) scanner.old scanner.new }
    {
        let mask = self.or_at(scanner, depth)?;
        scanner.mark(b')').then_some(mask)
    }
}

// Takes the label that stands here: its truth on letters 0 to 15. Where none does, the scanner stays where it was.
#[tactic(auto, unfolding(labels::specs::LabelReading::label_at))]
pub fn label_at(scanner: &mut Scanner, propositions: usize) -> Option<u16>
    requires { propositions ≤ 4 }
    ensures meaning { option_map (λ m. (m, scanner.new.at)) result ≡ answer_of (label_at scanner.old.text.now propositions scanner.old.at) }
    ensures moved { Moved (is_some result) 1 scanner.old scanner.new }
{
    let at = scanner.at;
    let labels = Labels { propositions };
    let Some(mask) = labels.or_at(scanner, 64) else {
        scanner.at = at;
        return None;
    };
    Some(mask)
}
