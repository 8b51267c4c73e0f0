// The header of a Hanoi text, item by item. The crate `hanoi` says what an item is. What the body is read by too is put inline, as in the scanner.
#![tactic(auto)]

ghost use Rattle.std.specs.Prelude.{◌≡◌, Bool, ◌&&◌, cond, ℕ, ◌≤◌, ◌<◌, leb, ltb, length, is_ok, IfOk};
ghost use Rattle.tokens.specs.Scanners.{Ahead, Moved};
ghost use Rattle.hanoi.specs.Numbers.{text_number};
ghost use Rattle.hanoi.specs.Reading.{Step, expect, expect_number, check, states_item, start_item, propositions_item, names, acc_name_item, acceptance_item, header};
ghost use Rattle.hanoi_header.specs.Items.{onward, onward_by};
ghost use Rattle.hanoi_header.specs.Headers.{start_step, InRanges};

use automaton::MAX_STATES;
use format::Numbered;
use hanoi::TextRefusal;
use std::ops::Range;
use tokens::Scanner;

// A header's values.
#[derive(Clone, Copy, Default)]
pub struct Header {
    pub states: usize,
    pub start: usize,
    pub propositions: usize,
}

// What refuses a text: a refusal, or any number in its place. One of them says that the text lies outside the subset.
pub trait Refusing: Numbered + Drop {
    fn outside_subset() -> Self
        ensures { Self.number result ≡ 17 };
}

impl Refusing for TextRefusal {
    fn outside_subset() -> TextRefusal {
        TextRefusal::OutsideSubset
    }
}

impl Refusing for usize {
    fn outside_subset() -> usize {
        TextRefusal::OutsideSubset as usize
    }
}

// Passes the token that the word spells.
#[inline(always)]
#[tactic(auto, using(crate::proofs::ItemLaws::expect_passed, crate::proofs::ItemLaws::expect_missed))]
pub fn expect(scanner: &mut Scanner, word: &[u8]) -> Result<(), TextRefusal>
    ensures meaning { (go : ℕ → Step) → expect word.now scanner.old.text.now scanner.old.at go ≡ onward result (λ _. go scanner.new.at) }
    ensures moved { Moved (is_ok result) (length word.now) scanner.old scanner.new }
{
    if scanner.token(word) {
        Ok(())
    } else {
        Err(TextRefusal::OutsideSubset)
    }
}

// Passes the number that stands here, if it is in the range; the others get the refusal. A refusal leaves the scanner where it was.
#[inline(always)]
pub fn number_in<R: Refusing>(
    scanner: &mut Scanner,
    range: Range<usize>,
    refusal: R,
) -> Result<usize, R>
    requires { range.end ≤ 1000 }
    ensures meaning { (ok : ℕ → Bool) → ((v : ℕ) → ok v ≡ (leb range.start v && ltb v range.end)) → (go : ℕ → ℕ → Step)
        → expect_number scanner.old.text.now scanner.old.at (λ v l. check (ok v) (R.number refusal) (go v l)) ≡ onward_by R.number result (λ v. go v scanner.new.at) }
    ensures within { IfOk result (λ v. (range.start ≤ v) × (v < range.end)) }
    ensures moved { Moved (is_ok result) 1 scanner.old scanner.new }
{
    let at = scanner.at;
    let number = scanner.number().ok_or(R::outside_subset())?;
    if range.contains(&number) {
        Ok(number)
    } else {
        scanner.at = at;
        Err(refusal)
    }
}

// The same of the number behind the token that the word spells.
#[inline(always)]
pub fn numbered(
    scanner: &mut Scanner,
    word: &[u8],
    range: Range<usize>,
    refusal: TextRefusal,
) -> Result<usize, TextRefusal>
    requires { range.end ≤ 1000 }
    ensures meaning { (ok : ℕ → Bool) → ((v : ℕ) → ok v ≡ (leb range.start v && ltb v range.end)) → (go : ℕ → ℕ → Step)
        → expect word.now scanner.old.text.now scanner.old.at
        (λ j. expect_number scanner.old.text.now j (λ v l. check (ok v) (text_number refusal) (go v l)))
        ≡ onward result (λ v. go v scanner.new.at) }
    ensures within { IfOk result (λ v. (range.start ≤ v) × (v < range.end)) }
    ensures moved { Moved (is_ok result) 1 scanner.old scanner.new }
{
    let at = scanner.at;
    expect(scanner, word)?;
    match number_in(scanner, range, refusal) {
        Ok(number) => Ok(number),
        Err(refusal) => {
            scanner.at = at;
            Err(refusal)
        }
    }
}

// So many quoted names.
#[tactic(auto, using(crate::proofs::ItemLaws::name_passed, crate::proofs::ItemLaws::no_names))]
fn names(scanner: &mut Scanner, count: usize) -> Result<(), TextRefusal>
    ensures meaning { (go : ℕ → Step) → names count scanner.old.text.now scanner.old.at go ≡ onward result (λ _. go scanner.new.at) }
    ensures ahead { Ahead 0 scanner.old scanner.new }
{
    for _ in 0..count {
        if !scanner.name() {
            return Err(TextRefusal::OutsideSubset);
        }
    }
    Ok(())
}

// `acc-name: Buchi`, which may be left out.
#[tactic(auto, using(crate::proofs::ItemLaws::kind_missed))]
fn acc_name(scanner: &mut Scanner) -> Result<(), TextRefusal>
    ensures meaning { (go : ℕ → Step) → acc_name_item scanner.old.text.now scanner.old.at go ≡ onward result (λ _. go scanner.new.at) }
    ensures ahead { Ahead 0 scanner.old scanner.new }
{
    if scanner.token(b"acc-name:") {
        expect(scanner, b"Buchi")
    } else {
        Ok(())
    }
}

// `Acceptance: 1 Inf(0)`, and what ends the header.
fn acceptance(scanner: &mut Scanner) -> Result<(), TextRefusal>
    ensures meaning { (go : ℕ → Step) → acceptance_item scanner.old.text.now scanner.old.at go ≡ onward result (λ _. go scanner.new.at) }
    ensures ahead { Ahead 0 scanner.old scanner.new }
{
    expect(scanner, b"Acceptance:")?;
    expect(scanner, b"1")?;
    expect(scanner, b"Inf")?;
    expect(scanner, b"(")?;
    expect(scanner, b"0")?;
    expect(scanner, b")")?;
    expect(scanner, b"--BODY--")
}

// What the text begins with, and the number of states.
fn states(scanner: &mut Scanner) -> Result<usize, TextRefusal>
    ensures meaning { scanner.old.at ≡ 0 → (go : ℕ → ℕ → Step) → states_item scanner.old.text.now go ≡ onward result (λ n. go n scanner.new.at) }
    ensures within { IfOk result (λ n. (1 ≤ n) × (n ≤ 32)) }
    ensures ahead { Ahead (cond (is_ok result) 1 0) scanner.old scanner.new }
{
    expect(scanner, b"HOA:")?;
    expect(scanner, b"v1")?;
    numbered(
        scanner,
        b"States:",
        1..MAX_STATES + 1,
        TextRefusal::HeaderValues,
    )
}

// The initial state, one of so many.
fn start(scanner: &mut Scanner, states: usize) -> Result<usize, TextRefusal>
    requires { states ≤ 32 }
    ensures meaning { (go : ℕ → ℕ → Step) → start_item states scanner.old.text.now scanner.old.at go ≡ onward result (λ q. go q scanner.new.at) }
    ensures within { IfOk result (λ q. q < states) }
    ensures moved { Moved (is_ok result) 1 scanner.old scanner.new }
{
    numbered(scanner, b"Start:", 0..states, TextRefusal::HeaderValues)
}

// The number of propositions.
fn propositions(scanner: &mut Scanner) -> Result<usize, TextRefusal>
    ensures meaning { (go : ℕ → ℕ → Step) → propositions_item scanner.old.text.now scanner.old.at go ≡ onward result (λ k. go k scanner.new.at) }
    ensures within { IfOk result (λ k. k ≤ 4) }
    ensures moved { Moved (is_ok result) 1 scanner.old scanner.new }
{
    numbered(scanner, b"AP:", 0..5, TextRefusal::ManyPropositions)
}

// The items of the header, one after another; a refusal may leave the scanner further on.
#[tactic(auto, unfolding(hanoi::specs::Reading::header))]
fn items(scanner: &mut Scanner) -> Result<Header, TextRefusal>
    ensures meaning { scanner.old.at ≡ 0 → start_step result scanner.new.at ≡ header scanner.old.text.now }
    ensures within { IfOk result InRanges }
    ensures ahead { Ahead (cond (is_ok result) 1 0) scanner.old scanner.new }
{
    let states = states(scanner)?;
    let start = start(scanner, states)?;
    let propositions = propositions(scanner)?;
    names(scanner, propositions)?;
    acc_name(scanner)?;
    acceptance(scanner)?;
    Ok(Header {
        states,
        start,
        propositions,
    })
}

// The whole header, from the front of the text. A refusal leaves the scanner where it was.
pub fn read_header(scanner: &mut Scanner) -> Result<Header, TextRefusal>
    ensures meaning { scanner.old.at ≡ 0 → start_step result scanner.new.at ≡ header scanner.old.text.now }
    ensures within { IfOk result InRanges }
    ensures moved { Moved (is_ok result) 1 scanner.old scanner.new }
{
    let at = scanner.at;
    match items(scanner) {
        Ok(header) => Ok(header),
        Err(refusal) => {
            scanner.at = at;
            Err(refusal)
        }
    }
}
