// The offer call on an entry.
ghost use Rattle.std.specs.Prelude.{◌≡◌, ◌≤◌, length, take};
ghost use Rattle.automaton.specs.Automata.{InRange};
ghost use Rattle.answers.specs.Outcomes.{comparison_of};
ghost use Rattle.history.specs.OfferAnswers.{offer_answer_by, offer_answer_of};
ghost use Rattle.history.specs.OfferDemand.{OfferDemand1};
ghost use Rattle.history.specs.Offers.{
  offer_vetting,
  back_answer,
  walks_of,
  walks_answer,
  walks_work,
  walks_word,
  is_taken,
  offer_of,
  part_length,
};
ghost use Rattle.entry.specs.Vetting.{VettedBy};

use answers::{Containment, WalkRefusal};
use automaton::{Automaton, Valid};
use conditions::{MAX_EDITION, malformed, smaller};
use contain::compare;
use graph::Bound;
use history::{Entry, OfferRefusal, Offered, RefusesOffer, Walk};

// The checks of an offer, against an entry whose automaton is in range: the bound that passes.
fn vet(entry: &Entry, offer: Valid, bound: u64) -> Result<Bound, OfferRefusal>
    requires { InRange entry.now.held }
    ensures { VettedBy result bound (offer_vetting entry.now bound offer.entry.automaton.now) offer.entry.automaton.now }
{
    let bound = Bound::new(bound).ok_or(OfferRefusal::Bound)?;
    if entry.held.letters != offer.automaton.letters {
        return Err(OfferRefusal::Letters);
    }
    if deadend::has_dead(offer) {
        return Err(OfferRefusal::Dead);
    }
    let held = Valid {
        automaton: &entry.held,
    };
    if !smaller(offer, held) || entry.edition == MAX_EDITION {
        return Err(OfferRefusal::NotSmaller);
    }
    Ok(bound)
}

// The answer by the back walk, after a forward walk of so many vertices.
fn back_answer(
    forward: usize,
    back: Result<Containment, WalkRefusal>,
) -> Result<Offered, OfferRefusal>
    ensures { offer_answer_of result ≡ back_answer forward (comparison_of back) }
{
    match back {
        Ok(Containment::Contained(back)) => Ok(Offered::Taken { forward, back }),
        Ok(Containment::Differs { place, len }) => Ok(Offered::Back {
            forward,
            back: place,
            len,
        }),
        Err(refusal) => Err(OfferRefusal::Walk(Walk::Back, refusal)),
    }
}

// The forward walk and, where it finds containment, the back walk, which begins in slot 0 again.
fn walk_both(
    held: Valid,
    offer: Valid,
    bound: Bound,
    work: &mut [u8],
    word: &mut [u8],
) -> Result<Offered, OfferRefusal>
    ensures answer { offer_answer_of result
        ≡ walks_answer (walks_of held.entry.automaton.now offer.entry.automaton.now bound.value work.old word.old) }
    ensures work { work.new
        ≡ walks_work (walks_of held.entry.automaton.now offer.entry.automaton.now bound.value work.old word.old) }
    ensures word { word.new
        ≡ walks_word (walks_of held.entry.automaton.now offer.entry.automaton.now bound.value work.old word.old) }
{
    match compare(held, offer, bound, work, word) {
        Ok(Containment::Contained(forward)) => back_answer(
            forward,
            compare(offer, held, bound, work, word),
        ),
        Ok(Containment::Differs { place, len }) => Ok(Offered::Forward {
            forward: place,
            len,
        }),
        Err(refusal) => Err(OfferRefusal::Walk(Walk::Forward, refusal)),
    }
}

// Whether the answer is "taken".
pub fn is_taken<R: RefusesOffer>(offered: Result<Offered, R>) -> bool
    ensures { result ≡ is_taken (offer_answer_by R.table_row offered) }
{
    matches!(offered, Ok(Offered::Taken { .. }))
}

// Offers the file's automaton as the next edition: the answer, the entry, which only "taken" changes, every byte of work and word, and demand 1 in its
// own words.
#[tactic(auto, unfolding(history::specs::Offers::offer_of, history::specs::Offers::offer_checks, automaton::specs::Automata::bare))]
pub fn offer_entry(
    entry: &mut Entry,
    file: &[u8],
    bound: u64,
    work: &mut [u8],
    word: &mut [u8],
) -> Result<Offered, OfferRefusal>
    ensures answer { offer_answer_of result ≡ (offer_of entry.old file.now bound work.old word.old).answer }
    ensures entry { entry.new ≡ (offer_of entry.old file.now bound work.old word.old).entry }
    ensures work { work.new ≡ (offer_of entry.old file.now bound work.old word.old).work }
    ensures word { word.new ≡ (offer_of entry.old file.now bound work.old word.old).word }
    ensures demand1 { OfferDemand1 entry.old file.now bound work.old word.old }
{
    if malformed(entry) {
        return Err(OfferRefusal::Malformed);
    }
    if !entry.filled {
        return Err(OfferRefusal::Empty);
    }
    let mut automaton = Automaton::empty();
    file::read(file, &mut automaton).map_err(OfferRefusal::File)?;
    let offer = Valid {
        automaton: &automaton,
    };
    let bound = vet(entry, offer, bound)?;
    let held = Valid {
        automaton: &entry.held,
    };
    let offered = walk_both(held, offer, bound, work, word);
    if is_taken(offered) {
        entry.edition += 1;
        entry.held = automaton;
    }
    offered
}

// The length of the word that an answer comes with: 0 where there is no word, so that the part handed out is empty then.
pub fn part_length<R: RefusesOffer>(offered: Result<Offered, R>) -> usize
    ensures { result ≡ part_length (offer_answer_by R.table_row offered) }
{
    match offered {
        Ok(Offered::Forward { len, .. } | Offered::Back { len, .. }) => len,
        Ok(Offered::Taken { .. }) | Err(_) => 0,
    }
}

// The word that an offer's answer comes with, as the written part of the word buffer that the offer left, which is not copied; without
// a word the part is empty.
pub fn offer_part<'a, R: RefusesOffer>(
    offered: Result<Offered, R>,
    word: &'a mut [u8],
) -> &'a mut [u8]
    requires { part_length (offer_answer_by R.table_row offered) ≤ length word.old }
    ensures part { result.now ≡ take (part_length (offer_answer_by R.table_row offered)) word.old }
    ensures place { result.ref_ptr ≡ word.entry.ref_ptr }
{
    let n = part_length(offered);
    &mut word[..n]
}
