// The functions that vendors link: thin, each over the crate that does the work. The crate `kernel_c` exports them to C.
#![tactic(auto)]

ghost use Rattle.std.specs.Prelude.{◌≡◌};
ghost use Rattle.fixed_form.specs.Write.{write_of};
ghost use Rattle.hanoi.specs.Hanoi.{hanoi_of};
ghost use Rattle.answers.specs.Outcomes.{outcome_for};
ghost use Rattle.answers.specs.Contain.{outcome_of, work_of, word_buffer, part_length, word_part};
ghost use Rattle.answers.specs.Demand2.{Demand2};
ghost use Rattle.boundary.specs.Numbers.{outcome_number, write_number};
ghost use Rattle.kernel.specs.EntryCalls.{
  open_bytes_number,
  open_bytes,
  offer_bytes_number,
  offer_bytes,
  offer_bytes_work,
  offer_bytes_word,
  verdict_bytes_number,
};
ghost use Rattle.kernel.specs.BytesDemand1.{
  ContainCallDemand1,
  EntryOpenDemand1,
  EntryOfferDemand1,
  EntryVerdictDemand1,
  FileWriteDemand1,
  HanoiWriteDemand1,
};

use answers::{ContainRefusal, Containment};
use boundary::bytes::{decode, encode, is_entry};
use boundary::numbers::{offer_number, open_number, outcome_number, verdict_number, write_number};

// The number of refusal 9, which bytes that are no entry get: one of the C interface, since no call of `entry` can refuse what is no entry.
const NO_ENTRY: u64 = 109;

// Whether the first file's automaton is contained in the second's at the bound, as one number: kind + 2^8 count + 2^24 word
// length. The walk's slots stand in work; the word of "differs" stands in front in word.
pub fn contain(first: &[u8], second: &[u8], bound: u64, work: &mut [u8], word: &mut [u8]) -> u64
    ensures number { result ≡ outcome_number (outcome_of first.now second.now bound work.old word.old) }
    ensures work { work.new ≡ work_of first.now second.now bound work.old word.old }
    ensures word { word.new ≡ word_buffer first.now second.now bound work.old word.old }
    ensures demand1 { ContainCallDemand1 first.now second.now bound work.old word.old }
    ensures demand2 { Demand2 first.now second.now bound work.old word.old }
{
    outcome_number(contain::contain(first, second, bound, work, word))
}

// The length of the word that an outcome comes with: 0 where there is no word, so that the part handed out is empty then.
fn part_length(outcome: Result<Containment, ContainRefusal>) -> usize
    ensures { result ≡ part_length (outcome_for outcome) }
{
    match outcome {
        Ok(Containment::Differs { len, .. }) => len,
        Ok(Containment::Contained(_)) | Err(_) => 0,
    }
}

// The outcome's number and the word that contain comes with, as the front of the buffer that was lent for it, which is not copied; without a
// word the part is empty.
#[tactic(auto, unfolding(answers::specs::Contain::word_part))]
pub fn contain_part<'a>(
    first: &[u8],
    second: &[u8],
    bound: u64,
    work: &mut [u8],
    word: &'a mut [u8],
) -> (u64, &'a mut [u8])
    ensures number { result.0
        ≡ outcome_number (outcome_of first.now second.now bound work.old word.old) }
    ensures part { result.1.now ≡ word_part first.now second.now bound work.old word.old }
    ensures place { result.1.ref_ptr ≡ word.entry.ref_ptr }
    ensures work { work.new ≡ work_of first.now second.now bound work.old word.old }
{
    let outcome = contain::contain(first, second, bound, work, word);
    let n = part_length(outcome);
    (outcome_number(outcome), &mut word[..n])
}

// Opens the empty entry in these bytes with the file's automaton, as one number: 0 opened, 100 plus a refusal's number.
#[tactic(auto, using(crate::proofs::EntryCallLaws::entry_long), unfolding(crate::specs::EntryCalls::open_bytes_number, crate::specs::EntryCalls::open_bytes))]
pub fn entry_open(entry: &mut [u8], file: &[u8]) -> u64
    ensures number { result ≡ open_bytes_number entry.old file.now }
    ensures bytes { entry.new ≡ open_bytes entry.old file.now }
    ensures demand1 { EntryOpenDemand1 entry.old file.now }
{
    if !is_entry(entry) {
        return NO_ENTRY;
    }
    let mut kept = decode(entry);
    let opened = entry::open_entry(&mut kept, file);
    if opened.is_ok() {
        encode(&kept, entry);
    }
    open_number(opened)
}

// Offers the file's automaton as the next edition of the entry in these bytes, as one number: kind + 2^8 forward count + 2^24 back
// count + 2^40 word length + 2^56 walk. The walks' slots stand in work; the word of forward or back stands in front in word.
#[tactic(auto, using(crate::proofs::EntryCallLaws::entry_long), unfolding(crate::specs::EntryCalls::offer_bytes_number, crate::specs::EntryCalls::offer_bytes, crate::specs::EntryCalls::offer_bytes_work, crate::specs::EntryCalls::offer_bytes_word))]
pub fn entry_offer(
    entry: &mut [u8],
    file: &[u8],
    bound: u64,
    work: &mut [u8],
    word: &mut [u8],
) -> u64
    ensures number { result ≡ offer_bytes_number entry.old file.now bound work.old word.old }
    ensures bytes { entry.new ≡ offer_bytes entry.old file.now bound work.old word.old }
    ensures work { work.new ≡ offer_bytes_work entry.old file.now bound work.old word.old }
    ensures word { word.new ≡ offer_bytes_word entry.old file.now bound work.old word.old }
    ensures demand1 { EntryOfferDemand1 entry.old file.now bound work.old word.old }
{
    if !is_entry(entry) {
        return NO_ENTRY;
    }
    let mut kept = decode(entry);
    let offered = entry::offer_entry(&mut kept, file, bound, work, word);
    if entry::is_taken(offered) {
        encode(&kept, entry);
    }
    offer_number(offered)
}

// Whether the automaton of the entry in these bytes accepts the lasso word of the stem and the loop `cycle`, as one number: 0 no,
// 1 yes, 100 plus a refusal's number.
#[tactic(auto, using(crate::proofs::EntryCallLaws::entry_long), unfolding(crate::specs::EntryCalls::verdict_bytes_number))]
pub fn entry_verdict(entry: &[u8], stem: &[u8], cycle: &[u8]) -> u64
    ensures number { result ≡ verdict_bytes_number entry.now stem.now cycle.now }
    ensures demand1 { EntryVerdictDemand1 entry.now stem.now cycle.now }
{
    if !is_entry(entry) {
        return NO_ENTRY;
    }
    verdict_number(entry::verdict(&decode(entry), stem, cycle))
}

// Writes the file's automaton in the fixed form to the front of out, as one number: 256 times the length, 100 plus a refusal's number, or 116
// plus 256 times the length needed.
pub fn file_write(file: &[u8], out: &mut [u8]) -> u64
    ensures number { result ≡ write_number (write_of file.now out.old).answer }
    ensures out { out.new ≡ (write_of file.now out.old).out }
    ensures demand1 { FileWriteDemand1 file.now out.old }
{
    write_number(writer::write_file(file, out))
}

// Writes the automaton of a Hanoi text in the fixed form to the front of out, with a number as that of file_write: the refusals of a text are 3, 4, 17 and 18.
pub fn hanoi_write(text: &[u8], out: &mut [u8]) -> u64
    ensures number { result ≡ write_number (hanoi_of text.now out.old).answer }
    ensures out { out.new ≡ (hanoi_of text.now out.old).out }
    ensures demand1 { HanoiWriteDemand1 text.now out.old }
{
    write_number(hanoi_reader::write_text(text, out))
}
