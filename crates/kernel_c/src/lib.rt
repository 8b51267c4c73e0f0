// The functions of the crate `kernel` under their C names, with the same promises: the static library that vendors link. They stand beside those
// for the C interface, since no crate can use a static library.
#![tactic(auto)]

ghost use Rattle.std.specs.Prelude.{◌≡◌};
ghost use Rattle.fixed_form.specs.Write.{write_of};
ghost use Rattle.hanoi.specs.Hanoi.{hanoi_of};
ghost use Rattle.answers.specs.Contain.{outcome_of, work_of, word_buffer};
ghost use Rattle.answers.specs.Demand2.{Demand2};
ghost use Rattle.boundary.specs.Numbers.{outcome_number, write_number};
ghost use Rattle.kernel.specs.EntryCalls.{open_bytes_number, open_bytes, offer_bytes_number, offer_bytes, offer_bytes_work, offer_bytes_word, verdict_bytes_number};
ghost use Rattle.kernel.specs.BytesDemand1.{ContainCallDemand1, EntryOpenDemand1, EntryOfferDemand1, EntryVerdictDemand1, FileWriteDemand1, HanoiWriteDemand1};

// Whether the first file's automaton is contained in the second's at the bound, as one number: kind + 2^8 count + 2^24 word
// length. The walk's slots stand in work; the word of "differs" stands in front in word.
#[unsafe(no_mangle)]
pub extern "C" fn contain(
    first: &[u8],
    second: &[u8],
    bound: u64,
    work: &mut [u8],
    word: &mut [u8],
) -> u64
    ensures number { result ≡ outcome_number (outcome_of first.now second.now bound work.old word.old) }
    ensures work { work.new ≡ work_of first.now second.now bound work.old word.old }
    ensures word { word.new ≡ word_buffer first.now second.now bound work.old word.old }
    ensures demand1 { ContainCallDemand1 first.now second.now bound work.old word.old }
    ensures demand2 { Demand2 first.now second.now bound work.old word.old }
{
    kernel::contain(first, second, bound, work, word)
}

// Opens the empty entry in these bytes with the file's automaton, as one number: 0 opened, 100 plus a refusal's number.
#[unsafe(no_mangle)]
pub extern "C" fn entry_open(entry: &mut [u8], file: &[u8]) -> u64
    ensures number { result ≡ open_bytes_number entry.old file.now }
    ensures bytes { entry.new ≡ open_bytes entry.old file.now }
    ensures demand1 { EntryOpenDemand1 entry.old file.now }
{
    kernel::entry_open(entry, file)
}

// Offers the file's automaton as the next edition of the entry in these bytes, as one number: kind + 2^8 forward count + 2^24 back
// count + 2^40 word length + 2^56 walk. The walks' slots stand in work; the word of forward or back stands in front in word.
#[unsafe(no_mangle)]
pub extern "C" fn entry_offer(
    entry: &mut [u8],
    file: &[u8],
    bound: u64,
    work: &mut [u8],
    word: &mut [u8],
) -> u64
    ensures number { result ≡ offer_bytes_number entry.old file.now bound work.old word.old }
    ensures bytes { entry.new ≡ offer_bytes entry.old file.now bound work.old word.old }
    ensures work { work.new ≡ offer_bytes_work entry.old file.now bound work.old word.old }
    ensures word { word.new ≡ offer_bytes_word entry.old file.now bound work.old word.old }
    ensures demand1 { EntryOfferDemand1 entry.old file.now bound work.old word.old }
{
    kernel::entry_offer(entry, file, bound, work, word)
}

// Whether the automaton of the entry in these bytes accepts the lasso word of the stem and the loop `cycle`, as one number: 0 no,
// 1 yes, 100 plus a refusal's number.
#[unsafe(no_mangle)]
pub extern "C" fn entry_verdict(entry: &[u8], stem: &[u8], cycle: &[u8]) -> u64
    ensures number { result ≡ verdict_bytes_number entry.now stem.now cycle.now }
    ensures demand1 { EntryVerdictDemand1 entry.now stem.now cycle.now }
{
    kernel::entry_verdict(entry, stem, cycle)
}

// Writes the file's automaton in the fixed form to the front of out, as one number: 256 times the length, 100 plus a refusal's number, or 116
// plus 256 times the length needed.
#[unsafe(no_mangle)]
pub extern "C" fn file_write(file: &[u8], out: &mut [u8]) -> u64
    ensures number { result ≡ write_number (write_of file.now out.old).answer }
    ensures out { out.new ≡ (write_of file.now out.old).out }
    ensures demand1 { FileWriteDemand1 file.now out.old }
{
    kernel::file_write(file, out)
}

// Writes the automaton of a Hanoi text in the fixed form to the front of out, with a number as that of file_write: the refusals of a text are 3, 4, 17 and 18.
#[unsafe(no_mangle)]
pub extern "C" fn hanoi_write(text: &[u8], out: &mut [u8]) -> u64
    ensures number { result ≡ write_number (hanoi_of text.now out.old).answer }
    ensures out { out.new ≡ (hanoi_of text.now out.old).out }
    ensures demand1 { HanoiWriteDemand1 text.now out.old }
{
    kernel::hanoi_write(text, out)
}
