// The numbers that stand for answers, as the C interface has them. A refusal is whatever has a number or a row of the table, so that any number that can
// stand there may come, not only those that the calls give.
ghost use Rattle.std.specs.Prelude.{◌≡◌, ◌<◌, ◌^◌};
ghost use Rattle.answers.specs.Outcomes.{outcome_by};
ghost use Rattle.fixed_form.specs.WriteAnswers.{write_answer_of};
ghost use Rattle.history.specs.OfferAnswers.{NoSlots, row_answer, offer_answer_by};
ghost use Rattle.history.specs.OpenAnswers.{open_answer_by};
ghost use Rattle.history.specs.VerdictAnswers.{verdict_answer_by};
ghost use Rattle.boundary.specs.Numbers.{packed, outcome_number, open_number, packed_offer, offer_number, verdict_number, write_number};

use answers::{ContainRow, Containment, RefusesContain, WalkRefusal};
use fixed_form::WriteRefusal;
use format::Numbered;
use history::{OfferRow, Offered, RefusesOffer};

// Kind, count and word length in one number, as the C interface has it. A sum, as the interface says it: from bytes the parts would have to be cut to theirs.
fn packed(kind: usize, count: usize, len: usize) -> u64
    requires { packed kind count len < 2 ^ 64 }
    ensures { result ≡ packed kind count len }
{
    (kind as u64) + 256 * (count as u64) + 16777216 * (len as u64)
}

// The number of an outcome of contain.
pub fn outcome_number<R: RefusesContain>(outcome: Result<Containment, R>) -> u64
    requires { outcome_number (outcome_by R.table_row outcome) < 2 ^ 64 }
    ensures { result ≡ outcome_number (outcome_by R.table_row outcome) }
{
    match outcome {
        Ok(Containment::Contained(count)) => packed(0, count, 0),
        Ok(Containment::Differs { place, len }) => packed(1, place, len),
        Err(refusal) => match refusal.table_row() {
            ContainRow::Refused { number, file } => packed(100 + number, file, 0),
            ContainRow::Walk(WalkRefusal::NoSlots(slots)) => packed(110, slots, 0),
            ContainRow::Walk(WalkRefusal::NoRoom(len)) => packed(111, 0, len),
        },
    }
}

// The number of what open answers.
pub fn open_number<R: Numbered>(opened: Result<(), R>) -> u64
    requires { open_number (open_answer_by R.number opened) < 2 ^ 64 }
    ensures { result ≡ open_number (open_answer_by R.number opened) }
{
    match opened {
        Ok(()) => 0,
        Err(refusal) => 100 + refusal.number() as u64,
    }
}

// Kind, the two counts, word length and walk in one number, a sum as in `packed`.
fn packed_offer(kind: usize, forward: usize, back: usize, len: usize, walk: usize) -> u64
    requires { packed_offer kind forward back len walk < 2 ^ 64 }
    ensures { result ≡ packed_offer kind forward back len walk }
{
    (kind as u64)
        + 256 * (forward as u64)
        + 16777216 * (back as u64)
        + 1099511627776 * (len as u64)
        + 72057594037927936 * (walk as u64)
}

// The number of refusal 10 of a walk.
fn no_slots_number(walk: usize, slots: usize) -> u64
    requires { offer_number (NoSlots walk slots) < 2 ^ 64 }
    ensures { result ≡ offer_number (NoSlots walk slots) }
{
    if walk == 1 {
        packed_offer(110, slots, 0, 0, walk)
    } else {
        packed_offer(110, 0, slots, 0, walk)
    }
}

// The number of a row of offer's table.
fn row_number(row: OfferRow) -> u64
    requires { offer_number (row_answer row) < 2 ^ 64 }
    ensures { result ≡ offer_number (row_answer row) }
{
    match row {
        OfferRow::Refused(number) => packed_offer(100 + number, 0, 0, 0, 0),
        OfferRow::NoSlots { walk, slots } => no_slots_number(walk, slots),
        OfferRow::NoRoom { walk, len } => packed_offer(111, 0, 0, len, walk),
    }
}

// The number of what offer answers.
pub fn offer_number<R: RefusesOffer>(offered: Result<Offered, R>) -> u64
    requires { offer_number (offer_answer_by R.table_row offered) < 2 ^ 64 }
    ensures { result ≡ offer_number (offer_answer_by R.table_row offered) }
{
    match offered {
        Ok(Offered::Taken { forward, back }) => packed_offer(0, forward, back, 0, 0),
        Ok(Offered::Forward { forward, len }) => packed_offer(1, forward, 0, len, 0),
        Ok(Offered::Back { forward, back, len }) => packed_offer(2, forward, back, len, 0),
        Err(refusal) => row_number(refusal.table_row()),
    }
}

// The number of what verdict answers.
pub fn verdict_number<R: Numbered>(accepted: Result<bool, R>) -> u64
    requires { verdict_number (verdict_answer_by R.number accepted) < 2 ^ 64 }
    ensures { result ≡ verdict_number (verdict_answer_by R.number accepted) }
{
    match accepted {
        Ok(accepted) => u64::from(accepted),
        Err(refusal) => 100 + refusal.number() as u64,
    }
}

// The number of what a call that writes a file answers.
pub fn write_number<R: Numbered>(written: Result<usize, WriteRefusal<R>>) -> u64
    requires { write_number (write_answer_of R.number written) < 2 ^ 64 }
    ensures { result ≡ write_number (write_answer_of R.number written) }
{
    match written {
        Ok(len) => 256 * (len as u64),
        Err(WriteRefusal::Unread(refusal)) => 100 + refusal.number() as u64,
        Err(WriteRefusal::NoRoom(len)) => 116 + 256 * (len as u64),
    }
}
