// Sets of states as words of 32 bits, state q at bit q, and relations on the states as rows of such words. A promise on the states below 32
// is one on every bit of a word.
#![tactic(auto)]

ghost use Rattle.std.specs.Prelude.{◌≡◌, ◌&&◌, ◌||◌, ℕ, ◌%◌, ◌^◌, ◌<◌, ◌≤◌, eqb, length};
ghost use Rattle.automaton.specs.Ranges.{some, total};
ghost use Rattle.automaton.specs.Sets.{bit, with_bit, member};
ghost use Rattle.automaton.specs.Automata.{one, transition_bit};
ghost use Rattle.relations.specs.Closure.{row_has};
ghost use Rattle.relations.specs.Rows.{with_row, diagonal_rows, round_rows, closed_rows};

use automaton::{Automaton, MAX_LETTERS};

mod states;

pub use states::{States, next_state, states_below, states_of};

// Whether state q is in the set. This and `with_state` stand beside those of `automaton` for a byte: a trait of both would have both bodies again.
pub fn has(set: u32, q: usize) -> bool
    requires { q < 32 }
    ensures { result ≡ bit set q }
{
    (set >> q) % 2 == 1
}

// The set with state q.
pub fn with_state(set: u32, q: usize) -> u32
    requires { q < 32 }
    ensures { result ≡ with_bit set q }
{
    set | 1 << q
}

// The set, with state q besides where the test says so.
pub fn with_state_where(set: u32, q: usize, test: bool) -> u32
    requires { q < 32 }
    ensures { (k : ℕ) → bit result k ≡ (bit set k || (test && eqb q k)) }
{
    if test { with_state(set, q) } else { set }
}

// The set that is held eight states to a byte.
pub fn of_bytes(set: &[u8; 4]) -> u32
    ensures { (q : ℕ) → q < 32 → bit result q ≡ member set.now q }
{
    u32::from_le_bytes(*set)
}

// The targets of q on letter a. Its four bytes by number: so written it is one load.
pub fn row(automaton: &Automaton, q: usize, a: usize) -> u32
    requires { (q < 32) × (a < 16) }
    ensures { (r : ℕ) → r < 32 → bit result r ≡ transition_bit automaton.now q a r }
{
    let at = (q * MAX_LETTERS + a) * 4;
    let bytes = &automaton.transitions;
    u32::from_le_bytes([bytes[at], bytes[at + 1], bytes[at + 2], bytes[at + 3]])
}

// The states of the set below n, as a set.
fn below(set: u32, n: usize) -> u32
    requires { n ≤ 32 }
    ensures { result ≡ set % 2 ^ n }
{
    if n < 32 { set % (1 << n) } else { set }
}

// The number of states of the set below n.
pub fn count_below(set: u32, n: usize) -> usize
    requires { n ≤ 32 }
    ensures { (result ≡ total (λ q. one (bit set q)) n 0) × (result ≤ 32) }
{
    below(set, n).count_ones() as usize
}

// Whether the set has a state.
pub fn has_state(set: u32) -> bool
    ensures { result ≡ some (bit set) 32 0 }
{
    set != 0
}

// Whether the sets have a state in common.
pub fn meets(left: u32, right: u32) -> bool
    ensures { result ≡ some (λ q. bit left q && bit right q) 32 0 }
{
    left & right != 0
}

// The set, with the members of the row besides where `from` has state p.
fn with_row(set: u32, from: u32, p: usize, row: u32) -> u32
    requires { p < 32 }
    ensures { result ≡ with_row set from p row }
{
    if has(from, p) { set | row } else { set }
}

// The rows below are those of an array for 32 states, of which the first n are used: slices of them, or a struct of the array and n, would say no more than n.

// The states to which the first n rows relate a state of the set.
pub fn spread(rows: &[u32], set: u32, n: usize) -> u32
    requires { (n ≤ 32) × (n ≤ length rows.now) }
    ensures { (q : ℕ) → bit result q ≡ some (λ p. bit set p && row_has rows.now p q) n 0 }
{
    let mut found: u32 = 0;
    for p in 0..n {
        found = with_row(found, set, p, rows[p]);
    }
    found
}

// Each of the first n states related to itself besides; the rows from n on stay.
pub fn add_diagonal(rows: &mut [u32], n: usize)
    requires { (n ≤ 32) × (n ≤ length rows.old) }
    ensures { rows.new ≡ diagonal_rows n rows.old }
{
    for p in 0..n {
        rows[p] = with_state(rows[p], p);
    }
}

// One round of Warshall's method by way of k, over the first n rows; the rows from n on stay.
fn round(rows: &mut [u32], k: usize, n: usize)
    requires { (k < n) × (n ≤ 32) × (n ≤ length rows.old) }
    ensures { rows.new ≡ round_rows n k rows.old }
{
    for p in 0..n {
        rows[p] = with_row(rows[p], rows[p], k, rows[k]);
    }
}

// The transitive closure of the relation of the first n rows, in their place; the rows from n on stay.
pub fn close(rows: &mut [u32], n: usize)
    requires { (n ≤ 32) × (n ≤ length rows.old) }
    ensures { rows.new ≡ closed_rows n rows.old }
{
    for k in 0..n {
        round(rows, k, n);
    }
}
