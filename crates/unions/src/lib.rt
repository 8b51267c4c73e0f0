// Unions of chosen sets from tables (the method of the four Russians): for every four sets, 16 entries have the unions of all choices of
// them, so the union of the sets that a word chooses takes one entry for every four bits of the word. A set is a word of 64 bits.
#![tactic(auto)]

ghost use Rattle.std.specs.Prelude.{◌≡◌, ℕ, ◌+◌, ◌*◌, ◌≤◌, length};
ghost use Rattle.automaton.specs.Sets.{bit};
ghost use Rattle.unions.specs.Unions.{named, groups_for, doubled, filled, Unions};

// The entries of a table for 32 values: 16 for every four of them.
pub const ENTRIES: usize = 128;

// The first `size` entries are followed by the same entries with the value besides; the others stay.
#[tactic(auto, using(relations::proofs::Rows::changed_none))]
fn double(entries: &mut [u64], size: usize, value: u64)
    requires { (size ≤ 8) × (size + size ≤ length entries.old) }
    ensures { entries.new ≡ doubled entries.old size value }
{
    for m in 0..size {
        entries[size + m] = entries[m] | value;
    }
}

// The first 16 entries become the unions of the choices of the first four values; the others stay.
fn fill_four(entries: &mut [u64], values: &[u64])
    requires { (16 ≤ length entries.old) × (4 ≤ length values.now) }
    ensures { entries.new ≡ filled entries.old values.now 1 }
{
    entries[0] = 0;
    double(entries, 1, values[0]);
    double(entries, 2, values[1]);
    double(entries, 4, values[2]);
    double(entries, 8, values[3]);
}

// The number of groups of four that n values are held in.
#[tactic(auto, using(crate::proofs::UnionTables::groups_where_n))]
pub fn groups_for(n: usize) -> usize
    ensures groups { result ≡ groups_for n }
    ensures few { result ≤ 8 }
{
    if n <= 8 {
        2
    } else if n <= 16 {
        4
    } else {
        8
    }
}

// The entries become the unions of the choices of so many groups of four values, group after group; the entries behind stay.
#[tactic(auto, using(crate::proofs::UnionTables::filled_none, crate::proofs::UnionTables::filled_more))]
pub fn fill(table: &mut [u64], values: &[u64], groups: usize)
    requires { (groups ≤ 8) × (groups * 16 ≤ length table.old) × (groups * 4 ≤ length values.now) }
    ensures filled { table.new ≡ filled table.old values.now groups }
    ensures unions { Unions table.new values.now groups }
{
    for g in 0..groups {
        fill_four(&mut table[g * 16..], &values[g * 4..]);
    }
}

// The union of the entries that the word names, by four of its bits in each of so many groups. How many is a constant, so that no loop is left: it
// stands in the innermost loops.
#[tactic(auto, using(crate::proofs::UnionTables::named_none, crate::proofs::UnionTables::named_more))]
fn union_in<const GROUPS: usize>(table: &[u64], choice: u64) -> u64
    requires { (GROUPS ≤ 8) × (GROUPS * 16 ≤ length table.now) }
    ensures { (q : ℕ) → bit result q ≡ named table.now GROUPS choice q }
{
    let mut found = 0;
    for g in 0..GROUPS {
        found |= table[g * 16 + (choice >> (g * 4)) as usize % 16];
    }
    found
}

// The union of the entries that the bits of the word name, in the groups that n values are held in; in a table of unions, the union of the
// values that the word chooses.
#[tactic(auto, using(crate::proofs::UnionTables::groups_where_n))]
pub fn union(table: &[u64], n: usize, choice: u64) -> u64
    requires { 128 ≤ length table.now }
    ensures { (q : ℕ) → bit result q ≡ named table.now (groups_for n) choice q }
{
    if n <= 8 {
        union_in::<2>(table, choice)
    } else if n <= 16 {
        union_in::<4>(table, choice)
    } else {
        union_in::<8>(table, choice)
    }
}
