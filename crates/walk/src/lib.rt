// The walk of the lag-checking graph: the discovery list, its vertices written into the slots of the work buffer.
#![tactic(auto)]

ghost use Rattle.std.specs.Prelude.{◌≡◌, false, ◌*◌, ◌<◌, ◌≤◌, length};
ghost use Rattle.automaton.specs.Automata.{max_states};
ghost use Rattle.slots.specs.Slots.{slot_count, all_zero};
ghost use Rattle.slots.specs.Bytes.{Falls};
ghost use Rattle.graph.specs.Discovery.{below, expand as expanding, expand_all as expanding_all};
ghost use Rattle.graph.specs.LagGraph.{initial_vertex};
ghost use Rattle.graph.specs.Walks.{walk_of, work_after, word_after};
ghost use Rattle.discovery.specs.Representation.{walked_of, Represents};
ghost use Rattle.discovery.specs.Lists.{Makes, Grown};
ghost use Rattle.successors.specs.Steps.{LinesKept};
ghost use Rattle.walk.specs.Pairs.{graph_of};
ghost use Rattle.walk.specs.FinalWord.{final_word_in};

mod pair;

use automaton::Valid;
use classes::{Class, Index};
use discovery::{Listed, Stop};
use graph::Bound;
use kept::Kept;
use pair::Pair;
use slots::{Edge, Slot, Vertex};
use successors::{Rules, Source, Step};

// Expands place p: all successors of its vertex, letters upwards, left targets upwards.
fn expand(pair: &Pair, listed: &mut Listed, kept: &mut Kept, p: usize) -> Result<(), Stop>
    requires { (p < listed.old.count) × LinesKept pair.now.rules listed.old kept.old }
    ensures represents { Makes listed.old listed.new result (λ S. expanding (graph_of pair.now) (below S) p) }
    ensures grows { Grown listed.old listed.new }
    ensures lines { LinesKept pair.now.rules listed.new kept.new }
{
    let line = kept.line_of(listed.class_at(p));
    let vertex = listed.vertex(p);
    let present = step::present::present_of(vertex.counters, pair.rules.right.states);
    let source = Source { vertex, present };
    for letter in 0..pair.rules.left.letters {
        let edge = Edge {
            letter: letter as u8,
            parent: p,
        };
        let step = Step {
            edge,
            at: line + letter * 2,
        };
        successors::expand_letter(&pair.rules, listed, &mut kept.lines, &source, step)?;
    }
    Ok(())
}

// Expands all places, from place 0 on, those that are listed meanwhile too. No `for`, which would take their number at its start.
fn expand_all(pair: &Pair, listed: &mut Listed) -> Result<(), Stop>
    ensures represents { Makes listed.old listed.new result (λ S. expanding_all (graph_of pair.now) (below S) S 0) }
    ensures grows { Grown listed.old listed.new }
{
    let mut kept = Kept::new();
    let mut p = 0;
    while p < listed.count {
        expand(pair, listed, &mut kept, p)?;
        p += 1;
    }
    Ok(())
}

// The walk from the initial vertex on, which is not final and for which there is a slot.
fn walk_from(pair: &Pair, work: &mut [u8], first: Vertex) -> Result<usize, Stop>
    requires { (first ≡ initial_vertex pair.now.rules.left.now pair.now.rules.right.now pair.now.bound.value)
        × (all_zero first.counters ≡ false) × (0 < slot_count (length work.old)) }
    ensures { Represents work.new result work.old
        (walk_of pair.now.rules.left.now pair.now.rules.right.now pair.now.bound.value (slot_count (length work.old))) }
{
    let mut index = Index::empty();
    let class = Class {
        key: classes::key_of(&first.counters),
        number: 0,
    };
    let edge = Edge {
        letter: slots::NO_LETTER,
        parent: slots::NO_PARENT,
    };
    let slot = Slot {
        vertex: first,
        edge,
    };
    index.append(work, 0, slot, class);
    let mut listed = Listed {
        work,
        index: &mut index,
        count: 1,
    };
    expand_all(pair, &mut listed)?;
    Ok(listed.count)
}

// The same of two automata at a bound, with room for so many masks.
fn walk_with<const N: usize>(
    left: Valid,
    right: Valid,
    bound: Bound,
    work: &mut [u8],
    first: Vertex,
) -> Result<usize, Stop>
    requires { (left.automaton.now.letters * right.automaton.now.states * max_states ≤ N) × (N ≤ 16384)
        × (first ≡ initial_vertex left.automaton.now right.automaton.now bound.value)
        × (all_zero first.counters ≡ false) × (0 < slot_count (length work.old)) }
    ensures { Represents work.new result work.old
        (walk_of left.entry.automaton.now right.entry.automaton.now bound.value (slot_count (length work.old))) }
{
    let tops = step::tops_of(right.automaton, (bound.value + 1) as u8);
    let mut masks = [0u8; N];
    step::masks::fill(&mut masks, right.automaton, left.automaton.letters);
    let rules = Rules {
        left: left.automaton,
        right: right.automaton,
        accepting: relations::of_bytes(&left.automaton.accepting),
        tops: &tops,
        masks: &masks,
    };
    walk_from(&Pair { rules, bound }, work, first)
}

// The walk of the lag-checking graph of two automata at a bound: the number of vertices listed, or why the list ends. The slots that it takes are
// written from the start of work. The initial vertex comes before any array is cleared, and no more masks are cleared than the two automata need.
pub fn walk(left: Valid, right: Valid, bound: Bound, work: &mut [u8]) -> Result<usize, Stop>
    ensures answer { result ≡ walked_of (slot_count (length work.old))
        (walk_of left.entry.automaton.now right.entry.automaton.now bound.value (slot_count (length work.old))) }
    ensures bytes { work.new ≡ work_after work.old
        (walk_of left.entry.automaton.now right.entry.automaton.now bound.value (slot_count (length work.old))) }
{
    let first = step::initial_vertex(left.automaton, right.automaton, bound);
    if classes::all_zero(&first.counters) {
        return Err(Stop::Final {
            place: 0,
            letter: slots::NO_LETTER,
            parent: slots::NO_PARENT,
        });
    }
    if slots::slot_count(work.len()) == 0 {
        return Err(Stop::Full(0));
    }
    if left.automaton.letters * right.automaton.states <= 64 {
        return walk_with::<2048>(left, right, bound, work, first);
    }
    walk_with::<16384>(left, right, bound, work, first)
}

// Writes the word of a final vertex, which stands at a place and was found by a letter from the vertex at place parent, to the
// front of word where it fits, and answers its length.
pub fn final_word(work: &[u8], place: usize, letter: u8, parent: usize, word: &mut [u8]) -> usize
    requires { 0 < place → (parent < slot_count (length work.now)) × Falls work.now parent }
    ensures count { result ≡ length (final_word_in work.now place letter parent) }
    ensures letters { word.new ≡ word_after word.old (final_word_in work.now place letter parent) }
{
    if place == 0 {
        return 0;
    }
    let before = slots::word_length(work, parent);
    if word.len() <= before {
        return before + 1;
    }
    let at = slots::read_back(work, parent, word);
    word[at] = letter;
    before + 1
}
