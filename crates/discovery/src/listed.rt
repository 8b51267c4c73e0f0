// The vertices listed, and successors discovered: each is final, or takes the next slot, or finds none.
ghost use Rattle.std.specs.Prelude.{◌≡◌, ◌&&◌, eqb};
ghost use Rattle.slots.specs.Slots.{all_zero};
ghost use Rattle.discovery.specs.Representation.{Ready};

use crate::{Side, Sides, Stop};
use classes::{Class, Index, Keyed};
use relations::states_of;
use slots::{Edge, Slot, Vertex};

// The vertices listed so far: the work buffer with so many slots taken, none of them by a final vertex, and its index.
#[derive(Drop)]
pub struct Listed<'a> {
    pub work: &'a mut [u8],
    pub index: &'a mut Index,
    pub count: usize,
    pub ghost ready: { Ready work.now index.now count },
}

// Whether counters of this class make a final vertex: they are all 0, and no slot has them, since no slot holds a final vertex.
fn is_final(class: usize, counters: &[u8; 32]) -> bool
    ensures { result ≡ (eqb class 0 && all_zero counters.now) }
{
    class == 0 && classes::all_zero(counters)
}

impl<'a> Listed<'a> {
    ghost use Rattle.std.specs.Prelude.{◌≡◌, ◌&&◌, not, map, ℕ, ◌<◌, ◌≤◌};
    ghost use Rattle.automaton.specs.declared.Automaton.{Automaton};
    ghost use Rattle.automaton.specs.Automata.{max_states};
    ghost use Rattle.automaton.specs.Ranges.{those};
    ghost use Rattle.automaton.specs.Sets.{bit};
    ghost use Rattle.slots.specs.Slots.{max_slots};
    ghost use Rattle.slots.specs.Bytes.{vertex_at};
    ghost use Rattle.classes.specs.Classes.{class_of};
    ghost use Rattle.classes.specs.Indexes.{class_at, listed_in};
    ghost use Rattle.graph.specs.Discovery.{below, discover as discovering, discover_all};
    ghost use Rattle.graph.specs.LagGraph.{lag_graph};
    ghost use Rattle.discovery.specs.Representation.{vertex_of, counters_to, Takes, ClassKnown, SideReady, TargetReady, SidesReady};
    ghost use Rattle.discovery.specs.Lists.{answered, Makes, Grown};

    // The vertex at a place.
    pub fn vertex(&self, p: usize) -> Vertex
        requires { p < self.now.count }
        ensures { result ≡ vertex_at self.now.work.now p }
    {
        slots::load(self.work, p)
    }

    // The class of the vertex at a place.
    pub fn class_at(&self, p: usize) -> usize
        requires { p < self.now.count }
        ensures { result ≡ class_at self.now.index.now p }
    {
        self.index.class_at(p)
    }

    // The class of counters with their key.
    pub fn class_of(&self, keyed: Keyed) -> usize
        ensures { result ≡ class_of self.now.work.now keyed.entry.counters.now self.now.count }
    {
        self.index.class_of(self.work, self.count, keyed)
    }

    // The targets that are not listed with the counters of the class.
    pub fn unlisted(&self, class: usize, targets: u32) -> u32
        requires { class ≤ max_slots }
        ensures { (t : ℕ) → bit result t ≡ (bit targets t && not (bit (listed_in self.now.index.now class) t)) }
    {
        self.index.unlisted(class, targets)
    }

    // The class of the counters, which is looked up again unless it is known: one that is not 0 stays, and 0 is sure as long as no slot was
    // written. A flag and no Option, since the side stays while that changes.
    fn class_now(&self, side: Side, sure: bool) -> usize
        requires { ClassKnown side.class sure (class_of self.now.work.now side.keyed.counters.now self.now.count) }
        ensures { result ≡ class_of self.now.work.now side.entry.keyed.counters.now self.now.count }
    {
        if sure | (side.class != 0) {
            return side.class;
        }
        self.class_of(side.keyed)
    }

    // One successor, found by an edge, that is not listed: it is final, takes the next slot, or finds none. The class of its side is its
    // counters' where that is not 0 or sure.
    fn discover(&mut self, edge: Edge, left: u8, side: Side, sure: bool) -> Result<(), Stop>
        requires { (left < max_states) × SideReady self.old.work.now self.old.count left side sure }
        ensures represents { (A B : Automaton) (b : ℕ) → Makes self.old self.new result
            (λ S w. discovering (lag_graph A B b) (below S) edge.parent w (edge.letter, vertex_of left side.entry.keyed.counters.now)) }
        ensures grows { Grown self.old self.new }
        ensures takes { Takes self.old.count (vertex_of left side.entry.keyed.counters.now) self.new.work.now (answered result self.new.count) }
    {
        let place = self.count;
        let number = self.class_now(side, sure);
        if is_final(number, side.keyed.counters) {
            return Err(Stop::Final {
                place,
                letter: edge.letter,
                parent: edge.parent,
            });
        }
        if place < slots::slot_count(self.work.len()) {
            let vertex = Vertex {
                left,
                counters: *side.keyed.counters,
            };
            let class = Class {
                key: side.keyed.key,
                number,
            };
            self.index
                .append(self.work, place, Slot { vertex, edge }, class);
            self.count += 1;
            return Ok(());
        }
        Err(Stop::Full(place))
    }

    // The successor at a left target that is not listed, found by an edge. Its side is by whether it accepts.
    fn discover_target(
        &mut self,
        edge: Edge,
        t: usize,
        sides: Sides,
        sure: bool,
    ) -> Result<(), Stop>
        requires { (t < max_states) × TargetReady self.old.work.now self.old.count sides sure t }
        ensures represents { (A B : Automaton) (b : ℕ) → Makes self.old self.new result
            (λ S w. discovering (lag_graph A B b) (below S) edge.parent w (edge.letter, vertex_of t (counters_to sides.entry t))) }
        ensures grows { Grown self.old self.new }
        ensures takes { Takes self.old.count (vertex_of t (counters_to sides.entry t)) self.new.work.now (answered result self.new.count) }
    {
        let side = if relations::has(sides.accepting, t) {
            sides.low
        } else {
            sides.other
        };
        self.discover(edge, t as u8, side, sure)
    }

    // The successors at these left targets, none of which is listed, lowest first, found by an edge.
    pub fn discover_targets(&mut self, edge: Edge, targets: u32, sides: Sides) -> Result<(), Stop>
        requires { SidesReady self.old.work.now self.old.count targets sides }
        ensures represents { (A B : Automaton) (b : ℕ) → Makes self.old self.new result
            (λ S w. discover_all (lag_graph A B b) (below S) edge.parent w
            (map (λ t. (edge.letter, vertex_of t (counters_to sides.entry t))) (those (bit targets) max_states 0))) }
        ensures grows { Grown self.old self.new }
    {
        let n = self.count;
        for t in states_of(targets) {
            let sure = self.count == n;
            self.discover_target(edge, t, sides, sure)?;
        }
        Ok(())
    }
}
