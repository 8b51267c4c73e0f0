// The successors of a vertex on one letter: the targets that are not listed with the class of their side, discovered. The classes after the step
// are kept, so that a step whose targets are all listed costs a few words.
#![tactic(auto)]

ghost use Rattle.std.specs.Prelude.{◌≡◌, true, ℕ, ◌+◌, ◌<◌, ◌≤◌, ◌≢◌, length, get_or};
ghost use Rattle.automaton.specs.declared.Automaton.{Automaton};
ghost use Rattle.automaton.specs.Automata.{max_states};
ghost use Rattle.automaton.specs.Sets.{bit};
ghost use Rattle.slots.specs.Slots.{max_slots};
ghost use Rattle.classes.specs.Classes.{class_of};
ghost use Rattle.graph.specs.Discovery.{below, discover_all};
ghost use Rattle.graph.specs.LagGraph.{lag_graph};
ghost use Rattle.step.specs.Steps.{PresentOf, all_largest};
ghost use Rattle.discovery.specs.Lists.{Makes, Grown};
ghost use Rattle.successors.specs.Rules.{RulesOf};
ghost use Rattle.successors.specs.Targets.{TargetsUnlisted, Known};
ghost use Rattle.successors.specs.Steps.{edges_on, StepKept};

mod rules;

use classes::Keyed;
use discovery::{Listed, Side, Sides, Stop};
pub use rules::Rules;
use slots::{Edge, Vertex};
use step::present::Present;

// The vertex that a step starts from, with its right states that have a counter above 0.
#[derive(Clone, Copy)]
pub struct Source {
    pub vertex: Vertex,
    pub present: Present,
}

// A step on the letter of an edge, which leads from the vertex's place; its classes are kept at two places from `at` on.
#[derive(Clone, Copy)]
pub struct Step {
    pub edge: Edge,
    pub at: usize,
}

// The counters after a step with their key, and their class where there is a target; else the class that is kept.
fn side_of<'a>(listed: &Listed, counters: &'a [u8; 32], kept: usize, targets: u32) -> Side<'a>
    requires { Known listed.now counters.now kept }
    ensures counters { result.keyed.counters.now ≡ counters.now }
    ensures known { Known listed.now result.keyed.counters.now result.class }
    ensures class { (t : ℕ) → bit targets t ≡ true → result.class ≡ class_of listed.now.work.now result.keyed.counters.now listed.now.count }
{
    let keyed = Keyed::new(counters);
    let class = if targets == 0 {
        kept
    } else {
        listed.class_of(keyed)
    };
    Side { keyed, class }
}

// The targets of both sides that are not listed with the class of their side.
fn targets_unlisted(
    listed: &Listed,
    low_class: usize,
    other_class: usize,
    low: u32,
    other: u32,
) -> u32
    requires { (low_class ≤ max_slots) × (other_class ≤ max_slots) }
    ensures { TargetsUnlisted listed.now.index.now low_class other_class low other result }
{
    listed.unlisted(low_class, low) | listed.unlisted(other_class, other)
}

// For each right state the largest counter of its predecessors on a letter, in the vertex that a step starts from.
fn largest_from(source: &Source, rules: &Rules, letter: usize) -> [u8; 32]
    requires { (letter < rules.now.left.now.letters)
        × PresentOf source.now.present.count source.now.present.places source.now.vertex.counters rules.now.right.now.states }
    ensures { result ≡ all_largest rules.now.masks.now rules.now.right.now.states letter source.now.vertex.counters }
{
    step::largest_into(
        rules.masks,
        rules.right.states,
        letter,
        &source.present,
        &source.vertex.counters,
    )
}

// The successors of a vertex on the letter of a step: where the classes that are kept are known and all targets are listed with them, nothing is
// done.
pub fn expand_letter(
    rules: &Rules,
    listed: &mut Listed,
    kept: &mut [u16],
    source: &Source,
    step: Step,
) -> Result<(), Stop>
    requires { (source.now.vertex.left < max_states) × (step.edge.letter < rules.now.left.now.letters)
        × PresentOf source.now.present.count source.now.present.places source.now.vertex.counters rules.now.right.now.states
        × (step.at + 2 ≤ length kept.old) × StepKept rules.now listed.old kept.old source.now.vertex step }
    ensures represents { (A B : Automaton) (b : ℕ) → RulesOf rules.now A B b
        → Makes listed.old listed.new result
        (λ S w. discover_all (lag_graph A B b) (below S) step.edge.parent w (edges_on A B b source.now.vertex step.edge.letter)) }
    ensures grows { Grown listed.old listed.new }
    ensures step { StepKept rules.now listed.old kept.new source.now.vertex step }
    ensures others { (i : ℕ) → i ≢ step.at → i ≢ step.at + 1 → get_or kept.new i 0 ≡ get_or kept.old i 0 }
{
    let letter = step.edge.letter as usize;
    let targets = relations::row(rules.left, source.vertex.left as usize, letter);
    let low = targets & rules.accepting;
    let other = targets ^ low;
    let low_kept = kept[step.at] as usize;
    let other_kept = kept[step.at + 1] as usize;
    if targets_unlisted(listed, low_kept, other_kept, low, other) == 0 {
        return Ok(());
    }
    let largest = largest_from(source, rules, letter);
    let lowered = step::counters_after(rules.tops, 1, largest);
    let others = step::counters_after(rules.tops, 0, largest);
    let sides = Sides {
        accepting: rules.accepting,
        low: side_of(listed, &lowered, low_kept, low),
        other: side_of(listed, &others, other_kept, other),
    };
    kept[step.at] = sides.low.class as u16;
    kept[step.at + 1] = sides.other.class as u16;
    let unlisted = targets_unlisted(listed, sides.low.class, sides.other.class, low, other);
    listed.discover_targets(step.edge, unlisted, sides)
}
