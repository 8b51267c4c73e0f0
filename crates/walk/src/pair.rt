// Two automata of a walk.
ghost use Rattle.successors.specs.Rules.{RulesOf};

use graph::Bound;
use successors::Rules;

// Two automata in range and a bound, with the rules of their walk.
#[derive(Clone, Copy)]
pub struct Pair<'a> {
    pub rules: Rules<'a>,
    pub bound: Bound,
    pub ghost rules_of: { RulesOf rules rules.left.now rules.right.now bound.value },
}
