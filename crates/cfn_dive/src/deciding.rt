//! By which decision a leaf is split.

ghost use Rattle.std.specs.Prelude.{◌≡◌, MatchOption, IfSome};
ghost use Rattle.cfn_branch.specs.Choosing.{AllDecided, IsSplit};
ghost use Rattle.cfn_dive.specs.Deciding.{IsByDegrees, IsByRule};
ghost use Rattle.cfn_dive.specs.Diving.{IsOf};

use crate::parts::Parts;
use crate::values::first_value;
use cfn_branch::{Rule, choose, split_fewest};
use cfn_model::Decision;
use cfn_net::Scored;

impl<'n> Parts<'n> {
    /// The decision that splits the store, as the rule names it. `None` exactly where each variable has at most one live value.
    pub fn decide(&mut self, best: &Scored) -> Option<Decision>
        requires of { IsOf self.old.store.network self.old }
        requires best { best.now.network ≡ self.old.store.network }
        ensures splits { MatchOption result (AllDecided self.old.store) (IsSplit self.old.store) }
        ensures named { IfSome result (IsByRule self.old.rule self.old.store self.old.weights best.now.held) }
        ensures same { self.new ≡ self.old }
    {
        match self.rule {
            Rule::Degrees => self.decide_by_degrees(best),
            Rule::Fewest => split_fewest(&self.store),
        }
    }

    /// The variable that the weights choose is the value that a split tries first.
    fn decide_by_degrees(&mut self, best: &Scored) -> Option<Decision>
        requires of { IsOf self.old.store.network self.old }
        requires best { best.now.network ≡ self.old.store.network }
        ensures splits { MatchOption result (AllDecided self.old.store) (IsSplit self.old.store) }
        ensures named { IfSome result (IsByDegrees self.old.store self.old.weights best.now.held) }
        ensures same { self.new ≡ self.old }
    {
        let x = choose(&self.weights, &self.incidence, &self.store)?;
        let value = first_value(best, &mut self.enforcer, &self.store, &self.incidence, x);
        Some(Decision::Is { variable: x, value })
    }
}
