//! Which line of a certificate is due.

ghost use Rattle.std.specs.Prelude.{◌≡◌, ◌≤◌};
ghost use Rattle.cfn_model.specs.declared.limits.TheConstants.{GREATEST};
ghost use Rattle.cfn_certtext.specs.Parsed.{IsWholeLine, line_of_parsed};
ghost use Rattle.cfn_certtext.specs.Reading.{decision_of};
ghost use Rattle.cfn_certtext.specs.Stages.{IsWhole, has_decision, line_of_item, next_stage, owed_of};

use crate::event::{DecisionText, Item};
use crate::parsed::Parsed;
use cfn_model::Version;

/// The line that is due, and behind the first one the version.
#[derive(Clone, Copy, PartialEq, Eq)]
pub enum Stage {
    Version,
    Network(Version),
    Lower(Version),
    Best(Version),
    Values(Version),
    Tree(Version),
    /// So many trees are still to come, and then the end.
    Nodes { version: Version, owed: u64 },
    /// Nothing.
    Over,
    /// A line did not follow the grammar.
    Failed,
}

/// What is due behind a line that is one item, if it may come here.
fn after_item(stage: Stage, item: Item) -> Option<Stage>
    requires whole { IsWhole item }
    requires few { owed_of stage ≤ GREATEST }
    ensures { result ≡ next_stage stage (line_of_item item) }
{
    match (stage, item) {
        (Stage::Version, Item::Version(version)) => Some(Stage::Network(version)),
        (Stage::Network(version), Item::Network { .. }) => Some(Stage::Lower(version)),
        (Stage::Lower(version), Item::Lower(_)) => Some(Stage::Best(version)),
        (Stage::Best(version), Item::NoBest) => Some(Stage::Tree(version)),
        (Stage::Best(version), Item::Best(_)) => Some(Stage::Values(version)),
        (Stage::Tree(version), Item::Tree) => Some(Stage::Nodes { version, owed: 1 }),
        (Stage::Nodes { version, owed }, item) => after_node(version, owed, item),
        _ => None,
    }
}

/// What is due behind a line where so many trees are still to come.
fn after_node(version: Version, owed: u64, item: Item) -> Option<Stage>
    requires whole { IsWhole item }
    requires few { owed ≤ GREATEST }
    ensures { result ≡ next_stage (Stage.Nodes version owed) (line_of_item item) }
{
    match item {
        Item::End if owed == 0 => Some(Stage::Over),
        _ if owed == 0 => None,
        Item::Step(_) => Some(Stage::Nodes { version, owed }),
        Item::Open | Item::Closed => Some(Stage::Nodes {
            version,
            owed: owed - 1,
        }),
        Item::Split(decision) if has_decision(version, decision) => Some(Stage::Nodes {
            version,
            owed: owed + 1,
        }),
        _ => None,
    }
}

/// Whether a version has a line for a decision: the first has none for a bound.
fn has_decision(version: Version, decision: DecisionText) -> bool
    ensures { result ≡ has_decision version (decision_of decision) }
{
    match decision {
        DecisionText::Is { .. } => true,
        DecisionText::Most { .. } => matches!(version, Version::Second),
    }
}

/// What is due behind a line, if it may come here.
pub fn after(stage: Stage, parsed: &Parsed<'_>) -> Option<Stage>
    requires whole { IsWholeLine parsed.now }
    requires few { owed_of stage ≤ GREATEST }
    ensures { result ≡ next_stage stage (line_of_parsed parsed.now) }
{
    match (parsed, stage) {
        (Parsed::One(item), _) => after_item(stage, *item),
        (Parsed::Values { .. }, Stage::Values(version)) => Some(Stage::Tree(version)),
        _ => None,
    }
}
