//! Which lines are those of nodes, and what they say with 32 bits for each number.

ghost use Rattle.std.specs.Prelude.{◌≡◌, ◌∷◌, true, false, None, Some, MatchOption};
ghost use Rattle.cfn_certtext.specs.Reading.{decision_of, step_of, text_of_decision, text_of_step};
ghost use Rattle.cfn_certtext.specs.Stages.{line_of_item, values_of};
ghost use Rattle.cfn_replay.specs.Capping.{cap, cap_decision, cap_step};
ghost use Rattle.cfn_replay.specs.Kinds.{IsNodeLine, best_in, best_of, budget_in, cap_text, event_in, is_end, is_heading, numbers_in, is_node, is_of_tree, made_text, values_line};
ghost use Rattle.cfn_replay.specs.Said.{IsWholeIn, line_in};

use crate::said::{EventLine, Said};
use cfn_certtext::{DecisionText, Fields, Item, StepText};

/// How many variables and functions a text says that the network has, and its upper bound.
#[derive(Clone, Copy)]
pub(crate) struct Numbers {
    pub(crate) variables: u64,
    pub(crate) functions: u64,
    pub(crate) upper: u64,
}

/// Whether it is the first line.
pub(crate) fn is_heading(said: &Option<Said<'_>>) -> bool
    ensures { result ≡ is_heading (line_in said.now) }
{
    match said {
        Some(Said::Heading) => true,
        _ => false,
    }
}

/// The numbers of the network.
pub(crate) fn numbers_in(said: &Option<Said<'_>>) -> Option<Numbers>
    ensures { result ≡ numbers_in (line_in said.now) }
{
    match said {
        Some(
            Said::Item(
                Item::Network {
                    variables,
                    functions,
                    upper,
                },
            ),
        ) => Some(Numbers {
            variables: *variables,
            functions: *functions,
            upper: *upper,
        }),
        _ => None,
    }
}

/// How many nodes the search might make.
pub(crate) fn budget_in(said: &Option<Said<'_>>) -> Option<u64>
    ensures { result ≡ budget_in (line_in said.now) }
{
    match said {
        Some(Said::Budget(budget)) => Some(*budget),
        _ => None,
    }
}

/// The event that a line is, if it is one.
pub(crate) fn event_in(said: &Option<Said<'_>>) -> Option<EventLine>
    ensures { result ≡ event_in (line_in said.now) }
{
    match said {
        Some(Said::Event(event)) => Some(*event),
        _ => None,
    }
}

/// The cost of the best assignment, or that there is none, where a line says so.
pub(crate) fn best_in(said: &Option<Said<'_>>) -> Option<Option<u64>>
    ensures { result ≡ best_in (line_in said.now) }
{
    match said {
        Some(Said::Item(item)) => best_of(*item),
        _ => None,
    }
}

/// The same of an item.
fn best_of(item: Item) -> Option<Option<u64>>
    ensures { result ≡ best_of item }
{
    match item {
        Item::NoBest => Some(None),
        Item::Best(cost) => Some(Some(cost)),
        _ => None,
    }
}

/// The first value of the best assignment and the words of the others, where a line has them.
pub(crate) fn values_in<'a>(said: &Option<Said<'a>>) -> Option<(u64, Fields<'a>)>
    ensures { MatchOption result (values_line (line_in said.now) ≡ None)
        (λ told. values_line (line_in said.now) ≡ Some (told.0 ∷ values_of told.1)) }
{
    match said {
        Some(Said::Values { first, others }) => Some((*first, others.again())),
        _ => None,
    }
}

/// Whether a line is the last one.
pub(crate) fn is_end(said: &Option<Said<'_>>) -> bool
    requires { IsWholeIn said.now }
    ensures { result ≡ is_end (line_in said.now) }
{
    match said {
        Some(Said::Item(Item::End)) => true,
        _ => false,
    }
}

/// The item of a node that a line is, if it is one.
pub(crate) fn node_in(said: &Option<Said<'_>>) -> Option<Item>
    ensures { MatchOption result (is_of_tree (line_in said.now) ≡ false) (λ item. IsNodeLine item (line_in said.now)) }
{
    match said {
        Some(Said::Item(item)) => node_line(*item),
        _ => None,
    }
}

/// An item, if it is a line of a node.
fn node_line(item: Item) -> Option<Item>
    ensures { MatchOption result (is_node item ≡ false) (λ it. (it ≡ item) × (is_node item ≡ true)) }
{
    if is_node(item) { Some(item) } else { None }
}

/// Whether an item is a line of a node.
fn is_node(item: Item) -> bool
    ensures { result ≡ is_node item }
{
    match item {
        Item::Step(_) | Item::Open | Item::Closed | Item::Split(_) => true,
        _ => false,
    }
}

/// How many splits and closed leaves an item is.
pub(crate) fn made_by(item: Item) -> u64
    ensures { result ≡ made_text item }
{
    match item {
        Item::Closed | Item::Split(_) => 1,
        _ => 0,
    }
}

/// An item in which each number but an amount that is above the greatest one of 32 bits stands as that one. No network has
/// either in range.
pub(crate) fn capped(item: Item) -> Item
    ensures { result ≡ cap_text item }
{
    match item {
        Item::Step(step) => Item::Step(capped_step(step)),
        Item::Split(decision) => Item::Split(capped_decision(decision)),
        other => other,
    }
}

fn capped_step(step: StepText) -> StepText
    ensures { result ≡ text_of_step (cap_step (step_of step)) }
{
    match step {
        StepText::Project {
            function,
            place,
            value,
            amount,
        } => StepText::Project {
            function: cap(function),
            place: cap(place),
            value: cap(value),
            amount,
        },
        StepText::Extend {
            function,
            place,
            value,
            amount,
        } => StepText::Extend {
            function: cap(function),
            place: cap(place),
            value: cap(value),
            amount,
        },
        StepText::Lift { variable, amount } => StepText::Lift {
            variable: cap(variable),
            amount,
        },
        StepText::CutValue { variable, value } => StepText::CutValue {
            variable: cap(variable),
            value: cap(value),
        },
        StepText::CutTuple { function, cell } => StepText::CutTuple {
            function: cap(function),
            cell: cap(cell),
        },
    }
}

fn capped_decision(decision: DecisionText) -> DecisionText
    ensures { result ≡ text_of_decision (cap_decision (decision_of decision)) }
{
    match decision {
        DecisionText::Is { variable, value } => DecisionText::Is {
            variable: cap(variable),
            value: cap(value),
        },
        DecisionText::Most { variable, value } => DecisionText::Most {
            variable: cap(variable),
            value: cap(value),
        },
    }
}

fn cap(number: u64) -> u64
    ensures { result ≡ cap number }
{
    number.min(4_294_967_295)
}
