//! Which of the lines that may come a line is.

ghost use Rattle.std.specs.Prelude.{◌≡◌, ◌∷◌, Some, false, MatchOption};
ghost use Rattle.cfn_fault.specs.Lines as lines;
ghost use Rattle.cfn_certtext.specs.Giving.{Gives};
ghost use Rattle.cfn_certtext.specs.Stages.{line_of_item, values_of};
ghost use Rattle.cfn_best.specs.Lines.{Says};
ghost use Rattle.cfn_bestcheck.specs.Said.{IsWholeIn, line_in};
ghost use Rattle.cfn_bestcheck.specs.Kinds.{IsTreeLine, count_in, is_end, is_heading, is_node, is_of_tree, is_root, lower_in, many_in, numbers_in, values_in};

use crate::said::Said;
use cfn_certtext::{Fields, Item};

/// How many variables and functions a text says that the network has, and its upper bound.
#[derive(Clone, Copy)]
pub(crate) struct Numbers {
    pub(crate) variables: u64,
    pub(crate) functions: u64,
    pub(crate) upper: u64,
}

/// A line of a tree.
#[derive(Clone, Copy)]
pub(crate) enum TreeLine {
    Node(Item),
    Listed(u64),
}

/// Whether it is the first line.
pub(crate) fn is_heading(said: &Option<Said<'_>>) -> bool
    ensures { result ≡ is_heading (line_in said.now) }
{
    match said {
        Some(Said::Heading) => true,
        _ => false,
    }
}

/// The numbers of the network.
pub(crate) fn numbers_in(said: &Option<Said<'_>>) -> Option<Numbers>
    ensures { result ≡ numbers_in (line_in said.now) }
{
    match said {
        Some(
            Said::Item(
                Item::Network {
                    variables,
                    functions,
                    upper,
                },
            ),
        ) => Some(Numbers {
            variables: *variables,
            functions: *functions,
            upper: *upper,
        }),
        _ => None,
    }
}

/// How many assignments were asked for.
pub(crate) fn count_in(said: &Option<Said<'_>>) -> Option<u64>
    ensures { result ≡ count_in (line_in said.now) }
{
    match said {
        Some(Said::Count(count)) => Some(*count),
        _ => None,
    }
}

/// The lower bound.
pub(crate) fn lower_in(said: &Option<Said<'_>>) -> Option<u64>
    ensures { result ≡ lower_in (line_in said.now) }
{
    match said {
        Some(Said::Item(Item::Lower(lower))) => Some(*lower),
        _ => None,
    }
}

/// How many assignments are listed.
pub(crate) fn many_in(said: &Option<Said<'_>>) -> Option<u64>
    ensures { result ≡ many_in (line_in said.now) }
{
    match said {
        Some(Said::Item(Item::Best(many))) => Some(*many),
        _ => None,
    }
}

/// The cost of an assignment, and the words of its values, one at least.
pub(crate) fn values_in<'a>(said: Option<Said<'a>>) -> Option<(u64, Fields<'a>)>
    ensures { Gives (λ found. (found.0, values_of found.1)) result (values_in (line_in said.entry)) }
{
    match said {
        Some(Said::Values { first, others }) => with_values(first, others),
        _ => None,
    }
}

/// A cost with the words of values, where there is one at least.
fn with_values<'a>(cost: u64, words: Fields<'a>) -> Option<(u64, Fields<'a>)>
    ensures { Gives (λ found. (found.0, values_of found.1)) result
        (values_in (Some (Says (lines.Values (cost ∷ values_of words.entry))))) }
{
    match words.end() {
        Some(()) => None,
        None => Some((cost, words)),
    }
}

/// Whether it begins the tree.
pub(crate) fn is_root(said: &Option<Said<'_>>) -> bool
    ensures { result ≡ is_root (line_in said.now) }
{
    match said {
        Some(Said::Item(Item::Tree)) => true,
        _ => false,
    }
}

/// Whether it is the last line.
pub(crate) fn is_end(said: &Option<Said<'_>>) -> bool
    requires { IsWholeIn said.now }
    ensures { result ≡ is_end (line_in said.now) }
{
    match said {
        Some(Said::Item(Item::End)) => true,
        _ => false,
    }
}

/// The line of a tree that it is, if it is one.
pub(crate) fn tree_line_in(said: &Option<Said<'_>>) -> Option<TreeLine>
    ensures { MatchOption result (is_of_tree (line_in said.now) ≡ false) (λ line. IsTreeLine line (line_in said.now)) }
{
    match said {
        Some(Said::Listed(number)) => Some(TreeLine::Listed(*number)),
        Some(Said::Item(item)) => node_line(*item),
        _ => None,
    }
}

/// The line of a node that an item is, if it is one.
fn node_line(item: Item) -> Option<TreeLine>
    ensures { MatchOption result (is_of_tree (Some (Says (line_of_item item))) ≡ false)
        (λ line. IsTreeLine line (Some (Says (line_of_item item)))) }
{
    if is_node(item) {
        Some(TreeLine::Node(item))
    } else {
        None
    }
}

/// Whether an item is a line of a tree.
fn is_node(item: Item) -> bool
    ensures { result ≡ is_node item }
{
    match item {
        Item::Step(_) | Item::Open | Item::Closed | Item::Split(_) => true,
        _ => false,
    }
}
