//! One line of a certificate, by the words on it.

ghost use Rattle.std.specs.Prelude.{◌≡◌, IfSome};
ghost use Rattle.std.specs.Str.{bytes_eq};
ghost use Rattle.cfn_fault.specs.Decoding.{are_values, at_end, best_line, extend_line, item_line, lift_line, line_by, line_of, lower_line, node_line, numbers_line, part_line, project_line, split_line, tuple_line, value_line, version_line, version_of, words_in};
ghost use Rattle.cfn_certtext.specs.Giving.{Gives};
ghost use Rattle.cfn_certtext.specs.Parsed.{IsWholeLine, line_of_parsed};
ghost use Rattle.cfn_certtext.specs.Stages.{IsWhole, line_of_item};

use crate::event::{DecisionText, Item, StepText};
use crate::fields::{Fields, numeral};
use crate::parsed::Parsed;
use cfn_model::Version;

/// What a line says, given without its LF, where it is one of a certificate.
#[tactic(auto, unfolding(cfn_fault::specs::Decoding::line_of))]
pub fn parse(front: &[u8]) -> Option<Parsed<'_>>
    ensures gives { Gives line_of_parsed result (line_of (words_in front.now)) }
    ensures whole { IfSome result IsWholeLine }
{
    let mut fields = Fields::of(front);
    let word = fields.word()?;
    parse_behind(word, fields)
}

/// What a line says, behind its first word.
fn parse_behind<'a>(word: &[u8], fields: Fields<'a>) -> Option<Parsed<'a>>
    ensures gives { Gives line_of_parsed result (line_by word.now fields.entry) }
    ensures whole { IfSome result IsWholeLine }
{
    if is(word, b"values") {
        return values(fields);
    }
    Some(Parsed::One(item(word, fields)?))
}

/// What a line that is one item says, behind its first word.
#[tactic(auto, unfolding(cfn_fault::specs::Decoding::item_line))]
fn item(word: &[u8], fields: Fields<'_>) -> Option<Item>
    ensures gives { Gives line_of_item result (item_line word.now fields.entry) }
    ensures whole { IfSome result IsWhole }
{
    if is(word, b"wcspcert") {
        version(fields)
    } else if is(word, b"network") {
        network(fields)
    } else if is(word, b"lower") {
        lower(fields)
    } else if is(word, b"best") {
        best(fields)
    } else if is(word, b"tree") {
        alone(&fields, Item::Tree)
    } else if is(word, b"end") {
        alone(&fields, Item::End)
    } else {
        item_of_node(word, fields)
    }
}

/// What a line of a node says, behind its first word.
#[tactic(auto, unfolding(cfn_fault::specs::Decoding::node_line))]
fn item_of_node(word: &[u8], fields: Fields<'_>) -> Option<Item>
    ensures gives { Gives line_of_item result (node_line word.now fields.entry) }
    ensures whole { IfSome result IsWhole }
{
    if is(word, b"p") {
        project(fields)
    } else if is(word, b"e") {
        extend(fields)
    } else if is(word, b"u") {
        lift(fields)
    } else if is(word, b"v") {
        cut_value(fields)
    } else if is(word, b"t") {
        cut_tuple(fields)
    } else if is(word, b"open") {
        alone(&fields, Item::Open)
    } else if is(word, b"closed") {
        alone(&fields, Item::Closed)
    } else if is(word, b"split") {
        split(fields)
    } else if is(word, b"part") {
        part(fields)
    } else {
        None
    }
}

/// Whether a word is this one.
fn is(word: &[u8], key: &[u8]) -> bool
    ensures { result ≡ bytes_eq word.now key.now }
{
    word == key
}

/// An item, where no word is left.
fn alone(fields: &Fields<'_>, item: Item) -> Option<Item>
    ensures gives { Gives line_of_item result (at_end (line_of_item item) fields.now) }
    ensures same { IfSome result (λ it. it ≡ item) }
{
    fields.end()?;
    Some(item)
}

/// The version.
#[tactic(auto, unfolding(cfn_fault::specs::Decoding::version_line))]
fn version(mut fields: Fields<'_>) -> Option<Item>
    ensures gives { Gives line_of_item result (version_line fields.entry) }
    ensures whole { IfSome result IsWhole }
{
    let version = version_of(fields.word()?)?;
    fields.end()?;
    Some(Item::Version(version))
}

/// The version that a word names, if it names one.
#[tactic(auto, unfolding(cfn_fault::specs::Decoding::version_of))]
fn version_of(word: &[u8]) -> Option<Version>
    ensures { result ≡ version_of word.now }
{
    match word {
        b"1" => Some(Version::First),
        b"2" => Some(Version::Second),
        _ => None,
    }
}

/// The numbers of the network.
#[tactic(auto, unfolding(cfn_fault::specs::Decoding::numbers_line))]
fn network(mut fields: Fields<'_>) -> Option<Item>
    ensures gives { Gives line_of_item result (numbers_line fields.entry) }
    ensures whole { IfSome result IsWhole }
{
    let variables = fields.number()?;
    let functions = fields.number()?;
    let upper = fields.number()?;
    fields.end()?;
    Some(Item::Network {
        variables,
        functions,
        upper,
    })
}

/// The lower bound.
#[tactic(auto, unfolding(cfn_fault::specs::Decoding::lower_line))]
fn lower(mut fields: Fields<'_>) -> Option<Item>
    ensures gives { Gives line_of_item result (lower_line fields.entry) }
    ensures whole { IfSome result IsWhole }
{
    let bound = fields.number()?;
    fields.end()?;
    Some(Item::Lower(bound))
}

/// The cost of the best assignment, or that none is known.
#[tactic(auto, unfolding(cfn_fault::specs::Decoding::best_line, cfn_fault::specs::Decoding::number_from))]
fn best(mut fields: Fields<'_>) -> Option<Item>
    ensures gives { Gives line_of_item result (best_line fields.entry) }
    ensures whole { IfSome result IsWhole }
{
    let word = fields.word()?;
    let item = if is(word, b"none") {
        Item::NoBest
    } else {
        Item::Best(numeral(word)?)
    };
    fields.end()?;
    Some(item)
}

/// Values, one at least.
fn values<'a>(mut fields: Fields<'a>) -> Option<Parsed<'a>>
    ensures gives { Gives line_of_parsed result (are_values fields.entry) }
    ensures whole { IfSome result IsWholeLine }
{
    let first = fields.number()?;
    if !fields.are_numbers() {
        return None;
    }
    Some(Parsed::Values {
        first,
        others: fields,
    })
}

/// A project.
#[tactic(auto, unfolding(cfn_fault::specs::Decoding::project_line))]
fn project(mut fields: Fields<'_>) -> Option<Item>
    ensures gives { Gives line_of_item result (project_line fields.entry) }
    ensures whole { IfSome result IsWhole }
{
    let function = fields.number()?;
    let place = fields.number()?;
    let value = fields.number()?;
    let amount = fields.amount()?;
    fields.end()?;
    Some(Item::Step(StepText::Project {
        function,
        place,
        value,
        amount,
    }))
}

/// An extend.
#[tactic(auto, unfolding(cfn_fault::specs::Decoding::extend_line))]
fn extend(mut fields: Fields<'_>) -> Option<Item>
    ensures gives { Gives line_of_item result (extend_line fields.entry) }
    ensures whole { IfSome result IsWhole }
{
    let function = fields.number()?;
    let place = fields.number()?;
    let value = fields.number()?;
    let amount = fields.amount()?;
    fields.end()?;
    Some(Item::Step(StepText::Extend {
        function,
        place,
        value,
        amount,
    }))
}

/// A lift.
#[tactic(auto, unfolding(cfn_fault::specs::Decoding::lift_line))]
fn lift(mut fields: Fields<'_>) -> Option<Item>
    ensures gives { Gives line_of_item result (lift_line fields.entry) }
    ensures whole { IfSome result IsWhole }
{
    let variable = fields.number()?;
    let amount = fields.amount()?;
    fields.end()?;
    Some(Item::Step(StepText::Lift { variable, amount }))
}

/// A cut of a value.
#[tactic(auto, unfolding(cfn_fault::specs::Decoding::value_line))]
fn cut_value(mut fields: Fields<'_>) -> Option<Item>
    ensures gives { Gives line_of_item result (value_line fields.entry) }
    ensures whole { IfSome result IsWhole }
{
    let variable = fields.number()?;
    let value = fields.number()?;
    fields.end()?;
    Some(Item::Step(StepText::CutValue { variable, value }))
}

/// A cut of a tuple.
#[tactic(auto, unfolding(cfn_fault::specs::Decoding::tuple_line))]
fn cut_tuple(mut fields: Fields<'_>) -> Option<Item>
    ensures gives { Gives line_of_item result (tuple_line fields.entry) }
    ensures whole { IfSome result IsWhole }
{
    let function = fields.number()?;
    let cell = fields.number()?;
    fields.end()?;
    Some(Item::Step(StepText::CutTuple { function, cell }))
}

/// A split by a value.
#[tactic(auto, unfolding(cfn_fault::specs::Decoding::split_line))]
fn split(mut fields: Fields<'_>) -> Option<Item>
    ensures gives { Gives line_of_item result (split_line fields.entry) }
    ensures whole { IfSome result IsWhole }
{
    let variable = fields.number()?;
    let value = fields.number()?;
    fields.end()?;
    Some(Item::Split(DecisionText::Is { variable, value }))
}

/// A split by a bound.
#[tactic(auto, unfolding(cfn_fault::specs::Decoding::part_line))]
fn part(mut fields: Fields<'_>) -> Option<Item>
    ensures gives { Gives line_of_item result (part_line fields.entry) }
    ensures whole { IfSome result IsWhole }
{
    let variable = fields.number()?;
    let value = fields.number()?;
    fields.end()?;
    Some(Item::Split(DecisionText::Most { variable, value }))
}
