//! Whether steps fall into groups, each a run of extends and projects and then a step that closes it (Cooper et al. 2010).
//!
//! A shift that closes its group may go on with it all the same, so a group may have several ends. From the last step on, it
//! is told for each step whether those behind it are groups; the steps from one place on are groups where the first group has
//! an end behind which they are.

ghost use Rattle.std.specs.Prelude.{◌≡◌, ◌↔◌, ◌<◌, ◌⊎◌, length, IsTrue, IfOk};
ghost use Rattle.cfn_consistency.specs.Groups.{IsShift, Projects, Extends, Repeats, IsNew, GotSupport, GotFullSupport, Closes, begun, LeadTo, AreGroups, AreOpenGroups};
ghost use Rattle.cfn_plain.specs.Groups.{Ends, Tells, GotFullSupportWith};

use crate::functions::{scope, variable};
use crate::live::is_live;
use crate::openness::{has_open_pair, takes_part};
use crate::steps::extended;
use crate::supports::{has_full_support, has_support, is_live_cell};
use cfn_model::{Event, Step};
use cfn_net::Network;
use std::alloc::{AllocError, Global};

/// A value at a place of a function.
#[derive(Clone, Copy)]
struct Spot {
    function: u32,
    place: usize,
    value: u32,
}

/// Whether steps after a history, the newest event first, are groups, in each of which nothing is extended twice and nothing
/// projected to twice. An `Err` is want of memory.
pub fn are_groups(
    alloc: Global,
    network: &Network,
    history: &[Event],
    steps: &[Step],
) -> Result<bool, AllocError>
    ensures { IfOk result (λ answer. IsTrue answer ↔ AreGroups network.now history.now steps.now) }
{
    lead(alloc, network, history, steps, false)
}

/// Whether they are groups, the last of which may be unfinished. An `Err` is want of memory.
pub fn are_open_groups(
    alloc: Global,
    network: &Network,
    history: &[Event],
    steps: &[Step],
) -> Result<bool, AllocError>
    ensures { IfOk result (λ answer. IsTrue answer ↔ AreOpenGroups network.now history.now steps.now) }
{
    lead(alloc, network, history, steps, true)
}

/// Whether steps are groups, the last of which may be unfinished where that is allowed.
fn lead(
    alloc: Global,
    network: &Network,
    history: &[Event],
    steps: &[Step],
    unfinished: bool,
) -> Result<bool, AllocError>
    ensures { IfOk result (λ answer. IsTrue answer ↔ LeadTo network.now (Ends unfinished) (begun history.now) history.now steps.now) }
{
    let told = tell(alloc, network, history, steps, unfinished)?;
    leads(alloc, network, history, steps, told.as_slice(), unfinished)
}

/// For each step, whether those behind it are groups.
fn tell(
    alloc: Global,
    network: &Network,
    history: &[Event],
    steps: &[Step],
    unfinished: bool,
) -> Result<Vec<bool>, AllocError>
    ensures { IfOk result (λ told. Tells network.now (Ends unfinished) history.now steps.now told.items) }
{
    let [step, rest @ ..] = steps else {
        return Ok(Vec::new(alloc));
    };
    let behind = extended(alloc, Event::Did(*step), history)?;
    let mut told = tell(alloc, network, behind.as_slice(), rest, unfinished)?;
    let first = leads(
        alloc,
        network,
        behind.as_slice(),
        rest,
        told.as_slice(),
        unfinished,
    )?;
    told.insert(0, first)?;
    Ok(told)
}

/// Whether steps are groups, where it is told for each step whether those behind it are.
fn leads(
    alloc: Global,
    network: &Network,
    start: &[Event],
    steps: &[Step],
    told: &[bool],
    unfinished: bool,
) -> Result<bool, AllocError>
    requires { Tells network.now (Ends unfinished) start.now steps.now told.now }
    ensures { IfOk result (λ answer. IsTrue answer ↔ LeadTo network.now (Ends unfinished) (begun start.now) start.now steps.now) }
{
    let mut history = Vec::from_slice(alloc, start)?;
    let mut group = Vec::new(alloc);
    for (i, step) in steps.iter().enumerate() {
        if !is_new(group.as_slice(), *step) {
            return Ok(false);
        }
        if told[i] && closes(alloc, network, start, history.as_slice(), *step)? {
            return Ok(true);
        }
        if !is_shift(*step) {
            return Ok(false);
        }
        history.insert(0, Event::Did(*step))?;
        group.insert(0, *step)?;
    }
    Ok(unfinished || group.is_empty())
}

/// Whether a step may stand before the one that closes its group: it projects or extends.
fn is_shift(step: Step) -> bool
    ensures { IsTrue result ↔ IsShift step }
{
    matches!(step, Step::Project { .. } | Step::Extend { .. })
}

/// Whether a step repeats none of these.
fn is_new(group: &[Step], step: Step) -> bool
    ensures { IsTrue result ↔ IsNew group.now step }
{
    for other in group {
        if repeats(step, *other) {
            return false;
        }
    }
    true
}

/// Whether a step does what another one does, with any amount.
fn repeats(step: Step, other: Step) -> bool
    ensures { IsTrue result ↔ Repeats step other }
{
    match step {
        Step::Project {
            function,
            place,
            value,
            ..
        } => projects(function, place, value, other),
        Step::Extend {
            function,
            place,
            value,
            ..
        } => extends(function, place, value, other),
        _ => false,
    }
}

/// Whether a step projects to the value `a` at place `i` of `f`.
fn projects(f: u32, i: u32, a: u32, step: Step) -> bool
    ensures { IsTrue result ↔ Projects f i a step }
{
    match step {
        Step::Project {
            function,
            place,
            value,
            ..
        } => function == f && place == i && value == a,
        _ => false,
    }
}

/// Whether a step extends the value `a` at place `i` of `f`.
fn extends(f: u32, i: u32, a: u32, step: Step) -> bool
    ensures { IsTrue result ↔ Extends f i a step }
{
    match step {
        Step::Extend {
            function,
            place,
            value,
            ..
        } => function == f && place == i && value == a,
        _ => false,
    }
}

/// Whether a step after a history closes the group that began at a start: it lifts, it cuts what was live, or by its project
/// a value got a support or a full support.
fn closes(
    alloc: Global,
    network: &Network,
    start: &[Event],
    history: &[Event],
    step: Step,
) -> Result<bool, AllocError>
    ensures { IfOk result (λ answer. IsTrue answer ↔ Closes network.now start.now history.now step) }
{
    match step {
        Step::Project {
            function,
            place,
            value,
            ..
        } => {
            let end = extended(alloc, Event::Did(step), history)?;
            let spot = Spot {
                function,
                place: place as usize,
                value,
            };
            got_any(alloc, network, start, end.as_slice(), spot)
        }
        Step::Extend { .. } => Ok(false),
        Step::Lift { .. } => Ok(true),
        Step::CutValue { variable, value } => Ok(is_live(history, variable, value)),
        Step::CutTuple { function, cell } => is_live_cell(alloc, network, history, function, cell),
    }
}

/// Whether between two histories a value got a support or a full support.
fn got_any(
    alloc: Global,
    network: &Network,
    start: &[Event],
    end: &[Event],
    spot: Spot,
) -> Result<bool, AllocError>
    ensures { IfOk result (λ answer. IsTrue answer
        ↔ (GotSupport network.now start.now end.now spot.function spot.place spot.value
        ⊎ GotFullSupport network.now start.now end.now spot.function spot.place spot.value)) }
{
    if spot.function >= network.functions() {
        return Ok(false);
    }
    Ok(
        got_support(alloc, network, start, end, spot)?
            || got_full_support(alloc, network, start, end, spot)?,
    )
}

/// Whether between two histories a live value got a support in a function that takes part.
fn got_support(
    alloc: Global,
    network: &Network,
    start: &[Event],
    end: &[Event],
    spot: Spot,
) -> Result<bool, AllocError>
    requires { spot.function < length network.now.functions }
    ensures { IfOk result (λ answer. IsTrue answer ↔ GotSupport network.now start.now end.now spot.function spot.place spot.value) }
{
    let Spot {
        function: f,
        place,
        value,
    } = spot;
    if !takes_part(network, end, f) || !is_live(end, variable(network, f, place), value) {
        return Ok(false);
    }
    Ok(
        !has_support(alloc, network, start, f, place, value)?
            && has_support(alloc, network, end, f, place, value)?,
    )
}

/// Whether between two histories a live value of the lower of two open variables got a full support.
fn got_full_support(
    alloc: Global,
    network: &Network,
    start: &[Event],
    end: &[Event],
    spot: Spot,
) -> Result<bool, AllocError>
    requires { spot.function < length network.now.functions }
    ensures { IfOk result (λ answer. IsTrue answer ↔ GotFullSupport network.now start.now end.now spot.function spot.place spot.value) }
{
    for other in 0..scope(network, spot.function).len() {
        if got_full_support_with(alloc, network, start, end, spot, other)? {
            return Ok(true);
        }
    }
    Ok(false)
}

/// Whether it got one with regard to the variable at another place.
fn got_full_support_with(
    alloc: Global,
    network: &Network,
    start: &[Event],
    end: &[Event],
    spot: Spot,
    other: usize,
) -> Result<bool, AllocError>
    requires { spot.function < length network.now.functions }
    ensures { IfOk result (λ answer. IsTrue answer
        ↔ GotFullSupportWith network.now start.now end.now spot.function spot.place other spot.value) }
{
    let Spot {
        function: f,
        place,
        value,
    } = spot;
    let x = variable(network, f, place);
    if !has_open_pair(network, end, f, place, other)
        || x >= variable(network, f, other)
        || !is_live(end, x, value)
    {
        return Ok(false);
    }
    Ok(
        !has_full_support(alloc, network, start, f, place, other, value)?
            && has_full_support(alloc, network, end, f, place, other, value)?,
    )
}
