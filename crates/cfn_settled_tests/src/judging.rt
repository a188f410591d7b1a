//! A plain judge of enforcing calls: it shares no code with the store or the enforcer, knows a state by its whole history,
//! the newest event first, and asks the plain program of each value and tuple.

ghost use Rattle.std.specs.Prelude.{◌<◌, length};

use cfn_model::{Event, Step};
use cfn_net::Network;
use cfn_plain::{Ask, Sought};
use std::alloc::{AllocError, Global};

/// How an enforcing call says that it ended.
#[derive(Clone, Copy, PartialEq, Eq)]
pub(crate) enum Answer {
    Settled,
    Dead,
    Spent,
}

/// What is wrong with an enforcing call.
#[derive(Clone, Copy, PartialEq, Eq)]
pub(crate) enum Fault {
    /// A step is not allowed behind those before it.
    Step,
    /// Behind a step the cost of a live value or tuple is below 0, or at least 2^64.
    Cost,
    /// There are more steps than there may be.
    Limit,
    /// They are no groups, or, where it is spent, no groups of which the last may be unfinished.
    Groups,
    /// It is said to be settled, and is not.
    Node,
    Arc,
    Directional,
    Existential,
    /// It is said to be dead, and is not.
    Dead,
    /// It is said to be spent, and has fewer steps than it may have, or no step is due.
    Spent,
}

/// What is wrong with a call that made these steps behind a history, at the threshold `k`, and of which there may be `most`.
pub(crate) fn fault_of(
    alloc: Global,
    network: &Network,
    before: &[Event],
    steps: &[Step],
    k: u64,
    most: usize,
    answer: Answer,
) -> Result<Option<Fault>, AllocError> {
    if !cfn_plain::runs(alloc, network, before, steps, k)? {
        return Ok(Some(Fault::Step));
    }
    let mut history = Vec::from_slice(alloc, before)?;
    for step in steps {
        history.insert(0, Event::Did(*step))?;
        if !costs_fit(alloc, network, history.as_slice())? {
            return Ok(Some(Fault::Cost));
        }
    }
    if steps.len() > most {
        return Ok(Some(Fault::Limit));
    }
    if !are_grouped(alloc, network, before, steps, answer)? {
        return Ok(Some(Fault::Groups));
    }
    let history = history.as_slice();
    match answer {
        Answer::Settled => inconsistency_of(alloc, network, history, k),
        Answer::Dead if !cfn_plain::can_close(network, history, k) => Ok(Some(Fault::Dead)),
        Answer::Spent if steps.len() < most => Ok(Some(Fault::Spent)),
        Answer::Spent if inconsistency_of(alloc, network, history, k)?.is_none() => {
            Ok(Some(Fault::Spent))
        }
        _ => Ok(None),
    }
}

/// Whether the steps of a call are groups, the last of which may be unfinished where it is spent.
fn are_grouped(
    alloc: Global,
    network: &Network,
    before: &[Event],
    steps: &[Step],
    answer: Answer,
) -> Result<bool, AllocError> {
    match answer {
        Answer::Settled | Answer::Dead => cfn_plain::are_groups(alloc, network, before, steps),
        Answer::Spent => cfn_plain::are_open_groups(alloc, network, before, steps),
    }
}

/// Whether the cost of each live value and tuple is at least 0 and below 2^64.
fn costs_fit(alloc: Global, network: &Network, history: &[Event]) -> Result<bool, AllocError> {
    for x in 0..network.variables() {
        for value in 0..size(network, x) {
            let cost = cfn_plain::unary(network, history, x, value);
            if cfn_plain::is_live(history, x, value) && (cost < 0 || cost > u64::MAX as i128) {
                return Ok(false);
            }
        }
    }
    for f in 0..network.functions() {
        let sought = Sought {
            function: f,
            ask: Ask::Outside,
        };
        if cfn_plain::has_tuple(alloc, network, history, sought)? {
            return Ok(false);
        }
    }
    Ok(true)
}

/// The first local consistency that a state lacks at the threshold `k`.
fn inconsistency_of(
    alloc: Global,
    network: &Network,
    history: &[Event],
    k: u64,
) -> Result<Option<Fault>, AllocError> {
    for x in 0..network.variables() {
        if !is_node_consistent(alloc, network, history, x, k)? {
            return Ok(Some(Fault::Node));
        }
    }
    for f in 0..network.functions() {
        if cfn_plain::takes_part(network, history, f)
            && !is_arc_consistent(alloc, network, history, f)?
        {
            return Ok(Some(Fault::Arc));
        }
        if !is_directional(alloc, network, history, f)? {
            return Ok(Some(Fault::Directional));
        }
    }
    for x in 0..network.variables() {
        if !is_existential(alloc, network, history, x)? {
            return Ok(Some(Fault::Existential));
        }
    }
    Ok(None)
}

/// Whether each live value of a variable together with the floor costs less than `k`, so that it may not be cut, and one of
/// them has the unary cost 0.
fn is_node_consistent(
    alloc: Global,
    network: &Network,
    history: &[Event],
    x: u32,
    k: u64,
) -> Result<bool, AllocError> {
    for value in 0..size(network, x) {
        let cut = Step::CutValue { variable: x, value };
        if cfn_plain::is_live(history, x, value)
            && cfn_plain::allowed(alloc, network, history, cut, k)?
        {
            return Ok(false);
        }
    }
    Ok((0..size(network, x)).any(|value| is_free(network, history, x, value)))
}

/// Whether a value is live and has the unary cost 0.
fn is_free(network: &Network, history: &[Event], x: u32, value: u32) -> bool {
    cfn_plain::is_live(history, x, value) && cfn_plain::unary(network, history, x, value) == 0
}

/// Whether each live value of each variable of a function has a support.
fn is_arc_consistent(
    alloc: Global,
    network: &Network,
    history: &[Event],
    f: u32,
) -> Result<bool, AllocError>
    requires { f < length network.now.functions }
{
    for place in 0..network.scope(f).len() {
        let x = variable(network, f, place);
        for value in 0..size(network, x) {
            if cfn_plain::is_live(history, x, value)
                && !cfn_plain::has_support(alloc, network, history, f, place, value)?
            {
                return Ok(false);
            }
        }
    }
    Ok(true)
}

/// Whether each live value of the lower one of a function's two open variables, where these are two, has a full support.
fn is_directional(
    alloc: Global,
    network: &Network,
    history: &[Event],
    f: u32,
) -> Result<bool, AllocError>
    requires { f < length network.now.functions }
{
    for i in 0..network.scope(f).len() {
        for j in 0..network.scope(f).len() {
            if variable(network, f, i) < variable(network, f, j)
                && cfn_plain::has_open_pair(network, history, f, i, j)
                && !is_full(alloc, network, history, f, i, j)?
            {
                return Ok(false);
            }
        }
    }
    Ok(true)
}

/// Whether each live value at the place `i` of a function has a full support with regard to the variable at `j`.
fn is_full(
    alloc: Global,
    network: &Network,
    history: &[Event],
    f: u32,
    i: usize,
    j: usize,
) -> Result<bool, AllocError>
    requires { f < length network.now.functions }
{
    let x = variable(network, f, i);
    for value in 0..size(network, x) {
        if cfn_plain::is_live(history, x, value)
            && !cfn_plain::has_full_support(alloc, network, history, f, i, j, value)?
        {
            return Ok(false);
        }
    }
    Ok(true)
}

/// Whether a live value of a variable has the unary cost 0 and a full support in each first function of the variable and
/// another open one.
fn is_existential(
    alloc: Global,
    network: &Network,
    history: &[Event],
    x: u32,
) -> Result<bool, AllocError> {
    for value in 0..size(network, x) {
        if is_free(network, history, x, value)
            && has_all_supports(alloc, network, history, x, value)?
        {
            return Ok(true);
        }
    }
    Ok(false)
}

/// Whether a value has a full support in each first function of its variable and another open one.
fn has_all_supports(
    alloc: Global,
    network: &Network,
    history: &[Event],
    x: u32,
    value: u32,
) -> Result<bool, AllocError> {
    for f in 0..network.functions() {
        for i in 0..network.scope(f).len() {
            for j in 0..network.scope(f).len() {
                if variable(network, f, i) == x
                    && cfn_plain::has_open_pair(network, history, f, i, j)
                    && is_first(network, history, f, i, j)
                    && !cfn_plain::has_full_support(alloc, network, history, f, i, j, value)?
                {
                    return Ok(false);
                }
            }
        }
    }
    Ok(true)
}

/// Whether no function of a lower number has the same two open variables.
fn is_first(network: &Network, history: &[Event], f: u32, i: usize, j: usize) -> bool
    requires { f < length network.now.functions }
{
    for g in 0..f {
        for p in 0..network.scope(g).len() {
            for q in 0..network.scope(g).len() {
                if variable(network, g, p) == variable(network, f, i)
                    && variable(network, g, q) == variable(network, f, j)
                    && cfn_plain::has_open_pair(network, history, g, p, q)
                {
                    return false;
                }
            }
        }
    }
    true
}

/// The size of a variable's domain, or 0 where there is no such variable.
pub(crate) fn size(network: &Network, x: u32) -> u32 {
    if x < network.variables() {
        network.size(x)
    } else {
        0
    }
}

/// The variable at a place of a function, or 0 where there is none.
fn variable(network: &Network, f: u32, place: usize) -> u32
    requires { f < length network.now.functions }
{
    network.scope(f).get(place).copied().unwrap_or(0)
}
