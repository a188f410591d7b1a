//! Stores of drawn networks that the enforcer settles, each judged by the plain program.

ghost use Rattle.std.specs.Prelude.{◌≡◌, ◌+◌, ◌<◌, ◌≤◌, length};
ghost use Rattle.cfn_model.specs.Steps.{IsDecision};

use crate::judging::{Answer, Fault, fault_of};
use cfn_edac::Enforcer;
use cfn_gain::{Limits, Settling};
use cfn_incidence::Incidence;
use cfn_model::{Decision, Event, Step};
use cfn_net::Network;
use cfn_store::Store;
use cfn_testing::drawing::{DEAR, Dice, MOST, Shape, draw_shaped, file_of};
use std::alloc::{AllocError, Global};
use std::process::Abort;
use std::test::Fail;

/// What is drawn.
const SHAPE: Shape = Shape {
    variables: 6,
    values: 5,
    assignments: 2_048,
    functions: 10,
    arity: 4,
    listings: 16,
    dear: true,
};

/// How many networks are drawn for each upper bound.
const DRAWN: u64 = 100;

/// How many steps a call may make, from one to as many as any of these makes.
const STEPS: [usize; 4] = [1, 4, 12, 1_000];

/// Settles a store.
fn settle(
    enforcer: &mut Enforcer<'_>,
    store: &mut Store<'_>,
    incidence: &Incidence,
    limits: Limits,
) -> Answer
    requires network { store.old.network ≡ enforcer.old }
    requires incidence { incidence.now ≡ enforcer.old }
    requires threshold { limits.threshold ≤ enforcer.old.upper }
    requires room { limits.steps ≤ length store.old.block + store.old.spare }
    ensures network { store.new.network ≡ store.old.network }
    ensures same { enforcer.new ≡ enforcer.old }
{
    match enforcer.settle(store, incidence, limits, None) {
        Settling::Settled => Answer::Settled,
        Settling::Dead => Answer::Dead,
        Settling::Spent => Answer::Spent,
    }
}

/// The steps since the newest decision.
fn steps_of(alloc: Global, store: &Store<'_>) -> Result<Vec<Step>, AllocError> {
    let block = store.block(alloc)?;
    let mut steps = Vec::new(alloc);
    for step in block.cursor() {
        steps.push(step)?;
    }
    Ok(steps)
}

/// What is wrong with a call on a store that stands behind these events, the newest first, where something is. What it made
/// comes before them.
fn call(
    alloc: Global,
    enforcer: &mut Enforcer<'_>,
    store: &mut Store<'_>,
    incidence: &Incidence,
    network: &Network,
    limits: Limits,
    history: &mut Vec<Event>,
) -> Result<Called, AllocError>
    requires store { store.old.network ≡ network.now }
    requires enforcer { enforcer.old ≡ network.now }
    requires incidence { incidence.now ≡ network.now }
    requires threshold { limits.threshold ≤ network.now.upper }
    ensures network { store.new.network ≡ network.now }
    ensures same { enforcer.new ≡ enforcer.old }
{
    store.reserve(limits.steps)?;
    let answer = settle(enforcer, store, incidence, limits);
    let steps = steps_of(alloc, store)?;
    let Limits {
        threshold: k,
        steps: most,
    } = limits;
    let fault = fault_of(
        alloc,
        network,
        history.as_slice(),
        steps.as_slice(),
        k,
        most,
        answer,
    )?;
    for step in &steps {
        history.insert(0, Event::Did(*step))?;
    }
    Ok(Called { answer, fault })
}

/// How a call ended, and what is wrong with it.
#[derive(Clone, Copy)]
struct Called {
    answer: Answer,
    fault: Option<Fault>,
}

/// What is wrong with calls of so many steps, where something is: at the root of a network, and where that is settled on one
/// side of a split and at a lesser threshold.
fn fault_in(
    alloc: Global,
    network: &Network,
    steps: usize,
    dice: &mut Dice,
) -> Result<Option<Fault>, AllocError> {
    let incidence = Incidence::build(alloc, network)?;
    let fault = fault_over(alloc, &incidence, network, steps, dice);
    drop(incidence);
    fault
}

/// The same, over the network's incidence.
fn fault_over(
    alloc: Global,
    incidence: &Incidence,
    network: &Network,
    steps: usize,
    dice: &mut Dice,
) -> Result<Option<Fault>, AllocError>
    requires { incidence.now ≡ network.now }
{
    let mut store = Store::build(alloc, network)?;
    let fault = fault_from(alloc, &mut store, incidence, network, steps, dice);
    drop(store);
    fault
}

/// The same, with a store that stands at the root.
fn fault_from(
    alloc: Global,
    store: &mut Store<'_>,
    incidence: &Incidence,
    network: &Network,
    steps: usize,
    dice: &mut Dice,
) -> Result<Option<Fault>, AllocError>
    requires store { store.old.network ≡ network.now }
    requires incidence { incidence.now ≡ network.now }
{
    let mut enforcer = Enforcer::make(alloc, network)?;
    let fault = fault_along(alloc, &mut enforcer, store, incidence, network, steps, dice);
    drop(enforcer);
    fault
}

/// The same, by an enforcer.
fn fault_along(
    alloc: Global,
    enforcer: &mut Enforcer<'_>,
    store: &mut Store<'_>,
    incidence: &Incidence,
    network: &Network,
    steps: usize,
    dice: &mut Dice,
) -> Result<Option<Fault>, AllocError>
    requires store { store.old.network ≡ network.now }
    requires enforcer { enforcer.old ≡ network.now }
    requires incidence { incidence.now ≡ network.now }
{
    let mut history = Vec::new(alloc);
    let ub = network.ub();
    for threshold in [ub, ub - ub / 4, ub / 2] {
        let limits = Limits { threshold, steps };
        let called = call(
            alloc,
            enforcer,
            store,
            incidence,
            network,
            limits,
            &mut history,
        )?;
        if called.fault.is_some() || called.answer != Answer::Settled {
            return Ok(called.fault);
        }
        store.reserve(1)?;
        let Some(side) = go_on(store, network, dice) else {
            return Ok(None);
        };
        history.insert(0, side)?;
    }
    Ok(None)
}

/// Goes to a side of a split at a live value of an open variable, where there is one.
fn go_on(store: &mut Store<'_>, network: &Network, dice: &mut Dice) -> Option<Event>
    requires network { store.old.network ≡ network.now }
    requires room { 0 < store.old.spare }
    ensures network { store.new.network ≡ network.now }
{
    let Some((variable, value)) = choice(store, network, dice) else {
        return None;
    };
    if variable >= network.variables() || value >= network.size(variable) {
        return None;
    }
    Some(match dice.below(5) {
        0 => refuse(store, network, Decision::Is { variable, value }),
        1 => refuse(store, network, Decision::Most { variable, value }),
        2 => take(store, network, Decision::Most { variable, value }),
        _ => take(store, network, Decision::Is { variable, value }),
    })
}

/// Goes to the first side.
fn take(store: &mut Store<'_>, network: &Network, decision: Decision) -> Event
    requires network { store.old.network ≡ network.now }
    requires room { 0 < store.old.spare }
    requires decision { IsDecision network.now decision }
    ensures { store.new.network ≡ network.now }
{
    store.take(decision);
    Event::Took(decision)
}

/// Goes to the second side.
fn refuse(store: &mut Store<'_>, network: &Network, decision: Decision) -> Event
    requires network { store.old.network ≡ network.now }
    requires room { 0 < store.old.spare }
    requires decision { IsDecision network.now decision }
    ensures { store.new.network ≡ network.now }
{
    store.refuse(decision);
    Event::Refused(decision)
}

/// A live value of an open variable, where there is one.
fn choice(store: &Store<'_>, network: &Network, dice: &mut Dice) -> Option<(u32, u32)>
    requires { store.now.network ≡ network.now }
{
    let mut found = None;
    for x in 0..network.variables() {
        if store.count(x) >= 2 && (found.is_none() || dice.below(2) == 0) {
            let values = store.live(x);
            let at = dice.below(values.len() as u64) as usize;
            if let Some(value) = values.get(at) {
                found = Some((x, *value));
            }
        }
    }
    found
}

/// Judges calls on drawn networks with this upper bound.
fn judge_drawn<R: Abort>(rt: &R, alloc: Global, upper: u64) -> Result<(), Fail> {
    let mut dice = Dice { state: upper };
    for _ in 0..DRAWN {
        let file = draw_file(alloc, &mut dice, upper)?;
        judge_file(rt, alloc, file.as_str(), &mut dice)?;
    }
    Ok(())
}

/// Draws a network with this upper bound, as a file.
fn draw_file(alloc: Global, dice: &mut Dice, upper: u64) -> Result<String, AllocError> {
    let words = draw_shaped(alloc, dice, SHAPE, upper)?;
    file_of(alloc, words.as_slice())
}

/// Judges calls on the network of a file.
fn judge_file<R: Abort>(rt: &R, alloc: Global, file: &str, dice: &mut Dice) -> Result<(), Fail> {
    let network = cfn_wcsp::read(alloc, file.as_bytes())?;
    let judged = judge_calls(rt, alloc, &network, file, dice);
    drop(network);
    judged
}

/// Judges calls on a network that was read from a file.
fn judge_calls<R: Abort>(
    rt: &R,
    alloc: Global,
    network: &Network,
    file: &str,
    dice: &mut Dice,
) -> Result<(), Fail> {
    for steps in STEPS {
        let fault = fault_in(alloc, network, steps, dice)?;
        assert!(rt; fault == None, "of {file} with {steps} steps");
    }
    Ok(())
}

#[test]
fn nothing_is_below_the_upper_bound(rt: HostRuntime) -> Result<(), Fail> {
    judge_drawn(&rt, rt.alloc(), 0)
}

#[test]
fn upper_bound_is_1(rt: HostRuntime) -> Result<(), Fail> {
    judge_drawn(&rt, rt.alloc(), 1)
}

#[test]
fn upper_bound_is_10(rt: HostRuntime) -> Result<(), Fail> {
    judge_drawn(&rt, rt.alloc(), 10)
}

#[test]
fn upper_bound_is_100(rt: HostRuntime) -> Result<(), Fail> {
    judge_drawn(&rt, rt.alloc(), 100)
}

#[test]
fn upper_bound_is_as_dear_as_a_cost(rt: HostRuntime) -> Result<(), Fail> {
    judge_drawn(&rt, rt.alloc(), DEAR)
}

#[test]
fn upper_bound_is_the_greatest(rt: HostRuntime) -> Result<(), Fail> {
    judge_drawn(&rt, rt.alloc(), MOST)
}
