//! A plain judge of what a store tells. It knows where the store stands by the list of events alone, the newest first, has the
//! plain program add up each cost anew, and goes through all tuples of each function.

ghost use Rattle.std.specs.Prelude.{◌≡◌, ◌<◌, length, IsTrue};
ghost use Rattle.cfn_model.specs.Network.{Fits, dims, arity};
ghost use Rattle.cfn_model.specs.Steps.{IsPlace};

use cfn_model::Event;
use cfn_net::Network;
use cfn_scan::{Extreme, Sense};
use cfn_store::Store;
use std::alloc::{AllocError, Global};

/// A value at a place of a function.
#[derive(Clone, Copy, PartialEq, Eq)]
pub(crate) struct Place {
    pub function: u32,
    pub place: u32,
    pub value: u32,
}

/// What a store tells that is wrong.
#[derive(Clone, Copy, PartialEq, Eq)]
pub(crate) enum Fault {
    /// The steps since the newest decision.
    Block,
    Floor,
    Live { variable: u32, value: u32 },
    Count { variable: u32 },
    Unary { variable: u32, value: u32 },
    /// The least residual cost, whether a value lacks a support, and the greatest residual cost.
    Least(Place),
    Support(Place),
    Greatest(Place),
    /// Whether a tuple is live, or its residual cost, which is 0 where it is dead.
    Cell { function: u32, cell: u32 },
    /// The judge did not go through the tuples of a function.
    Tuples { function: u32 },
}

/// A live tuple: its values, its number and its residual cost.
#[derive(Drop)]
struct LiveTuple {
    values: Vec<u32>,
    cell: u32,
    cost: i128,
}

/// The first that a store tells wrong behind these events, the newest first.
pub(crate) fn fault_of(
    alloc: Global,
    network: &Network,
    store: &mut Store<'_>,
    history: &[Event],
) -> Result<Option<Fault>, AllocError>
    requires network { store.old.network ≡ network.now }
    ensures same { store.new ≡ store.old }
{
    if !has_block(store, history) {
        return Ok(Some(Fault::Block));
    }
    if store.floor() != cfn_plain::floor(network, history) {
        return Ok(Some(Fault::Floor));
    }
    for x in 0..network.variables() {
        if let Some(fault) = fault_at(network, store, history, x) {
            return Ok(Some(fault));
        }
    }
    for f in 0..network.functions() {
        if let Some(fault) = fault_in(alloc, network, store, history, f)? {
            return Ok(Some(fault));
        }
    }
    Ok(None)
}

/// Whether the block is the steps since the newest decision, the oldest first.
fn has_block(store: &Store<'_>, history: &[Event]) -> bool {
    let len = store.block_len();
    for i in 0..len {
        if history.get(len - 1 - i) != Some(&Event::Did(store.step(i))) {
            return false;
        }
    }
    match history.get(len) {
        Some(Event::Did(_)) => false,
        _ => true,
    }
}

/// The first that it tells wrong of a variable.
fn fault_at(network: &Network, store: &Store<'_>, history: &[Event], x: u32) -> Option<Fault>
    requires network { store.now.network ≡ network.now }
    requires variable { x < length network.now.sizes }
{
    if store.count(x) != cfn_plain::live_count(network, history, x) {
        return Some(Fault::Count { variable: x });
    }
    for value in 0..network.size(x) {
        let live = cfn_plain::is_live(history, x, value);
        if store.is_live(x, value) != live {
            return Some(Fault::Live { variable: x, value });
        }
        if live && store.unary(x, value) as i128 != cfn_plain::unary(network, history, x, value) {
            return Some(Fault::Unary { variable: x, value });
        }
    }
    None
}

/// The first that it tells wrong of a function.
fn fault_in(
    alloc: Global,
    network: &Network,
    store: &mut Store<'_>,
    history: &[Event],
    f: u32,
) -> Result<Option<Fault>, AllocError>
    requires network { store.old.network ≡ network.now }
    requires function { f < length network.now.functions }
    ensures same { store.new ≡ store.old }
{
    let Some(tuples) = live_tuples(alloc, network, history, f)? else {
        return Ok(Some(Fault::Tuples { function: f }));
    };
    if let Some(fault) = fault_at_cell(network, store, &tuples, f) {
        return Ok(Some(fault));
    }
    let scope = network.scope(f);
    let Ok(places) = u32::try_from(scope.len()) else {
        return Ok(Some(Fault::Tuples { function: f }));
    };
    for place in 0..places {
        if let Some(fault) = fault_on(network, store, &tuples, f, place) {
            return Ok(Some(fault));
        }
    }
    Ok(None)
}

/// The first that it tells wrong of a tuple of a function with these live tuples, the least number first.
fn fault_at_cell(
    network: &Network,
    store: &Store<'_>,
    tuples: &[LiveTuple],
    function: u32,
) -> Option<Fault>
    requires network { store.now.network ≡ network.now }
    requires function { function < length network.now.functions }
{
    let mut left = tuples.iter();
    let mut next = left.next();
    for cell in 0..network.cells(function) {
        let mut told = (false, 0);
        if let Some(tuple) = next {
            if tuple.cell == cell {
                told = (true, tuple.cost);
                next = left.next();
            }
        }
        let residual = store.residual(function, cell) as i128;
        if (store.is_live_cell(function, cell), residual) != told {
            return Some(Fault::Cell { function, cell });
        }
    }
    None
}

/// The first that it tells wrong of a place of a function with these live tuples.
fn fault_on(
    network: &Network,
    store: &mut Store<'_>,
    tuples: &[LiveTuple],
    f: u32,
    place: u32,
) -> Option<Fault>
    requires network { store.old.network ≡ network.now }
    requires function { f < length network.now.functions }
    requires place { place < arity network.now f }
    ensures same { store.new ≡ store.old }
{
    network.law_limits();
    let x = network.scope(f)[place as usize];
    for value in 0..network.size(x) {
        if let Some(fault) = fault_by(store, tuples, f, place, value) {
            return Some(fault);
        }
    }
    None
}

/// The first that it tells wrong of a value at a place of a function with these live tuples.
fn fault_by(
    store: &mut Store<'_>,
    tuples: &[LiveTuple],
    function: u32,
    place: u32,
    value: u32,
) -> Option<Fault>
    requires { IsPlace store.old.network function place value }
    ensures same { store.new ≡ store.old }
{
    let at = Place {
        function,
        place,
        value,
    };
    let least = store.least_residual(function, place, value);
    if !is_extreme(tuples, at, least, Sense::Least) {
        return Some(Fault::Least(at));
    }
    if !is_lacking(store, tuples, at) {
        return Some(Fault::Support(at));
    }
    let greatest = store.greatest_residual(function, place, value);
    if !is_extreme(tuples, at, greatest, Sense::Greatest) {
        return Some(Fault::Greatest(at));
    }
    None
}

/// Whether a store tells of a value at a place that it is the first from itself on that lacks a tuple that costs nothing, and
/// what its tuples cost, exactly where it is live and these are such tuples.
fn is_lacking(store: &mut Store<'_>, tuples: &[LiveTuple], at: Place) -> bool
    requires { IsPlace store.old.network at.function at.place at.value }
    ensures same { store.new ≡ store.old }
{
    let network = store.network();
    network.law_limits();
    let x = network.scope(at.function)[at.place as usize];
    let is_free = tuples.iter().any(|tuple| {
        tuple.cost == 0 && tuple.values.get(at.place as usize) == Some(&at.value)
    });
    let lacks = store.is_live(x, at.value) && !is_free;
    match store.next_lacking(at.function, at.place, at.value) {
        Some(doubt) if doubt.value == at.value => {
            lacks && is_extreme(tuples, at, doubt.least, Sense::Least)
        }
        _ => !lacks,
    }
}

/// Whether this is the least, or the greatest, residual cost of the tuples with a value at a place, and the number of one that
/// has it; or there is no such tuple, and none was found.
fn is_extreme(tuples: &[LiveTuple], at: Place, found: Option<Extreme>, sense: Sense) -> bool {
    let mut meets = tuples.iter().filter(|tuple| tuple.values.get(at.place as usize)
        == Some(&at.value));
    let Some(Extreme { cost, cell }) = found else {
        return meets.next().is_none();
    };
    let cost = cost as i128;
    let mut has = false;
    for tuple in meets {
        if is_beyond(tuple.cost, cost, sense) {
            return false;
        }
        has = has || tuple.cell == cell && tuple.cost == cost;
    }
    has
}

/// Whether a cost is less than the least one, or more than the greatest.
fn is_beyond(cost: i128, extreme: i128, sense: Sense) -> bool {
    match sense {
        Sense::Least => cost < extreme,
        Sense::Greatest => cost > extreme,
    }
}

/// The live tuples of a function, or `None` where these are not all tuples.
fn live_tuples(
    alloc: Global,
    network: &Network,
    history: &[Event],
    f: u32,
) -> Result<Option<Vec<LiveTuple>>, AllocError>
    requires { f < length network.now.functions }
{
    let scope = network.scope(f);
    let mut live = Vec::new(alloc);
    let mut tuple = vec![in alloc; 0; scope.len()]?;
    for cell in 0..network.cells(f) {
        if !fits(network, scope, &tuple) || network.cell(f, &tuple) != cell {
            return Ok(None);
        }
        if cfn_plain::is_live_tuple(network, history, f, &tuple) {
            live.push(LiveTuple {
                values: Vec::from_slice(alloc, &tuple)?,
                cell,
                cost: cfn_plain::residual(network, history, f, &tuple),
            })?;
        }
        step_on(network, scope, &mut tuple);
    }
    Ok(Some(live))
}

/// Whether a tuple has a value of each variable of a scope.
fn fits(network: &Network, scope: &[u32], tuple: &[u32]) -> bool
    ensures { IsTrue result → Fits (dims network.now.sizes scope.now) tuple.now }
{
    match (scope, tuple) {
        ([], []) => true,
        ([x, scope @ ..], [value, tuple @ ..]) => {
            *x < network.variables() && *value < network.size(*x) && fits(network, scope, tuple)
        }
        _ => false,
    }
}

/// Goes on to the next tuple, of which the last value runs fastest. Behind the last one they begin anew.
fn step_on(network: &Network, scope: &[u32], tuple: &mut [u32]) {
    let mut place = scope.len().min(tuple.len());
    while place > 0 {
        place -= 1;
        let x = scope[place];
        let next = tuple[place].saturating_add(1);
        if x < network.variables() && next < network.size(x) {
            tuple[place] = next;
            return;
        }
        tuple[place] = 0;
    }
}
