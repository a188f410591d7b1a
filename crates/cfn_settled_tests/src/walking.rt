//! Stores of drawn networks that go on, and back to marks, by the draw, each judged by the plain program.

ghost use Rattle.std.specs.Prelude.{◌≡◌, ◌≤◌};
ghost use Rattle.cfn_store.specs.Marking.{IsBehind};

use crate::going::go_on;
use crate::telling::{Fault, fault_of};
use cfn_model::{Event, Step};
use cfn_net::Network;
use cfn_store::Store;
use cfn_testing::drawing::{DEAR, Dice, MOST, Shape, draw_shaped, file_of};
use std::alloc::{AllocError, Global};
use std::process::Abort;
use std::test::Fail;

/// What is drawn.
const SHAPE: Shape = Shape {
    variables: 5,
    values: 5,
    assignments: 512,
    functions: 6,
    arity: 4,
    listings: 16,
    dear: true,
};

/// How many turns a walk has.
const TURNS: u32 = 200;

/// How a walk from a mark ended: it goes back, past so many newer marks, and has so many turns left; it has none left; or
/// what the store told was wrong.
#[derive(Clone, Copy)]
enum End {
    Back { past: u32, left: u32 },
    Over,
    Wrong(Fault),
}

/// Where a walk is: the events that lead there, the oldest first, and how many marks there are to go back to; and how many
/// events of each kind it has made, and undos.
#[derive(Drop)]
struct Trail {
    events: Vec<Event>,
    marks: u32,
    counts: Vec<u32>,
}

/// How many kinds are counted.
const KINDS: usize = 8;

/// An undo, among the kinds that are counted; those before it are the kinds of events.
const UNDO: usize = 7;

impl Trail {
    /// The trail of no walk.
    fn make(alloc: Global) -> Result<Trail, AllocError> {
        Ok(Trail {
            events: Vec::new(alloc),
            marks: 0,
            counts: vec![in alloc; 0; KINDS]?,
        })
    }

    /// Whether each kind of event was made, and an undo.
    fn has_each_kind(&self) -> bool {
        self.counts.iter().all(|count| *count > 0)
    }

    /// Counts one more of a kind.
    fn count(&mut self, kind: usize) {
        if let Some(count) = self.counts.get_mut(kind) {
            *count = count.saturating_add(1);
        }
    }
}

/// The kind of an event.
fn kind(event: Event) -> usize {
    match event {
        Event::Did(Step::Project { .. }) => 0,
        Event::Did(Step::Extend { .. }) => 1,
        Event::Did(Step::Lift { .. }) => 2,
        Event::Did(Step::CutValue { .. }) => 3,
        Event::Did(Step::CutTuple { .. }) => 4,
        Event::Took(_) => 5,
        Event::Refused(_) => 6,
    }
}

/// Walks on from where a store stands, for so many turns or back to a mark.
fn walk(
    alloc: Global,
    network: &Network,
    store: &mut Store<'_>,
    trail: &mut Trail,
    dice: &mut Dice,
    turns: u32,
) -> Result<End, AllocError>
    requires { store.old.network ≡ network.now }
    ensures { IsBehind store.old store.new }
{
    let mut left = turns;
    while left > 0 {
        left -= 1;
        match dice.below(8) {
            0 if trail.marks > 0 => {
                let past = match dice.below(8) {
                    0 => 2,
                    1 => 1,
                    _ => 0,
                };
                return Ok(End::Back { past, left });
            }
            1 => {
                let mark = store.mark();
                let events = trail.events.len();
                let marks = trail.marks;
                trail.marks = marks.saturating_add(1);
                let end = walk(alloc, network, store, trail, dice, left)?;
                trail.marks = marks;
                let End::Back { past, left: rest } = end else {
                    return Ok(end);
                };
                if past > 0 && marks > 0 {
                    return Ok(End::Back {
                        past: past - 1,
                        left: rest,
                    });
                }
                store.undo(&mark);
                trail.events.truncate(events);
                trail.count(UNDO);
                left = left.min(rest);
            }
            _ => advance(network, store, trail, dice)?,
        }
        if let Some(fault) = fault_behind(alloc, network, store, &trail.events)? {
            return Ok(End::Wrong(fault));
        }
    }
    Ok(End::Over)
}

/// Goes on by a drawn event, where it can be made.
fn advance(
    network: &Network,
    store: &mut Store<'_>,
    trail: &mut Trail,
    dice: &mut Dice,
) -> Result<(), AllocError>
    requires { store.old.network ≡ network.now }
    ensures { IsBehind store.old store.new }
{
    store.reserve(1)?;
    if let Some(event) = go_on(store, network, dice) {
        trail.events.push(event)?;
        trail.count(kind(event));
    }
    Ok(())
}

/// What a store tells wrong behind these events, the oldest first.
fn fault_behind(
    alloc: Global,
    network: &Network,
    store: &mut Store<'_>,
    events: &[Event],
) -> Result<Option<Fault>, AllocError>
    requires network { store.old.network ≡ network.now }
    ensures same { store.new ≡ store.old }
{
    let mut history = Vec::from_slice(alloc, events)?;
    history.reverse();
    fault_of(alloc, network, store, &history)
}

/// Walks a store of a network from its root on.
fn walk_from_root(
    alloc: Global,
    network: &Network,
    trail: &mut Trail,
    dice: &mut Dice,
) -> Result<Option<Fault>, AllocError> {
    let mut store = Store::build(alloc, network)?;
    trail.events.truncate(0);
    trail.marks = 0;
    Ok(
        match walk(alloc, network, &mut store, trail, dice, TURNS)? {
            End::Wrong(fault) => Some(fault),
            End::Back { .. } | End::Over => None,
        },
    )
}

/// Judges a walk through a network that is drawn with a seed and an upper bound.
fn judge_walk<R: Abort>(
    rt: &R,
    alloc: Global,
    trail: &mut Trail,
    seed: u64,
    upper: u64,
) -> Result<(), Fail> {
    let mut dice = Dice { state: seed };
    let words = draw_shaped(alloc, &mut dice, SHAPE, upper)?;
    let file = file_of(alloc, words.as_slice())?;
    let network = cfn_wcsp::read(alloc, file.as_bytes())?;
    let fault = walk_from_root(alloc, &network, trail, &mut dice)?;
    assert!(rt; fault == None, "of {file}");
    Ok(())
}

/// Judges walks with four seeds, in which each kind of event is made, and undos are.
fn judge_walks<R: Abort>(rt: &R, alloc: Global, seeds: [u64; 4], upper: u64) -> Result<(), Fail> {
    let mut trail = Trail::make(alloc)?;
    for seed in seeds {
        judge_walk(rt, alloc, &mut trail, seed, upper)?;
    }
    assert!(rt; trail.has_each_kind());
    Ok(())
}

/// Judges a walk through the network of the generator with seed 7 and so many variables, 1 to 200.
fn judge_trial<R: Abort>(rt: &R, alloc: Global, trail: &mut Trail, size: u32) -> Result<(), Fail>
    requires some { 1 ≤ size }
    requires few { size ≤ 200 }
{
    let network = cfn_gen::instance(alloc, 7, size)?;
    let mut dice = Dice {
        state: u64::from(size),
    };
    let fault = walk_from_root(alloc, &network, trail, &mut dice)?;
    assert!(rt; fault == None, "with {size} variables");
    Ok(())
}

#[test]
fn upper_bound_is_100(rt: HostRuntime) -> Result<(), Fail> {
    judge_walks(&rt, rt.alloc(), [1, 2, 3, 4], 100)
}

#[test]
fn upper_bound_is_as_dear_as_a_cost(rt: HostRuntime) -> Result<(), Fail> {
    judge_walks(&rt, rt.alloc(), [5, 6, 7, 8], DEAR)
}

#[test]
fn upper_bound_is_the_greatest(rt: HostRuntime) -> Result<(), Fail> {
    judge_walks(&rt, rt.alloc(), [9, 10, 11, 12], MOST)
}

/// Three values of each variable, a function of each, of each two neighbours, and of each two that have one between them.
#[test]
fn networks_of_trials(rt: HostRuntime) -> Result<(), Fail> {
    let mut trail = Trail::make(rt.alloc())?;
    for size in 1..13 {
        judge_trial(&rt, rt.alloc(), &mut trail, size)?;
    }
    assert!(rt; trail.has_each_kind());
    Ok(())
}
