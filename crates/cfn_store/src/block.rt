//! The block of a path's newest steps, and one step of it.

ghost use Rattle.std.specs.Prelude.{◌≡◌, ◌+◌, ◌<◌, ◌≤◌, [], ◌∷◌, ◌++◌, length, drop, slice_index_or, IfOk, OnOk};
ghost use Rattle.std.specs.List.{AllByRecursion};
ghost use Rattle.cfn_model.specs.declared.step.Step.{Step as PathStep};
ghost use Rattle.cfn_model.specs.declared.step.Event.TheVariants.{Did};
ghost use Rattle.cfn_model.specs.Text.{IsSpelledStep};
ghost use Rattle.cfn_store.specs.Events.{steps_in, AllSteps};

use cfn_model::{Event, Step};
use cfn_proof::Block;
use std::alloc::{AllocError, Global};

/// The block of events from a place on, which are all steps. An `Err` is want of memory.
pub(crate) fn block_from(alloc: Global, events: &[Event], place: usize) -> Result<Block, AllocError>
    requires place { place ≤ length events.now }
    requires spelled { AllByRecursion IsSpelledStep (steps_in (drop place events.now)) }
    ensures { IfOk result (λ block. block ≡ steps_in (drop place events.now)) }
{
    block_of(alloc, &events[place..])
}

/// The block of the steps among events.
fn block_of(alloc: Global, events: &[Event]) -> Result<Block, AllocError>
    requires { AllByRecursion IsSpelledStep (steps_in events.now) }
    ensures { IfOk result (λ block. block ≡ steps_in events.now) }
{
    let mut block = Block::new(alloc);
    for event in events {
        add(&mut block, *event)?;
    }
    Ok(block)
}

/// Adds a step to a block, and nothing for a decision.
fn add(block: &mut Block, event: Event) -> Result<(), AllocError>
    requires { (step : PathStep) → event ≡ Did step → IsSpelledStep step }
    ensures { OnOk result (block.new ≡ block.old ++ steps_in (event ∷ [])) }
{
    match event {
        Event::Did(step) => block.push(step),
        Event::Took(_) | Event::Refused(_) => Ok(()),
    }
}

/// The step with a number among the events from a place on, which are all steps.
pub(crate) fn step_from(events: &[Event], place: usize, number: usize) -> Step
    requires number { place + number < length events.now }
    requires steps { AllSteps (drop place events.now) }
    ensures { (other : PathStep) → slice_index_or (steps_in (drop place events.now)) number other ≡ result }
{
    match events[place + number] {
        Event::Did(step) => step,
        Event::Took(_) | Event::Refused(_) => unreachable!(),
    }
}
