//! Which steps of a block its end needs, judged from the newest back. Nothing is proved of the choice: the steps are tested when
//! they are made again.
//!
//! - The end needs the cuts of the variable that it empties, or the floor.
//! - A cut of a value needs the value's unary cost; and the floor, where the unary cost and what the floor had at the block's begin
//!   do not reach the threshold together. What the block lifts from the variable counts as unary cost here: it is in one of the two,
//!   whether it is lifted or not.
//! - A lift is kept where the floor is needed. It needs the unary costs of all values of its variable, and the earlier cuts there.
//! - A project is kept where its value's unary cost is needed. It needs what was extended to its function, and the earlier cuts of
//!   the function's other variables and of its tuples.
//! - An extend is kept where what was extended to its function is needed. It needs its value's unary cost.
//! - A cut of a tuple is kept where its function is needed. It needs the floor.

ghost use Rattle.std.specs.Prelude.{◌≡◌, ◌<◌, length, IfOk, IfSome};
ghost use Rattle.cfn_model.specs.Steps.{IsValue, IsPlace, InRange};
ghost use Rattle.cfn_trim.specs.Making.{AreInRange};

use crate::flags::{Flags, ValueFlags};
use cfn_model::Step;
use cfn_net::Network;
use cfn_store::Store;
use std::alloc::{AllocError, Global};
use std::marker::Model;

/// What the steps that are kept so far need of earlier ones. Contracts see the network.
#[derive(Drop)]
pub(crate) struct Needs<'n> {
    network: &'n Network,
    /// What the floor lacks of the threshold where the block begins.
    lacks: u128,
    /// What the block lifts from each variable.
    lifts: Vec<u64>,
    /// Whether the floor is needed.
    floor: bool,
    /// The values whose unary cost is needed, and the variables of which all values' are.
    costs: ValueFlags<'n>,
    all_costs: Flags,
    /// The variables whose cuts are needed.
    cuts: Flags,
    /// The functions of which it is needed what was extended to them, and which tuples were cut.
    functions: Flags,
}

impl<'n> Model for Needs<'n> {
    ghost use Rattle.std.specs.Prelude.{◌≡◌, length};
    ghost use Rattle.cfn_model.specs.Network.{Network as CostNetwork};

    ghost Value = { CostNetwork };

    ghost view = { λ s. s.network.now };

    ghost invariant = { λ s. (length s.lifts.items ≡ length s.network.now.sizes) × (s.costs ≡ s.network.now)
        × (s.all_costs ≡ length s.network.now.sizes) × (s.cuts ≡ length s.network.now.sizes)
        × (s.functions ≡ length s.network.now.functions) };
}

impl<'n> Needs<'n> {
    /// For stores of a network. An `Err` is want of memory; no other call takes memory.
    pub(crate) fn make(alloc: Global, network: &'n Network) -> Result<Needs<'n>, AllocError>
        ensures { IfOk result (λ needs. needs ≡ network.now) }
    {
        Ok(Needs {
            network,
            lacks: 0,
            lifts: vec![in alloc; 0; network.variables() as usize]?,
            floor: false,
            costs: ValueFlags::make(alloc, network)?,
            all_costs: Flags::make(alloc, network.variables())?,
            cuts: Flags::make(alloc, network.variables())?,
            functions: Flags::make(alloc, network.functions())?,
        })
    }

    /// Begins at the end of a store's block: the cuts of `empty` are needed, or the floor where that is none.
    pub(crate) fn begin(&mut self, store: &Store<'_>, threshold: u64, empty: Option<u32>)
        requires network { store.now.network ≡ self.old }
        requires range { AreInRange self.old store.now.block }
        requires variable { IfSome empty (λ x. x < length self.old.sizes) }
        ensures { self.new ≡ self.old }
    {
        self.costs.clear();
        self.all_costs.clear();
        self.cuts.clear();
        self.functions.clear();
        self.floor = empty.is_none();
        if let Some(x) = empty {
            self.cuts.put(x);
        }
        let lifted = self.gather(store);
        let floor = store.floor().wrapping_sub(lifted);
        self.lacks = u128::from(threshold).saturating_sub(floor);
    }

    /// Gathers what the block lifts, from each variable and in all.
    fn gather(&mut self, store: &Store<'_>) -> u128
        requires network { store.now.network ≡ self.old }
        requires range { AreInRange self.old store.now.block }
        ensures { self.new ≡ self.old }
    {
        let count = store.block_len();
        for i in 0..count {
            self.forget(store.step(i));
        }
        let mut lifted: u128 = 0;
        for i in 0..count {
            lifted = lifted.wrapping_add(u128::from(self.add(store.step(i))));
        }
        lifted
    }

    /// Forgets what was lifted from a lift's variable.
    fn forget(&mut self, step: Step)
        requires range { InRange self.old step }
        ensures { self.new ≡ self.old }
    {
        if let Step::Lift { variable, .. } = step {
            self.lifts[variable as usize] = 0;
        }
    }

    /// Adds the amount of a lift to what was lifted from its variable.
    fn add(&mut self, step: Step) -> u64
        requires range { InRange self.old step }
        ensures { self.new ≡ self.old }
    {
        match step {
            Step::Lift { variable, amount } => {
                let sum = self.lifts[variable as usize].wrapping_add(amount);
                self.lifts[variable as usize] = sum;
                amount
            }
            _ => 0,
        }
    }

    /// Whether a step of the store's block is needed, where the later ones were judged. Then what it needs is needed too.
    pub(crate) fn judge(&mut self, store: &Store<'_>, step: Step) -> bool
        requires network { store.now.network ≡ self.old }
        requires range { InRange self.old step }
        ensures { self.new ≡ self.old }
    {
        match step {
            Step::Project {
                function,
                place,
                value,
                ..
            } => self.judge_project(function, place, value),
            Step::Extend {
                function,
                place,
                value,
                ..
            } => self.judge_extend(function, place, value),
            Step::Lift { variable, .. } => self.judge_lift(variable),
            Step::CutValue { variable, value } => self.judge_cut(store, variable, value),
            Step::CutTuple { function, .. } => self.judge_tuple(function),
        }
    }

    /// Of a project.
    fn judge_project(&mut self, f: u32, place: u32, value: u32) -> bool
        requires place { IsPlace self.old f place value }
        ensures { self.new ≡ self.old }
    {
        self.network.law_limits();
        let x = self.network.scope(f)[place as usize];
        if !self.costs.has(x, value) && !self.all_costs.has(x) {
            return false;
        }
        self.functions.put(f);
        for y in self.network.scope(f) {
            if *y != x {
                self.cuts.put(*y);
            }
        }
        true
    }

    /// Of an extend.
    fn judge_extend(&mut self, f: u32, place: u32, value: u32) -> bool
        requires place { IsPlace self.old f place value }
        ensures { self.new ≡ self.old }
    {
        self.network.law_limits();
        if !self.functions.has(f) {
            return false;
        }
        let x = self.network.scope(f)[place as usize];
        self.costs.put(x, value);
        true
    }

    /// Of a lift.
    fn judge_lift(&mut self, x: u32) -> bool
        requires variable { x < length self.old.sizes }
        ensures { self.new ≡ self.old }
    {
        if self.floor {
            self.all_costs.put(x);
            self.cuts.put(x);
        }
        self.floor
    }

    /// Of a cut of a value.
    fn judge_cut(&mut self, store: &Store<'_>, x: u32, value: u32) -> bool
        requires network { store.now.network ≡ self.old }
        requires value { IsValue self.old x value }
        ensures { self.new ≡ self.old }
    {
        if !self.cuts.has(x) {
            return false;
        }
        self.costs.put(x, value);
        let cost = store.unary(x, value).wrapping_add(self.lifts[x as usize]);
        if u128::from(cost) < self.lacks {
            self.floor = true;
        }
        true
    }

    /// Of a cut of a tuple.
    fn judge_tuple(&mut self, f: u32) -> bool
        requires function { f < length self.old.functions }
        ensures { self.new ≡ self.old }
    {
        let needed = self.functions.has(f);
        if needed {
            self.floor = true;
        }
        needed
    }
}
