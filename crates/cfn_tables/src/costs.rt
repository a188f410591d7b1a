//! The floor, the unary costs and live values of all variables, and what was shifted and cut of all functions.
//!
//! A project or an extend touches one value and one slot; a lift, a cut or a decision touches the values of one
//! variable, or one flag. What an event adds can be taken off again at the same cost.

ghost use Rattle.std.specs.Prelude.{◌≡◌, ℕ, ◌+◌, ◌*◌, ◌<◌, ◌≤◌, ◌^◌, ◌==◌, ◌&&◌, ◌↔◌, not, true, List, [], ◌∷◌, length, slice_index, slice_index_or, sum_by, replicate, pos, neg_ℤ, ◌+ℤ◌, IfOk, OnOk, OnErr, IsTrue, if◌then◌else◌};
ghost use Rattle.cfn_model.specs.declared.step.Step.TheVariants.{Project, Lift, CutTuple};
ghost use Rattle.cfn_model.specs.declared.step.Event.TheVariants.{Did};
ghost use Rattle.cfn_model.specs.Network.{Fits, cells, cell, dims_at, variable_at, function_at};
ghost use Rattle.cfn_model.specs.Sums.{when, constant, residual};
ghost use Rattle.cfn_model.specs.Steps.{IsValue, IsPlace, IsCell};
ghost use Rattle.cfn_tables.specs.Slots.{slots, slot};
ghost use Rattle.cfn_tables.specs.Tables.{values_at, tuples_at, no_values, no_tuples, first_values, first_tuples, wiped_count, unary_at, takers_at, shift_at, cut_at, HasShape, HasFlag, Says, SaysSame, Moves, Adds, Has, Cuts, HasRoom, IsAmount};
ghost use Rattle.cfn_tables.specs.Sides.{is_on, side_variable};
ghost use Rattle.cfn_tables.specs.Possible.{IsPossible};

use crate::domain::Domain;
use crate::shifts::{Shifts, slot};
use crate::side::Side;
use cfn_model::{Event, Step};
use cfn_net::Network;
use std::alloc::{AllocError, Global};
use std::marker::Model;

/// The tables: 16 bytes for the cost of each value and for each slot, 8 bytes for how many events took a value, and one
/// byte for each tuple of a function that had a tuple cut.
#[derive(Drop)]
pub struct Costs {
    floor: u128,
    domains: Vec<Domain>,
    functions: Vec<Shifts>,
    wiped: u32,
}

impl Model for Costs {
    ghost use Rattle.std.specs.Prelude.{◌≡◌};
    ghost use Rattle.cfn_tables.specs.Tables.{Tables, wiped_count};

    ghost Value = { Tables };

    ghost view = { λ c. record { floor = c.floor; variables = c.domains.items; functions = c.functions.items } };

    ghost invariant = { λ c. c.wiped ≡ wiped_count c.domains.items };
}

impl Costs {
    /// A network's costs before any event. An `Err` is want of memory.
    pub fn of(alloc: Global, network: &Network) -> Result<Costs, AllocError>
        ensures { IfOk result (λ t. Says network.now [] t) }
    {
        network.law_limits();
        Ok(Costs {
            floor: network.constants(),
            domains: domains_of(alloc, network)?,
            functions: functions_of(alloc, network)?,
            wiped: 0,
        })
    }

    pub fn floor(&self) -> u128
        ensures { result ≡ self.now.floor }
    {
        self.floor
    }

    /// Whether a variable has no live value.
    pub fn is_wiped(&self) -> bool
        ensures { result ≡ not (wiped_count self.now.variables == 0) }
    {
        self.wiped != 0
    }

    pub fn unary(&self, x: u32, value: u32) -> i128
        requires variable { x < length self.now.variables }
        requires value { value < length (values_at self.now x).costs }
        ensures { result ≡ unary_at self.now x value }
    {
        self.domains[x as usize].cost(value)
    }

    pub fn is_live(&self, x: u32, value: u32) -> bool
        requires variable { x < length self.now.variables }
        requires value { value < length (values_at self.now x).takers }
        ensures { result ≡ (takers_at self.now x value == 0) }
    {
        self.domains[x as usize].is_live(value)
    }

    pub fn shifted(&self, f: u32, slot: usize) -> i128
        requires function { f < length self.now.functions }
        requires slot { slot < length (tuples_at self.now f).sums }
        ensures { result ≡ shift_at self.now f slot }
    {
        self.functions[f as usize].sum(slot)
    }

    pub fn is_cut(&self, f: u32, cell: u32) -> bool
        requires { f < length self.now.functions }
        ensures { result ≡ cut_at self.now f cell }
    {
        self.functions[f as usize].is_cut(cell)
    }

    /// Makes the flags of a function for the first cut of one of its tuples. An `Err`, want of memory, leaves all as it
    /// was.
    pub fn prepare(&mut self, network: &Network, event: Event) -> Result<(), AllocError>
        requires shape { HasShape network.now self.old }
        requires event { IsPossible network.now event }
        ensures shape { HasShape network.now self.new }
        ensures same { SaysSame self.old self.new }
        ensures flag { OnOk result (HasFlag event self.new) }
        ensures err { OnErr result (self.new ≡ self.old) }
    {
        if let Event::Did(Step::CutTuple { function, .. }) = event {
            self.functions[function as usize].make_flags(network.cells(function))?;
        }
        Ok(())
    }

    /// Adds what an event changes.
    pub fn apply(&mut self, network: &Network, event: Event)
        requires shape { HasShape network.now self.old }
        requires room { HasRoom network.now self.old }
        requires event { IsPossible network.now event }
        requires flag { HasFlag event self.old }
        ensures shape { HasShape network.now self.new }
        ensures adds { Adds network.now event self.old self.new }
        ensures cut { Cuts network.now event true self.old self.new }
    {
        match event {
            Event::Did(
                Step::Project {
                    function,
                    place,
                    value,
                    amount,
                },
            ) => self.shift(network, function, place, value, amount as i128),
            Event::Did(
                Step::Extend {
                    function,
                    place,
                    value,
                    amount,
                },
            ) => self.shift(network, function, place, value, -(amount as i128)),
            Event::Did(Step::Lift { variable, amount }) => self.lift(network, variable, amount),
            Event::Did(Step::CutValue { variable, value }) => self.take(network, variable, value),
            Event::Did(Step::CutTuple { function, cell }) => {
                self.mark(network, function, cell, true)
            }
            Event::Took(decision) => self.take_side(network, Side::Second(decision)),
            Event::Refused(decision) => self.take_side(network, Side::First(decision)),
        }
    }

    /// Takes off again what an event has added. A tuple that it cut stays cut unless the cut was fresh.
    pub fn revert(&mut self, network: &Network, event: Event, fresh: bool)
        requires shape { HasShape network.now self.old }
        requires room { HasRoom network.now self.old }
        requires event { IsPossible network.now event }
        requires has { Has network.now event self.old }
        requires flag { HasFlag event self.old }
        ensures shape { HasShape network.now self.new }
        ensures adds { Adds network.now event self.new self.old }
        ensures cut { Cuts network.now event (not fresh) self.old self.new }
    {
        match event {
            Event::Did(
                Step::Project {
                    function,
                    place,
                    value,
                    amount,
                },
            ) => self.shift(network, function, place, value, -(amount as i128)),
            Event::Did(
                Step::Extend {
                    function,
                    place,
                    value,
                    amount,
                },
            ) => self.shift(network, function, place, value, amount as i128),
            Event::Did(Step::Lift { variable, amount }) => self.unlift(network, variable, amount),
            Event::Did(Step::CutValue { variable, value }) => self.give(network, variable, value),
            Event::Did(Step::CutTuple { function, cell }) => {
                self.mark(network, function, cell, !fresh)
            }
            Event::Took(decision) => self.give_side(network, Side::Second(decision)),
            Event::Refused(decision) => self.give_side(network, Side::First(decision)),
        }
    }

    /// Adds an amount to the cost of a value at a place of a function, and to what was shifted there.
    fn shift(&mut self, network: &Network, f: u32, place: u32, value: u32, amount: i128)
        requires shape { HasShape network.now self.old }
        requires room { HasRoom network.now self.old }
        requires place { IsPlace network.now f place value }
        requires amount { IsAmount amount }
        ensures shape { HasShape network.now self.new }
        ensures moves { Moves network.now 0 (λ y b. when ((variable_at network.now f place == y) && (value == b)) amount)
            (λ y b. 0) (λ g n. when ((f == g) && (slot (dims_at network.now f) place value == n)) amount) self.old self.new }
        ensures cut { (g c : ℕ) → cut_at self.new g c ≡ cut_at self.old g c }
    {
        network.law_limits();
        let slot = slot(network, f, place, value);
        let x = network.scope(f)[place as usize];
        self.domains[x as usize].add(value, amount);
        self.functions[f as usize].add(slot, amount);
    }

    /// Lifts an amount from each value of a variable to the floor.
    fn lift(&mut self, network: &Network, x: u32, amount: u64)
        requires shape { HasShape network.now self.old }
        requires room { HasRoom network.now self.old }
        requires variable { x < length network.now.sizes }
        ensures shape { HasShape network.now self.new }
        ensures adds { Adds network.now (Did (Lift x amount)) self.old self.new }
        ensures functions { self.new.functions ≡ self.old.functions }
    {
        self.floor += amount as u128;
        self.domains[x as usize].add_to_all(-(amount as i128));
    }

    /// Takes a lift off again.
    fn unlift(&mut self, network: &Network, x: u32, amount: u64)
        requires shape { HasShape network.now self.old }
        requires room { HasRoom network.now self.old }
        requires variable { x < length network.now.sizes }
        requires floor { amount ≤ self.old.floor }
        ensures shape { HasShape network.now self.new }
        ensures adds { Adds network.now (Did (Lift x amount)) self.new self.old }
        ensures functions { self.new.functions ≡ self.old.functions }
    {
        self.floor -= amount as u128;
        self.domains[x as usize].add_to_all(amount as i128);
    }

    /// Takes a value once more.
    fn take(&mut self, network: &Network, x: u32, value: u32)
        requires shape { HasShape network.now self.old }
        requires room { HasRoom network.now self.old }
        requires value { IsValue network.now x value }
        ensures shape { HasShape network.now self.new }
        ensures moves { Moves network.now 0 (λ y b. pos 0) (λ y b. if (x == y) && (value == b) then 1 else 0)
            (λ g n. pos 0) self.old self.new }
        ensures functions { self.new.functions ≡ self.old.functions }
    {
        network.law_limits();
        let domain = &mut self.domains[x as usize];
        let before = domain.has_none();
        domain.take(value);
        let now = domain.has_none();
        self.wiped = recount(self.wiped, before, now);
    }

    /// Gives a value back once.
    fn give(&mut self, network: &Network, x: u32, value: u32)
        requires shape { HasShape network.now self.old }
        requires value { IsValue network.now x value }
        requires taken { 0 < takers_at self.old x value }
        ensures shape { HasShape network.now self.new }
        ensures moves { Moves network.now 0 (λ y b. pos 0) (λ y b. if (x == y) && (value == b) then 1 else 0)
            (λ g n. pos 0) self.new self.old }
        ensures functions { self.new.functions ≡ self.old.functions }
    {
        network.law_limits();
        let domain = &mut self.domains[x as usize];
        let before = domain.has_none();
        domain.give(value);
        let now = domain.has_none();
        self.wiped = recount(self.wiped, before, now);
    }

    /// Takes each value on a side of a decision once more.
    fn take_side(&mut self, network: &Network, side: Side)
        requires shape { HasShape network.now self.old }
        requires room { HasRoom network.now self.old }
        requires variable { side_variable side < length network.now.sizes }
        ensures shape { HasShape network.now self.new }
        ensures moves { Moves network.now 0 (λ y b. pos 0) (λ y b. if (side_variable side == y) && is_on side b then 1 else 0)
            (λ g n. pos 0) self.old self.new }
        ensures functions { self.new.functions ≡ self.old.functions }
    {
        network.law_limits();
        let x = side.variable();
        let domain = &mut self.domains[x as usize];
        let before = domain.has_none();
        domain.take_side(side);
        let now = domain.has_none();
        self.wiped = recount(self.wiped, before, now);
    }

    /// Gives each value on a side of a decision back once.
    fn give_side(&mut self, network: &Network, side: Side)
        requires shape { HasShape network.now self.old }
        requires variable { side_variable side < length network.now.sizes }
        requires taken { (b : ℕ) → b < slice_index network.now.sizes (side_variable side) → IsTrue (is_on side b)
            → 0 < takers_at self.old (side_variable side) b }
        ensures shape { HasShape network.now self.new }
        ensures moves { Moves network.now 0 (λ y b. pos 0) (λ y b. if (side_variable side == y) && is_on side b then 1 else 0)
            (λ g n. pos 0) self.new self.old }
        ensures functions { self.new.functions ≡ self.old.functions }
    {
        network.law_limits();
        let x = side.variable();
        let domain = &mut self.domains[x as usize];
        let before = domain.has_none();
        domain.give_side(side);
        let now = domain.has_none();
        self.wiped = recount(self.wiped, before, now);
    }

    /// Says of a tuple whether it is cut.
    fn mark(&mut self, network: &Network, f: u32, cell: u32, is: bool)
        requires shape { HasShape network.now self.old }
        requires cell { IsCell network.now f cell }
        requires flag { cell < length (tuples_at self.old f).cut }
        ensures shape { HasShape network.now self.new }
        ensures forward { Adds network.now (Did (CutTuple f cell)) self.old self.new }
        ensures back { Adds network.now (Did (CutTuple f cell)) self.new self.old }
        ensures cut { Cuts network.now (Did (CutTuple f cell)) is self.old self.new }
    {
        self.functions[f as usize].set_cut(cell, is);
    }
}

/// How many variables have no live value, after one of them has changed.
fn recount(wiped: u32, before: bool, now: bool) -> u32
    requires before { IsTrue before → 0 < wiped }
    requires few { wiped ≤ 1048576 }
    ensures { result + (if before then 1 else 0) ≡ wiped + (if now then 1 else 0) }
{
    match (before, now) {
        (true, false) => wiped - 1,
        (false, true) => wiped + 1,
        _ => wiped,
    }
}

/// All values of all variables live, without unary costs.
fn domains_of(alloc: Global, network: &Network) -> Result<Vec<Domain>, AllocError>
    ensures size { IfOk result (λ d. length d.items ≡ length network.now.sizes) }
    ensures each { IfOk result (λ d. (x : ℕ) → x < length network.now.sizes → slice_index_or d.items x no_values
        ≡ first_values (slice_index network.now.sizes x)) }
{
    let mut domains = Vec::new(alloc);
    for x in 0..network.variables() {
        domains.push(Domain::of(alloc, network.size(x))?)?;
    }
    Ok(domains)
}

/// Nothing shifted and no tuple cut of any function.
fn functions_of(alloc: Global, network: &Network) -> Result<Vec<Shifts>, AllocError>
    ensures size { IfOk result (λ t. length t.items ≡ length network.now.functions) }
    ensures each { IfOk result (λ t. (f : ℕ) → f < length network.now.functions → slice_index_or t.items f no_tuples
        ≡ first_tuples (slots (dims_at network.now f))) }
{
    let mut functions = Vec::new(alloc);
    for f in 0..network.functions() {
        functions.push(Shifts::of(alloc, network, f)?)?;
    }
    Ok(functions)
}
