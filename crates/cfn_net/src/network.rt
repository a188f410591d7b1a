//! The network, which does not change once it is built.
ghost use Rattle.std.specs.Prelude.{◌≡◌, ◌≢◌, ℕ, ◌+◌, ◌-◌, ◌*◌, ◌^◌, ◌<◌, ◌≤◌, ◌↔◌, List, [], length, slice_index, IfOk, IfSome, IsNone, IsSome, OnOk, OnErr};
ghost use Rattle.cfn_model.specs.declared.limits.TheConstants.{GREATEST};
ghost use Rattle.cfn_model.specs.Words.{IsWord};
ghost use Rattle.cfn_model.specs.Network.{Fits, IsFunction, IsNetwork, function_at, scope_at, arity, dims_at, entry_at, restrict, cells, cell, cost, dims};
ghost use Rattle.cfn_model.specs.Sums.{constant, floor};
ghost use Rattle.cfn_net.specs.Building.{AreSizes, CanTake, IsScope, function, new_network, share_of, with_function};
ghost use Rattle.cfn_net.specs.Fitting.{IsFirstMisfit};
ghost use Rattle.cfn_net.specs.Listed.{spread};
ghost use Rattle.cfn_net.specs.Tables.{IsSparse};

use crate::cost::Cost;
use crate::fit::Fit;
use crate::function::{Function, cell_of, cells_of};
use crate::kept::Kept;
use crate::sparse::Listed;
use crate::table::Table;
use smallvec::SmallVec;
use std::alloc::{AllocError, Global};
use std::marker::Model;

/// A weighted constraint network (a cost function network): variables with finite domains, cost functions over
/// them as tables, and an upper bound that costs are capped at.
///
/// Variables, values, functions, places and cells are numbered from 0. Each limit of `IsNetwork` holds: 1 to
/// 1,048,576 variables with domains of 1 to 4,096 values, at most 1,048,576 functions with at most 4,194,304 cells
/// each and 67,108,864 in all, and costs below 2^63. No call takes memory.
#[derive(Drop)]
pub struct Network {
    name: Vec<u8>,
    sizes: Vec<u32>,
    upper: u64,
    pub(crate) functions: Vec<Kept>,
    pub(crate) tables: Vec<Table>,
}

impl Model for Network {
    ghost use Rattle.cfn_model.specs.Network.{Network as CostNetwork, IsNetwork};
    ghost use Rattle.cfn_net.specs.Keeping.{IsKeeping, functions_of};

    ghost Value = { CostNetwork };

    ghost view = { λ n. record { name = n.name.items; sizes = n.sizes.items; upper = n.upper; functions = functions_of n.tables.items n.functions.items } };

    ghost invariant = { λ n. IsKeeping n.tables.items n.functions.items × IsNetwork (record { name = n.name.items; sizes = n.sizes.items; upper = n.upper; functions = functions_of n.tables.items n.functions.items }) };
}

impl Network {
    /// Nothing: its contract tells a caller that the network keeps the limits of every network.
    pub fn law_limits(&self)
        ensures { IsNetwork self.now }
    {
        let _ = &self.name;
    }

    /// The number of variables, from 1 to 1,048,576.
    pub fn variables(&self) -> u32
        ensures { result ≡ length self.now.sizes }
    {
        self.sizes.len() as u32
    }

    /// The number of values of a variable, from 1 to 4,096.
    pub fn size(&self, x: u32) -> u32
        requires { x < length self.now.sizes }
        ensures { result ≡ slice_index self.now.sizes x }
    {
        self.sizes[x as usize]
    }

    /// The number of values of each variable.
    pub fn sizes(&self) -> &[u32]
        ensures { result.now ≡ self.now.sizes }
    {
        self.sizes.as_slice()
    }

    /// The number of functions, at most 1,048,576.
    pub fn functions(&self) -> u32
        ensures { result ≡ length self.now.functions }
    {
        self.functions.len() as u32
    }

    /// The variables of a function.
    pub fn scope(&self, f: u32) -> &[u32]
        requires { f < length self.now.functions }
        ensures { result.now ≡ scope_at self.now f }
    {
        self.function(f).scope()
    }

    /// The upper bound, below 2^63: every cost that reaches it is the upper bound.
    pub fn ub(&self) -> u64
        ensures { result ≡ self.now.upper }
    {
        self.upper
    }

    /// The name, a word of the file's text.
    pub fn name(&self) -> &[u8]
        ensures { result.now ≡ self.now.name }
    {
        self.name.as_slice()
    }

    /// The default cost of a function, at most the upper bound.
    pub fn default(&self, f: u32) -> u64
        requires { f < length self.now.functions }
        ensures { result ≡ (function_at self.now f).default }
    {
        self.function(f).default()
    }

    /// The number of cells of a function, one for each tuple of its scope, from 1 to 4,194,304.
    pub fn cells(&self, f: u32) -> u32
        requires { f < length self.now.functions }
        ensures { result ≡ cells (dims_at self.now f) }
    {
        self.law_limits();
        self.function(f).cells()
    }

    /// The entries of a function, one at each cell, at most the upper bound each. There is no such table of a function
    /// whose entries differ from its default in fewer than one eighth of its cells: those are listed alone.
    pub fn table(&self, f: u32) -> Option<&[u64]>
        requires { f < length self.now.functions }
        ensures entries { IfSome result (λ entries. entries.now ≡ (function_at self.now f).entries) }
        ensures form { IsNone result ↔ IsSparse (function_at self.now f) }
    {
        self.function(f).table()
    }

    /// What makes up the entries of a function without a table: some cells, each with its entry, and the entry of all
    /// other cells.
    pub fn listed(&self, f: u32) -> Option<Listed<'_>>
        requires { f < length self.now.functions }
        ensures entries { IfSome result (λ listed. spread (cells (dims_at self.now f)) listed.rest listed.cells.now
            ≡ (function_at self.now f).entries) }
        ensures form { IsSome result ↔ IsSparse (function_at self.now f) }
    {
        self.law_limits();
        self.function(f).listed()
    }

    /// The entry of a function at a cell, at most the upper bound.
    pub fn entry(&self, f: u32, number: u32) -> u64
        requires function { f < length self.now.functions }
        requires number { number < cells (dims_at self.now f) }
        ensures { result ≡ slice_index (function_at self.now f).entries number }
    {
        self.function(f).entry(number)
    }

    /// The sum of the functions of arity 0, which is the floor before any step. It is not capped at the upper bound.
    pub fn constants(&self) -> u128
        ensures value { result ≡ floor self.now [] }
        ensures small { result < 2 ^ 96 }
    {
        let mut sum = 0;
        for f in 0..self.functions() {
            sum += u128::from(self.constant_of(f));
        }
        sum
    }

    /// The number of the cell of a tuple, in row-major order: the last variable runs fastest.
    pub fn cell(&self, f: u32, tuple: &[u32]) -> u32
        requires function { f < length self.now.functions }
        requires fits { Fits (dims_at self.now f) tuple.now }
        ensures value { result ≡ cell (dims_at self.now f) tuple.now }
        ensures below { result < cells (dims_at self.now f) }
    {
        self.function(f).cell(self.sizes.as_slice(), tuple)
    }

    /// The value at a place of the tuple with a number, which is one tuple alone.
    pub fn value_at(&self, f: u32, number: u32, place: u32) -> u32
        requires function { f < length self.now.functions }
        requires number { number < cells (dims_at self.now f) }
        requires place { place < arity self.now f }
        ensures value { (tuple : List ℕ) → Fits (dims_at self.now f) tuple
            → cell (dims_at self.now f) tuple ≡ number → result ≡ slice_index tuple place }
        ensures exists { (tuple : List ℕ) × Fits (dims_at self.now f) tuple
            × (cell (dims_at self.now f) tuple ≡ number) }
        ensures below { result < slice_index (dims_at self.now f) place }
    {
        self.function(f)
            .value_at(self.sizes.as_slice(), number, place)
    }

    /// Whether an assignment has a value for each variable, each in its domain, and if not, why.
    pub fn fits(&self, values: &[u32]) -> Fit
        ensures lengths { (result ≡ Fit.Length) ↔ (length values.now ≢ length self.now.sizes) }
        ensures value { (x : ℕ) → (result ≡ Fit.Value x) ↔ IsFirstMisfit self.now.sizes values.now x }
        ensures fits { (result ≡ Fit.Fits) ↔ Fits self.now.sizes values.now }
    {
        if values.len() != self.sizes.len() {
            return Fit::Length;
        }
        for (x, size) in self.sizes.as_slice().iter().enumerate() {
            if values[x] >= *size {
                return Fit::Value(x as u32);
            }
        }
        Fit::Fits
    }

    /// The cost of an assignment: the sum of all functions' entries, or the upper bound where that is less
    /// (toulbar2 user manual, wcsp format; Cooper et al. 2010).
    pub fn cost(&self, values: &[u32]) -> Cost
        requires { Fits self.now.sizes values.now }
        ensures value { result.value ≡ cost self.now values.now }
        ensures top { result.top ≡ self.now.upper }
    {
        let mut sum = Cost::of(0, self.upper);
        for f in 0..self.functions() {
            sum = sum.plus(self.part(f, values));
        }
        sum
    }

    /// The entry of a function at the tuple of an assignment, at most the upper bound.
    pub fn entry_of(&self, f: u32, values: &[u32]) -> u64
        requires function { f < length self.now.functions }
        requires fits { Fits self.now.sizes values.now }
        ensures { result ≡ entry_at self.now f (restrict (scope_at self.now f) values.now) }
    {
        self.part(f, values).value()
    }

    /// A network with no functions.
    pub(crate) fn bare(
        alloc: Global,
        name: &[u8],
        sizes: &[u32],
        upper: u64,
    ) -> Result<Network, AllocError>
        requires name { IsWord name.now }
        requires sizes { AreSizes sizes.now }
        requires upper { upper ≤ GREATEST }
        ensures { IfOk result (λ n. n ≡ new_network name.now sizes.now upper) }
    {
        Ok(Network {
            name: name.to_vec(alloc)?,
            sizes: sizes.to_vec(alloc)?,
            upper,
            functions: Vec::new(alloc),
            tables: Vec::new(alloc),
        })
    }

    /// A network like this one, with no functions.
    pub(crate) fn without_functions(&self) -> Result<Network, AllocError>
        ensures { IfOk result (λ n. n ≡ new_network self.now.name self.now.sizes self.now.upper) }
    {
        let alloc = self.alloc();
        Network::bare(
            alloc,
            self.name.as_slice(),
            self.sizes.as_slice(),
            self.upper,
        )
    }

    /// What gives the network its memory.
    pub(crate) fn alloc(&self) -> Global {
        *self.name.allocator()
    }

    /// The number of tuples of a scope of this network.
    pub(crate) fn cells_in(&self, scope: &[u32]) -> u32
        requires { IsScope self.now.sizes scope.now }
        ensures { result ≡ cells (dims self.now.sizes scope.now) }
    {
        cells_of(self.sizes.as_slice(), scope)
    }

    /// The number of a tuple of a scope of this network.
    pub(crate) fn cell_in(&self, scope: &[u32], tuple: &[u32]) -> u32
        requires scope { IsScope self.now.sizes scope.now }
        requires fits { Fits (dims self.now.sizes scope.now) tuple.now }
        ensures value { result ≡ cell (dims self.now.sizes scope.now) tuple.now }
        ensures below { result < cells (dims self.now.sizes scope.now) }
    {
        cell_of(self.sizes.as_slice(), scope, tuple)
    }

    /// Writes all entries of a function.
    pub(crate) fn write_table(&self, f: u32, entries: &mut [u64])
        requires function { f < length self.now.functions }
        requires cells { length entries.old ≡ cells (dims_at self.now f) }
        ensures { entries.new ≡ (function_at self.now f).entries }
    {
        self.function(f).write_to(entries);
    }

    /// Adds a function with a table of its own. The entries are moved into it, or copied. An error leaves the network and
    /// the entries unchanged.
    pub(crate) fn push(
        &mut self,
        scope: &[u32],
        default: u64,
        entries: &mut Vec<u64>,
    ) -> Result<(), AllocError>
        requires room { CanTake self.old scope.now }
        requires function { IsFunction self.old.sizes self.old.upper (function scope.now default entries.old.items) }
        ensures ok { OnOk result (self.new ≡ with_function self.old (function scope.now default entries.old.items)) }
        ensures err { OnErr result (self.new ≡ self.old) }
        ensures entries { OnErr result (entries.new ≡ entries.old) }
    {
        let alloc = self.alloc();
        let scope = SmallVec::from_slice(alloc, scope)?;
        self.functions.reserve(1)?;
        self.tables.reserve(1)?;
        let table = Table::of(alloc, entries, default)?;
        let number = self.tables.len() as u32;
        self.tables.push_reserved(table);
        self.functions.push_reserved(Kept {
            scope,
            default,
            table: number,
        });
        Ok(())
    }

    /// Adds a function with the default and the table of an earlier one. An error leaves the network unchanged.
    pub(crate) fn share(&mut self, scope: &[u32], earlier: u32) -> Result<(), AllocError>
        requires room { CanTake self.old scope.now }
        requires earlier { earlier < length self.old.functions }
        requires dims { dims self.old.sizes scope.now ≡ dims_at self.old earlier }
        ensures ok { OnOk result (self.new ≡ with_function self.old (share_of self.old earlier scope.now)) }
        ensures err { OnErr result (self.new ≡ self.old) }
    {
        let alloc = self.alloc();
        let scope = SmallVec::from_slice(alloc, scope)?;
        let kept = &self.functions[earlier as usize];
        let default = kept.default;
        let table = kept.table;
        self.functions.push(Kept {
            scope,
            default,
            table,
        })?;
        Ok(())
    }

    /// What one function adds to the cost of an assignment.
    fn part(&self, f: u32, values: &[u32]) -> Cost
        requires function { f < length self.now.functions }
        requires fits { Fits self.now.sizes values.now }
        ensures value { result.value ≡ entry_at self.now f (restrict (scope_at self.now f) values.now) }
        ensures top { result.top ≡ self.now.upper }
    {
        let entry = self.function(f).cost(self.sizes.as_slice(), values);
        Cost::of(entry, self.upper)
    }

    /// The cost that a function of arity 0 is, and 0 for another function.
    fn constant_of(&self, f: u32) -> u64
        requires { f < length self.now.functions }
        ensures { result ≡ constant (function_at self.now f) }
    {
        self.law_limits();
        if self.scope(f).is_empty() {
            self.entry(f, 0)
        } else {
            0
        }
    }

    fn function(&self, f: u32) -> Function<'_>
        requires { f < length self.now.functions }
        ensures value { result ≡ function_at self.now f }
        ensures limits { IsFunction self.now.sizes self.now.upper result }
    {
        let kept = &self.functions[f as usize];
        Function {
            scope: kept.scope.as_slice(),
            default: kept.default,
            table: &self.tables[kept.table as usize],
        }
    }
}
