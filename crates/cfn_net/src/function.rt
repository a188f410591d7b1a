//! One cost function, lent by its network: its scope, its default, and its table with a cost for each tuple, the last
//! variable running fastest.
ghost use Rattle.std.specs.Prelude.{◌≡◌, ◌↔◌, ℕ, ◌+◌, ◌^◌, ◌<◌, ◌≤◌, List, length, slice_index, IfSome, IsNone, IsSome};
ghost use Rattle.cfn_model.specs.Network.{Fits, cells, cell, dims, restrict, entry};
ghost use Rattle.cfn_model.specs.declared.limits.TheConstants.{MOST_TUPLES};
ghost use Rattle.cfn_net.specs.Building.{IsScope};
ghost use Rattle.cfn_net.specs.Listed.{spread};
ghost use Rattle.cfn_net.specs.Tables.{IsSparse};

use crate::sparse::Listed;
use crate::table::Table;
use std::marker::Model;

#[derive(Drop)]
pub(crate) struct Function<'a> {
    pub(crate) scope: &'a [u32],
    pub(crate) default: u64,
    pub(crate) table: &'a Table,
}

impl<'a> Model for Function<'a> {
    ghost use Rattle.cfn_model.specs.Network.{Function as CostFunction};
    ghost use Rattle.cfn_net.specs.Tables.{IsForm, entries_of};

    ghost Value = { CostFunction };

    ghost view = { λ f. record { scope = f.scope.now; default = f.default; entries = entries_of f.table.now } };

    ghost invariant = { λ f. IsForm f.default f.table.now };
}

impl<'a> Function<'a> {
    pub(crate) fn scope(&self) -> &'a [u32]
        ensures { result.now ≡ self.now.scope }
    {
        self.scope
    }

    pub(crate) fn default(&self) -> u64
        ensures { result ≡ self.now.default }
    {
        self.default
    }

    /// The number of cells.
    pub(crate) fn cells(&self) -> u32
        requires { length self.now.entries < 2 ^ 32 }
        ensures { result ≡ length self.now.entries }
    {
        self.table.len() as u32
    }

    /// All entries, where they are kept densely.
    pub(crate) fn table(&self) -> Option<&'a [u64]>
        ensures entries { IfSome result (λ entries. entries.now ≡ self.now.entries) }
        ensures form { IsNone result ↔ IsSparse self.now }
    {
        self.table.dense()
    }

    /// The entries that are listed, where they are not kept densely.
    pub(crate) fn listed(&self) -> Option<Listed<'a>>
        ensures entries { IfSome result (λ listed. spread (length self.now.entries) listed.rest listed.cells.now ≡ self.now.entries) }
        ensures form { IsSome result ↔ IsSparse self.now }
    {
        self.table.listed()
    }

    /// The entry at a cell.
    pub(crate) fn entry(&self, cell: u32) -> u64
        requires { cell < length self.now.entries }
        ensures { result ≡ slice_index self.now.entries cell }
    {
        self.table.entry(cell)
    }

    /// Writes all entries.
    pub(crate) fn write_to(&self, entries: &mut [u64])
        requires { length entries.old ≡ length self.now.entries }
        ensures { entries.new ≡ self.now.entries }
    {
        self.table.write_to(entries);
    }

    /// The number of a tuple.
    pub(crate) fn cell(&self, sizes: &[u32], tuple: &[u32]) -> u32
        requires scope { IsScope sizes.now self.now.scope }
        requires fits { Fits (dims sizes.now self.now.scope) tuple.now }
        ensures value { result ≡ cell (dims sizes.now self.now.scope) tuple.now }
        ensures below { result < cells (dims sizes.now self.now.scope) }
    {
        cell_of(sizes, self.scope(), tuple)
    }

    /// The value at a place of the tuple with a number.
    pub(crate) fn value_at(&self, sizes: &[u32], number: u32, place: u32) -> u32
        requires scope { IsScope sizes.now self.now.scope }
        requires sizes { (x : ℕ) → x < length sizes.now → 0 < slice_index sizes.now x }
        requires number { number < cells (dims sizes.now self.now.scope) }
        requires place { place < length self.now.scope }
        ensures value { (tuple : List ℕ) → Fits (dims sizes.now self.now.scope) tuple
            → cell (dims sizes.now self.now.scope) tuple ≡ number → result ≡ slice_index tuple place }
        ensures exists { (tuple : List ℕ) × Fits (dims sizes.now self.now.scope) tuple
            × (cell (dims sizes.now self.now.scope) tuple ≡ number) }
        ensures below { result < slice_index (dims sizes.now self.now.scope) place }
    {
        let scope = self.scope();
        let behind = &scope[place as usize + 1..];
        number / cells_of(sizes, behind) % sizes[scope[place as usize] as usize]
    }

    /// The cost of what an assignment gives the scope.
    pub(crate) fn cost(&self, sizes: &[u32], values: &[u32]) -> u64
        requires scope { IsScope sizes.now self.now.scope }
        requires table { length self.now.entries ≡ cells (dims sizes.now self.now.scope) }
        requires fits { Fits sizes.now values.now }
        ensures { result ≡ entry sizes.now self.now (restrict self.now.scope values.now) }
    {
        let mut cell: u32 = 0;
        for x in self.scope() {
            cell = cell * sizes[*x as usize] + values[*x as usize];
        }
        self.table.entry(cell)
    }
}

/// How many tuples a scope has.
pub(crate) fn cells_of(sizes: &[u32], scope: &[u32]) -> u32
    requires scope { (place : ℕ) → place < length scope.now → slice_index scope.now place < length sizes.now }
    requires few { cells (dims sizes.now scope.now) ≤ MOST_TUPLES }
    requires sizes { (x : ℕ) → x < length sizes.now → 0 < slice_index sizes.now x }
    ensures { result ≡ cells (dims sizes.now scope.now) }
{
    let mut cells = 1;
    for x in scope {
        cells *= sizes[*x as usize];
    }
    cells
}

/// The number of a tuple of a scope.
pub(crate) fn cell_of(sizes: &[u32], scope: &[u32], tuple: &[u32]) -> u32
    requires scope { IsScope sizes.now scope.now }
    requires fits { Fits (dims sizes.now scope.now) tuple.now }
    ensures value { result ≡ cell (dims sizes.now scope.now) tuple.now }
    ensures below { result < cells (dims sizes.now scope.now) }
{
    let mut cell = 0;
    for (place, x) in scope.iter().enumerate() {
        cell = cell * sizes[*x as usize] + tuple[place];
    }
    cell
}
