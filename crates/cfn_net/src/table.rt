//! The entries of a function, kept densely, or where few differ from its default, as a list of those.
ghost use Rattle.std.specs.Prelude.{◌≡◌, ◌↔◌, ℕ, ◌^◌, ◌<◌, length, slice_index, IfOk, IfSome, IsNone, IsSome, OnErr};
ghost use Rattle.cfn_net.specs.Listed.{AreSparse, spread};
ghost use Rattle.cfn_net.specs.Tables.{IsForm, Tabulates, entries_of};

use crate::sparse::{Listed, Sparse, count_differing};
use std::alloc::{AllocError, Global};

/// The entries of a function.
#[derive(Drop)]
pub(crate) enum Table {
    Dense(Vec<u64>),
    Sparse(Sparse),
}

impl Table {
    /// The table of these entries. They are moved into it where it is dense and they have no more room than they need,
    /// and else copied. An error leaves them as they are.
    pub(crate) fn of(
        alloc: Global,
        entries: &mut Vec<u64>,
        default: u64,
    ) -> Result<Table, AllocError>
        requires { length entries.old.items < 2 ^ 32 }
        ensures ok { IfOk result (Tabulates default entries.old.items) }
        ensures err { OnErr result (entries.new ≡ entries.old) }
    {
        let differing = count_differing(entries.as_slice(), default);
        if 8 * differing < entries.len() {
            let sparse = Sparse::of(alloc, entries.as_slice(), default, differing)?;
            Ok(Table::Sparse(sparse))
        } else if entries.len() < entries.capacity() {
            Ok(Table::Dense(Vec::from_slice(alloc, entries.as_slice())?))
        } else {
            Ok(Table::Dense(std::mem::replace(entries, Vec::new(alloc))))
        }
    }

    /// The number of cells.
    pub(crate) fn len(&self) -> usize
        ensures { result ≡ length (entries_of self.now) }
    {
        match self {
            Table::Dense(entries) => entries.len(),
            Table::Sparse(sparse) => sparse.len(),
        }
    }

    /// The entry at a cell.
    pub(crate) fn entry(&self, cell: u32) -> u64
        requires { cell < length (entries_of self.now) }
        ensures { result ≡ slice_index (entries_of self.now) cell }
    {
        match self {
            Table::Dense(entries) => entries[cell as usize],
            Table::Sparse(sparse) => sparse.entry(cell),
        }
    }

    /// All entries, where they are kept densely.
    pub(crate) fn dense(&self) -> Option<&[u64]>
        ensures entries { IfSome result (λ entries. entries.now ≡ entries_of self.now) }
        ensures form { (default : ℕ) → IsForm default self.now → IsNone result ↔ AreSparse default (entries_of self.now) }
    {
        match self {
            Table::Dense(entries) => Some(entries.as_slice()),
            Table::Sparse(_) => None,
        }
    }

    /// The entries that are listed, where they are not kept densely.
    pub(crate) fn listed(&self) -> Option<Listed<'_>>
        ensures entries { IfSome result (λ listed. spread (length (entries_of self.now)) listed.rest listed.cells.now ≡ entries_of self.now) }
        ensures form { (default : ℕ) → IsForm default self.now → IsSome result ↔ AreSparse default (entries_of self.now) }
    {
        match self {
            Table::Dense(_) => None,
            Table::Sparse(sparse) => Some(sparse.listed()),
        }
    }

    /// All entries, written out.
    pub(crate) fn expanded(&self, alloc: Global) -> Result<Vec<u64>, AllocError>
        ensures { IfOk result (λ entries. entries.items ≡ entries_of self.now) }
    {
        let mut entries = vec![in alloc; 0; self.len()]?;
        self.write_to(entries.as_mut_slice());
        Ok(entries)
    }

    /// Writes all entries.
    pub(crate) fn write_to(&self, entries: &mut [u64])
        requires { length entries.old ≡ length (entries_of self.now) }
        ensures { entries.new ≡ entries_of self.now }
    {
        match self {
            Table::Dense(dense) => entries.copy_from_slice(dense.as_slice()),
            Table::Sparse(sparse) => sparse.write_to(entries),
        }
    }
}
