//! Entries of which few differ from a default, as a list of those that do.
ghost use Rattle.std.specs.Prelude.{◌≡◌, ◌^◌, ◌<◌, ◌≤◌, length, slice_index, IfOk};
ghost use Rattle.cfn_net.specs.Listed.{differing, spread};

use std::alloc::{AllocError, Global};
use std::marker::Model;

/// The cells whose entries differ from a default, in order, with their entries: 16 bytes for each.
#[derive(Drop)]
pub(crate) struct Sparse {
    cells: u32,
    default: u64,
    listed: Vec<(u32, u64)>,
}

impl Model for Sparse {
    ghost use Rattle.std.specs.Prelude.{ℕ, List};
    ghost use Rattle.cfn_net.specs.Listed.{AreListings, spread};

    ghost Value = { List ℕ };

    ghost view = { λ s. spread s.cells s.default s.listed.items };

    ghost invariant = { λ s. AreListings s.cells s.listed.items };
}

impl Sparse {
    /// These entries, of which so many differ from the default.
    pub(crate) fn of(
        alloc: Global,
        entries: &[u64],
        default: u64,
        differing: usize,
    ) -> Result<Sparse, AllocError>
        requires { length entries.now < 2 ^ 32 }
        ensures { IfOk result (λ sparse. sparse ≡ entries.now) }
    {
        let mut listed = Vec::with_capacity(alloc, differing)?;
        for (cell, entry) in entries.iter().enumerate() {
            if *entry != default {
                listed.push((cell as u32, *entry))?;
            }
        }
        Ok(Sparse {
            cells: entries.len() as u32,
            default,
            listed,
        })
    }

    /// The number of cells.
    pub(crate) fn len(&self) -> usize
        ensures { result ≡ length self.now }
    {
        self.cells as usize
    }

    /// The listed cells.
    pub(crate) fn listed(&self) -> Listed<'_>
        ensures { spread (length self.now) result.rest result.cells.now ≡ self.now }
    {
        Listed {
            rest: self.default,
            cells: self.listed.as_slice(),
        }
    }

    /// The entry at a cell.
    pub(crate) fn entry(&self, cell: u32) -> u64
        requires { cell < length self.now }
        ensures { result ≡ slice_index self.now cell }
    {
        match self.listed.binary_search_by_key(&cell, |&(cell, _)| cell) {
            Ok(place) => self.listed[place].1,
            Err(_) => self.default,
        }
    }

    /// Writes all entries.
    pub(crate) fn write_to(&self, entries: &mut [u64])
        requires { length entries.old ≡ length self.now }
        ensures { entries.new ≡ self.now }
    {
        let default = self.default;
        let listed = self.listed.as_slice();
        entries.fill(default);
        for (cell, entry) in listed {
            entries[*cell as usize] = *entry;
        }
    }
}

/// The cells of a table that are listed, in order, each with its entry, and the entry of all other cells.
#[derive(Clone, Copy)]
pub struct Listed<'a> {
    pub rest: u64,
    pub cells: &'a [(u32, u64)],
}

/// How many entries differ from a default.
pub(crate) fn count_differing(entries: &[u64], default: u64) -> usize
    ensures count { result ≡ differing default entries.now }
    ensures most { result ≤ length entries.now }
{
    let mut differing = 0;
    for entry in entries {
        if *entry != default {
            differing += 1;
        }
    }
    differing
}
