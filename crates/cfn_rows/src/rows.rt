//! Rows in one vector.

ghost use Rattle.std.specs.Prelude.{◌≡◌, ◌+◌, ◌<◌, ◌≤◌, List, ◌∷◌, length, map, replicate, slice_index_or, slice_range, slice_set, IfOk};
ghost use Rattle.std.specs.Borrow.{sem};
ghost use Rattle.cfn_rows.specs.Jagged.{row_at, with_row, ends_from};

use std::alloc::{AllocError, Global};
use std::marker::Model;

/// Rows of items, each with a length of its own that stays. Contracts see a list of lists, one a row.
#[derive(Drop)]
pub struct Rows<T> {
    items: Vec<T>,
    starts: Vec<usize>,
}

impl<T> Model for Rows<T> {
    ghost use Rattle.std.specs.Prelude.{List, length};
    ghost use Rattle.std.specs.Coded.{coded_list};
    ghost use Rattle.cfn_rows.specs.Jagged.{rows_of, IsCut};

    ghost Value = { List (List T) };

    ghost coded = { coded_list (coded_list T.code) };

    ghost view = { λ s. rows_of s.items.items s.starts.items };

    ghost invariant = { λ s. IsCut s.starts.items (length s.items.items) };
}

// The start of each row of these lengths, and the end of the last. An `Err` is want of memory; a sum of lengths that no
// memory has is one.
fn starts_of(alloc: Global, lengths: &[u32]) -> Result<Vec<usize>, AllocError>
    ensures { IfOk result (λ starts. starts.items ≡ 0 ∷ ends_from 0 lengths.now) }
{
    let mut starts = Vec::with_capacity(alloc, lengths.len() + 1)?;
    let mut end: usize = 0;
    starts.push_reserved(end);
    for length in lengths {
        let Some(next) = end.checked_add(*length as usize) else {
            return Err(AllocError);
        };
        end = next;
        starts.push_reserved(end);
    }
    Ok(starts)
}

// The items from one place to another.
fn part<T>(items: &[T], from: usize, to: usize) -> &[T]
    requires rises { from ≤ to }
    requires within { to ≤ length items.now }
    ensures { result.now ≡ slice_range items.now from to }
{
    &items[from..to]
}

impl<T: Copy> Rows<T> {
    ghost use Rattle.cfn_rows.specs.Lends.{lends_row};

    /// A row of each of these lengths, with `value` at each place. An `Err` is want of memory; no other call takes memory.
    pub fn filled(alloc: Global, lengths: &[u32], value: T) -> Result<Rows<T>, AllocError>
        ensures { IfOk result (λ rows. rows ≡ map (λ n. replicate n value) lengths.now) }
    {
        let starts = starts_of(alloc, lengths)?;
        let mut items = Vec::new(alloc);
        items.resize(starts[lengths.len()], value)?;
        Ok(Rows { items, starts })
    }

    /// How many rows there are.
    pub fn len(&self) -> usize
        ensures { result ≡ length self.now }
    {
        self.starts.len() - 1
    }

    /// The items of row `r`.
    pub fn row(&self, r: usize) -> &[T]
        requires { r < length self.now }
        ensures { result.now ≡ row_at self.now r }
    {
        part(&self.items, self.starts[r], self.starts[r + 1])
    }

    /// The items of row `r`, for writing.
    pub fn row_mut(&mut self, r: usize) -> &mut [T]
        requires { r < length self.old }
        ensures* writes_back { sem 𝓛 (lends_row T.row self.entry r result) }
        ensures value { result.now ≡ row_at self.old r }
        ensures others { (row : List T) → length row ≡ length (row_at self.old r) → with_row self.old r row ≡ slice_set self.old r row }
    {
        let from = self.starts[r];
        let to = self.starts[r + 1];
        self.items.slice_mut(from..to)
    }

    /// The item at place `i` of row `r`.
    pub fn get(&self, r: usize, i: usize) -> T
        requires { (r < length self.now) × (i < length (row_at self.now r)) }
        ensures { result ≡ slice_index_or (row_at self.now r) i result }
    {
        self.row(r)[i]
    }

    /// Writes the item at place `i` of row `r`, and nothing else.
    pub fn set(&mut self, r: usize, i: usize, value: T)
        requires { (r < length self.old) × (i < length (row_at self.old r)) }
        ensures { self.new ≡ slice_set self.old r (slice_set (row_at self.old r) i value) }
    {
        self.row_mut(r)[i] = value;
    }
}
