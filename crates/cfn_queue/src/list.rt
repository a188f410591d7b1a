//! Open leaves in the order of their floors.

ghost use Rattle.std.specs.Prelude.{◌≡◌, ◌+◌, ◌<◌, ◌≤◌, [], ◌∷◌, length, slice_index_or, OnOk, OnErr, MatchOption, IsPermutation};
ghost use Rattle.std.specs.List.{filter};
ghost use Rattle.cfn_queue.specs.Listing.{Listing, IsLeast, is_below};

use std::alloc::{AllocError, Global};
use std::cmp::Reverse;
use std::collections::BinaryHeap;
use std::marker::Model;

/// An open leaf of a search tree, by its number, with the floor of what stands before it. Leaves are in the order of their
/// floors, and of their numbers where the floors are equal.
#[derive(Clone, Copy, Debug, PartialEq, Eq, PartialOrd, Ord)]
pub struct OpenLeaf {
    pub floor: u128,
    pub leaf: u32,
}

/// Open leaves. Contracts see the list of them, in any order, and for how many more there is room.
///
/// Only `reserve` takes memory.
#[derive(Drop)]
pub struct OpenList {
    heap: BinaryHeap<Reverse<OpenLeaf>>,
}

impl Model for OpenList {
    ghost use Rattle.std.specs.Prelude.{◌-◌};
    ghost use Rattle.std.specs.BinaryHeap.{IsHeap, heap_items, heap_len, heap_capacity};
    ghost use Rattle.cfn_queue.specs.Listing.{Listing, leaves_of, later_first};

    ghost Value = { Listing };

    ghost view = { λ o. record { leaves = leaves_of (heap_items o.heap); spare = heap_capacity o.heap - heap_len o.heap } };

    ghost invariant = { λ o. IsHeap later_first (heap_items o.heap) };
}

impl OpenList {
    /// No leaf. It takes no memory.
    pub fn make(alloc: Global) -> OpenList
        ensures { result.leaves ≡ [] }
    {
        OpenList {
            heap: BinaryHeap::new(alloc),
        }
    }

    /// How many leaves there are.
    pub fn len(&self) -> usize
        ensures { result ≡ length self.now.leaves }
    {
        self.heap.len()
    }

    /// Makes room for `more` leaves. An `Err` is want of memory.
    pub fn reserve(&mut self, more: usize) -> Result<(), AllocError>
        ensures leaves { self.new.leaves ≡ self.old.leaves }
        ensures room { self.old.spare ≤ self.new.spare }
        ensures ok { OnOk result (more ≤ self.new.spare) }
    {
        self.heap.reserve(more)
    }

    /// Puts a leaf among the others, where there is room for one.
    pub fn insert(&mut self, leaf: OpenLeaf)
        requires room { 0 < self.old.spare }
        ensures leaves { IsPermutation (leaf ∷ self.old.leaves) self.new.leaves }
        ensures room { self.old.spare ≤ self.new.spare + 1 }
    {
        let _ = self.heap.push(Reverse(leaf));
    }

    /// The leaf of least floor, and of these the one of least number. There is none exactly where there is no leaf.
    pub fn least(&self) -> Option<OpenLeaf>
        ensures { MatchOption result (self.now.leaves ≡ []) (IsLeast self.now.leaves) }
    {
        match self.heap.peek() {
            Some(Reverse(leaf)) => Some(*leaf),
            None => None,
        }
    }

    /// Takes the leaf that `least` answers.
    pub fn take_least(&mut self) -> Option<OpenLeaf>
        ensures least { MatchOption result (self.old.leaves ≡ []) (IsLeast self.old.leaves) }
        ensures rest { MatchOption result (self.new ≡ self.old)
            (λ leaf. IsPermutation self.old.leaves (leaf ∷ self.new.leaves) × (self.new.spare ≡ self.old.spare + 1)) }
    {
        let Reverse(leaf) = self.heap.pop()?;
        Some(leaf)
    }

    /// The leaf at a place of the list, in the order in which contracts see it.
    pub fn at(&self, place: usize) -> OpenLeaf
        requires { place < length self.now.leaves }
        ensures { result ≡ slice_index_or self.now.leaves place result }
    {
        let Reverse(leaf) = self.heap.as_slice()[place];
        leaf
    }

    /// Keeps the leaves whose floor is below `k`, and takes all others away, whose places are room again. It goes over the
    /// list once or twice.
    pub fn keep_below(&mut self, k: u128)
        ensures leaves { IsPermutation (filter (is_below k) self.old.leaves) self.new.leaves }
        ensures room { self.new.spare + length self.new.leaves ≡ self.old.spare + length self.old.leaves }
    {
        self.heap.retain(|Reverse(leaf)| leaf.floor < k);
    }
}
