//! What may not be a reason for a deletion: a flag for each value, and one for each value at each place of each function, whose row
//! has the values of its places one behind another.

ghost use Rattle.std.specs.Prelude.{◌≡◌, ℕ, ◌<◌, true, false, length, slice_index_or, IfOk, IsFalse};
ghost use Rattle.cfn_model.specs.Steps.{IsValue, IsPlace};
ghost use Rattle.cfn_rows.specs.Jagged.{row_at};
ghost use Rattle.cfn_derivation.specs.Banned.{IsBannedOwn, IsBannedBy, NoneBanned, flag_at, bans_of};

use cfn_net::Network;
use cfn_rows::Rows;
use cfn_scan::{slot_of, widths};
use std::alloc::{AllocError, Global};
use std::marker::Model;

/// Bans. Contracts see the network, and which values and places are banned. Only `make` takes memory.
#[derive(Drop)]
pub struct Bans<'n> {
    network: &'n Network,
    /// A row for each variable.
    own: Rows<bool>,
    /// A row for each function.
    by: Rows<bool>,
}

impl<'n> Model for Bans<'n> {
    ghost use Rattle.cfn_derivation.specs.Banned.{Banning, HasFlags};

    ghost Value = { Banning };

    ghost view = { λ s. record { network = s.network.now; own = s.own; by = s.by } };

    ghost invariant = { λ s. HasFlags (record { network = s.network.now; own = s.own; by = s.by }) };
}

impl<'n> Bans<'n> {
    /// None is banned. An `Err` is want of memory.
    pub fn make(alloc: Global, network: &'n Network) -> Result<Bans<'n>, AllocError>
        ensures network { IfOk result (λ bans. bans.network ≡ network.now) }
        ensures none { IfOk result (λ bans. NoneBanned network.now (bans_of bans)) }
    {
        Ok(Bans {
            network,
            own: Rows::filled(alloc, network.sizes(), false)?,
            by: Rows::filled(alloc, &widths(alloc, network)?, false)?,
        })
    }

    /// Whether a value's unary cost deletes nothing.
    pub fn own(&self, x: u32, value: u32) -> bool
        requires { IsValue self.now.network x value }
        ensures { result ≡ (bans_of self.now).own x value }
    {
        self.own.get(x as usize, value as usize)
    }

    /// Whether a function may not delete a value at a place.
    pub fn by(&self, f: u32, place: u32, value: u32) -> bool
        requires { IsPlace self.now.network f place value }
        ensures { result ≡ (bans_of self.now).by f place value }
    {
        let width = self.by.row(f as usize).len();
        let slot = slot_of(self.network, f, place, value, width);
        self.by.get(f as usize, slot)
    }

    /// Bans a value's unary cost, and nothing else.
    pub fn ban_own(&mut self, x: u32, value: u32)
        requires { IsValue self.old.network x value }
        ensures network { self.new.network ≡ self.old.network }
        ensures banned { IsBannedOwn self.old.network (bans_of self.old) (bans_of self.new) x value }
    {
        self.own.set(x as usize, value as usize, true);
    }

    /// Bans a function at a value of a place, and nothing else.
    pub fn ban_by(&mut self, f: u32, place: u32, value: u32)
        requires { IsPlace self.old.network f place value }
        ensures network { self.new.network ≡ self.old.network }
        ensures banned { IsBannedBy self.old.network (bans_of self.old) (bans_of self.new) f place value }
    {
        let width = self.by.row(f as usize).len();
        let slot = slot_of(self.network, f, place, value, width);
        self.by.set(f as usize, slot, true);
    }

    /// Bans nothing any more. It looks at each flag.
    pub fn clear(&mut self)
        ensures network { self.new.network ≡ self.old.network }
        ensures none { NoneBanned self.old.network (bans_of self.new) }
    {
        lower_all(&mut self.own);
        lower_all(&mut self.by);
    }
}

/// Takes down all flags.
fn lower_all(rows: &mut Rows<bool>)
    ensures rows { length rows.new ≡ length rows.old }
    ensures shape { (r : ℕ) → length (row_at rows.new r) ≡ length (row_at rows.old r) }
    ensures down { (r i : ℕ) → IsFalse (flag_at rows.new r i) }
{
    for r in 0..rows.len() {
        lower(rows.row_mut(r));
    }
}

/// Takes down the flags of a row.
fn lower(row: &mut [bool])
    ensures size { length row.new ≡ length row.old }
    ensures down { (i : ℕ) → IsFalse (slice_index_or row.new i false) }
{
    for i in 0..row.len() {
        row[i] = false;
    }
}
