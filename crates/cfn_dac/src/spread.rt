//! The values of the second variable give what live tuples lack of the amounts of their first values: each in one extend, as
//! much as the tuple with it that lacks most.

ghost use Rattle.std.specs.Prelude.{◌≡◌, ◌+◌, ◌<◌, ◌≤◌, length, slice_index, Err, OnOk};
ghost use Rattle.cfn_model.specs.Steps.{IsPlace};
ghost use Rattle.cfn_store.specs.Standing.{history};
ghost use Rattle.cfn_scan.specs.Lines.{IsLine};
ghost use Rattle.cfn_gain.specs.Calls.{GoesOn, Does};
ghost use Rattle.cfn_dac.specs.Full.{IsPair, first_of, second_of};
ghost use Rattle.cfn_dac.specs.Shifts.{AreHeld};
ghost use Rattle.cfn_dac.specs.Going.{Fills};
ghost use Rattle.cfn_dac.specs.Moves.{Covers, AreWithin, AreForLive, AreLent, IsShare, IsLack, lack_of};

use crate::pair::Pair;
use crate::trim::trim;
use cfn_gain::{Halt, Limits, extend};
use cfn_scan::{Extreme, Line};
use cfn_store::Store;

/// Gives the function's live tuples the amounts of their first values, where they have them together with the unary costs
/// of their second values.
pub(crate) fn spread(
    store: &mut Store<'_>,
    limits: Limits,
    pair: Pair,
    moves: &[u64],
) -> Result<(), Halt>
    requires goes { GoesOn store.old limits }
    requires pair { IsPair store.old.network pair }
    requires room { slice_index store.old.network.sizes (first_of store.old.network pair) ≤ length moves.now }
    requires covers { Covers store.old.network (history store.old) pair moves.now 0 }
    requires held { AreHeld store.old.network (history store.old) pair moves.now 0 }
    requires within { AreWithin store.old.network (history store.old) pair limits.threshold moves.now 0 }
    ensures does { Does store.old store.new limits result }
    ensures fills { Fills store.old store.new limits.threshold pair moves.now 0 (slice_index store.old.network.sizes (second_of store.old.network pair)) }
    ensures spent { result ≡ Err Halt.Dead → ⊥ }
    ensures lent { OnOk result (AreLent store.new.network (history store.new) pair moves.now 0) }
    ensures within { OnOk result (AreWithin store.new.network (history store.new) pair limits.threshold moves.now 0) }
{
    store.network().law_limits();
    let y = store.network().scope(pair.function)[pair.other as usize];
    for value in 0..store.network().size(y) {
        fill(store, limits, pair, moves, value)?;
    }
    Ok(())
}

/// Gives the live tuples with one second value what they lack.
fn fill(
    store: &mut Store<'_>,
    limits: Limits,
    pair: Pair,
    moves: &[u64],
    value: u32,
) -> Result<(), Halt>
    requires goes { GoesOn store.old limits }
    requires pair { IsPair store.old.network pair }
    requires room { slice_index store.old.network.sizes (first_of store.old.network pair) ≤ length moves.now }
    requires value { IsPlace store.old.network pair.function pair.other value }
    requires covers { Covers store.old.network (history store.old) pair moves.now value }
    requires held { AreHeld store.old.network (history store.old) pair moves.now 0 }
    requires within { AreWithin store.old.network (history store.old) pair limits.threshold moves.now 0 }
    ensures does { Does store.old store.new limits result }
    ensures fills { Fills store.old store.new limits.threshold pair moves.now value (value + 1) }
    ensures spent { result ≡ Err Halt.Dead → ⊥ }
    ensures covers { OnOk result (Covers store.new.network (history store.new) pair moves.now (value + 1)) }
    ensures within { OnOk result (AreWithin store.new.network (history store.new) pair limits.threshold moves.now 0) }
{
    store.network().law_limits();
    store.law_exact();
    let share = share(store, pair, moves, value);
    if share == 0 {
        return Ok(());
    }
    trim(store, limits, pair.function, pair.other, value)?;
    extend(store, limits, pair.function, pair.other, value, share)
}

/// The most that a live tuple with a second value lacks of its first value's amount; only live values get one.
fn share(store: &Store<'_>, pair: Pair, moves: &[u64], value: u32) -> u64
    requires pair { IsPair store.now.network pair }
    requires room { slice_index store.now.network.sizes (first_of store.now.network pair) ≤ length moves.now }
    requires value { IsPlace store.now.network pair.function pair.other value }
    requires live { AreForLive store.now.network (history store.now) pair moves.now }
    ensures { IsShare store.now.network (history store.now) pair moves.now value result }
{
    store.network().law_limits();
    let y = store.network().scope(pair.function)[pair.other as usize];
    if !store.is_live(y, value) {
        return 0;
    }
    match store.side(pair.function, pair.other) {
        Some(side) => share_along(store, pair, moves, value, &side.line(value)),
        None => share_apart(store, pair, moves, value),
    }
}

/// The same, along a line.
fn share_along(store: &Store<'_>, pair: Pair, moves: &[u64], value: u32, line: &Line<'_>) -> u64
    requires pair { IsPair store.now.network pair }
    requires room { slice_index store.now.network.sizes (first_of store.now.network pair) ≤ length moves.now }
    requires line { IsLine store.now.network (history store.now) pair.function pair.other value pair.place line.now }
    requires live { AreForLive store.now.network (history store.now) pair moves.now }
    ensures { IsShare store.now.network (history store.now) pair moves.now value result }
{
    store.network().law_limits();
    store.law_exact();
    let x = store.network().scope(pair.function)[pair.place as usize];
    let mut share = 0;
    for first in 0..store.network().size(x) {
        let amount = moves[first as usize];
        if amount > share {
            share = share.max(lack_of(amount, line.least(first)));
        }
    }
    share
}

/// The same, one pair of values after another.
fn share_apart(store: &Store<'_>, pair: Pair, moves: &[u64], value: u32) -> u64
    requires pair { IsPair store.now.network pair }
    requires room { slice_index store.now.network.sizes (first_of store.now.network pair) ≤ length moves.now }
    requires value { IsPlace store.now.network pair.function pair.other value }
    ensures { IsShare store.now.network (history store.now) pair moves.now value result }
{
    store.network().law_limits();
    store.law_exact();
    let x = store.network().scope(pair.function)[pair.place as usize];
    let mut share = 0;
    for first in 0..store.network().size(x) {
        let amount = moves[first as usize];
        if amount > share {
            share = share.max(lack(store, pair, first, value, amount));
        }
    }
    share
}

/// The most that a live tuple with two values lacks of an amount.
fn lack(store: &Store<'_>, pair: Pair, first: u32, second: u32, amount: u64) -> u64
    requires first { IsPlace store.now.network pair.function pair.place first }
    requires second { IsPlace store.now.network pair.function pair.other second }
    ensures { IsLack store.now.network (history store.now) pair first second amount result }
{
    let found = store.least_between(pair.function, pair.place, first, pair.other, second);
    lack_of(amount, found)
}

/// What a least cost lacks of an amount; where there is none, nothing is lacking.
fn lack_of(amount: u64, found: Option<Extreme>) -> u64
    ensures { result ≡ lack_of amount found }
{
    match found {
        Some(extreme) => amount.saturating_sub(extreme.cost),
        None => 0,
    }
}
