//! The rule of a lane, and what each step on it tells.
//!
//! Each end has a tally. However tasks are weighed, what all ends have pushed weighs what they have taken and what the lane
//! holds. An end with no part of the lane has pushed and taken nothing, so an end with all parts knows the whole.

use crossbeam_deque::protocol::{Join, Lesson, Outcome, Protocol, Split};
use std::collections::LinkedList;
use std::marker::PhantomData;

/// Which tasks a lane may hold. No value of it is made.
pub trait Kind<T> {
    ghost fits: { T → Type 0 };
}

/// What an end of a lane has pushed and taken, and how many of the 128 parts of the lane it has. No value of it is made.
pub struct Tally<T> {
    pub parts: u32,
    pub pushed: LinkedList<T>,
    pub taken: LinkedList<T>,
}

/// The rule.
pub(crate) struct Balance<K> {
    kind: PhantomData<K>,
}

impl<T, K: Kind<T>> Protocol<T, Tally<T>> for Balance<K> {
    ghost use Rattle.std.specs.Prelude.{[]};
    ghost use Rattle.cfn_rota.specs.Balances.{Balanced, tally};

    ghost holds = { Balanced K.fits };

    ghost first = { tally 128 [] [] };

    ghost guest = { tally 0 [] [] };
}

/// A task is pushed.
pub(crate) struct Pushing;

impl<T> Outcome<T, Tally<T>> for Pushing {
    ghost use Rattle.std.specs.Prelude.{◌≡◌};
    ghost use Rattle.cfn_rota.specs.Balances.{pushed};

    ghost then = { λ v xs w. w ≡ pushed v xs };
}

/// A task is taken, or none is there.
pub(crate) struct Taking<K> {
    kind: PhantomData<K>,
}

impl<T, K: Kind<T>> Outcome<T, Tally<T>> for Taking<K> {
    ghost use Rattle.std.specs.Prelude.{◌≡◌, []};
    ghost use Rattle.std.specs.List.{AllByRecursion};
    ghost use Rattle.cfn_rota.specs.Balances.{taken, KnowsMost, KnowsWhole};

    ghost then = { λ v xs w. (w ≡ taken v xs) × AllByRecursion K.fits xs × KnowsMost w };

    ghost empty = { λ v. KnowsWhole v [] };
}

/// One part goes to a new end.
pub(crate) struct Parting;

impl<T> Split<Tally<T>> for Parting {
    ghost use Rattle.std.specs.Prelude.{[], ◌-◌};
    ghost use Rattle.cfn_rota.specs.Balances.{tally};

    ghost left = { λ v. tally (v.parts - 1) v.pushed v.taken };

    ghost right = { λ v. tally 1 [] [] };
}

impl<T> Join<Tally<T>> for Parting {
    ghost use Rattle.std.specs.Prelude.{[]};
    ghost use Rattle.cfn_rota.specs.Balances.{joined, tally};

    ghost both = { joined };

    ghost spent = { tally 0 [] [] };
}

/// What the lane holds is counted.
pub(crate) struct Counting<K> {
    kind: PhantomData<K>,
}

impl<T, K: Kind<T>> Lesson<T, Tally<T>> for Counting<K> {
    ghost use Rattle.std.specs.List.{AllByRecursion};
    ghost use Rattle.cfn_rota.specs.Balances.{KnowsWhole};

    ghost fact = { λ v items. AllByRecursion K.fits items × KnowsWhole v items };
}
