//! An end of a lane that steals.

ghost use Rattle.std.specs.Prelude.{◌≡◌, [], ◌∷◌, ◌++◌, None, MatchOption};
ghost use Rattle.crossbeam_deque.specs.Handles.{view as known, IsPassOf, stealer_deque, stealer_flavor};
ghost use Rattle.cfn_rota.specs.Balances.{tally};

use crate::rule::{Balance, Kind, Taking, Tally};
use crossbeam_deque::{Pass, Steal, Stealer};
use std::alloc::Global;
use std::marker::Model;

/// How often a thief tries where other ends are quicker.
const TRIES: u32 = 16;

/// An end that steals from another worker's lane.
#[derive(Drop)]
pub struct Thief<T, K: Kind<T>> {
    stealer: Stealer<T, Global, Tally<T>, Balance<K>>,
    pass: Pass<T, Tally<T>>,
}

impl<T, K: Kind<T>> Model for Thief<T, K> {
    ghost use Rattle.std.specs.Prelude.{◌≡◌, []};
    ghost use Rattle.crossbeam_deque.specs.Handles.{view as known, IsPassOf, stealer_deque, stealer_flavor};
    ghost use Rattle.cfn_rota.specs.Balances.{tally};
    ghost use Rattle.cfn_rota.specs.Values.{Stolen};

    ghost Value = { Stolen T };

    ghost view = { λ s. record { lane = (stealer_deque s.stealer).0; taken = (known s.pass).taken } };

    ghost invariant = { λ s. IsPassOf (stealer_deque s.stealer) s.pass × (stealer_flavor s.stealer ≡ 0) × (known s.pass ≡ tally 1 [] (known s.pass).taken) };
}

impl<T, K: Kind<T>> Thief<T, K> {
    /// The end of this pass.
    pub(crate) fn of(
        stealer: Stealer<T, Global, Tally<T>, Balance<K>>,
        pass: Pass<T, Tally<T>>,
    ) -> Thief<T, K>
        requires own { IsPassOf (stealer_deque stealer) pass }
        requires flavor { stealer_flavor stealer ≡ 0 }
        requires new { known pass ≡ tally 1 [] [] }
        ensures { result ≡ record { lane = (stealer_deque stealer).0; taken = [] } }
    {
        Thief { stealer, pass }
    }

    /// Takes the task that was pushed first of those that are left. `None` comes where the lane was empty at one moment, or
    /// where other ends were quicker 16 times. It takes no memory.
    pub fn steal(&mut self) -> Option<T>
        ensures { MatchOption result (self.new ≡ self.old) (λ task. (self.new ≡ record self.old { taken = self.old.taken ++ task ∷ [] }) × K.fits task) }
    {
        for _ in 0..TRIES {
            match self.stealer.steal_as::<Taking<K>>(&mut self.pass) {
                Steal::Success(task) => return Some(task),
                Steal::Empty => return None,
                Steal::Retry => {}
            }
        }
        None
    }
}

impl<T: Drop, K: Kind<T>> Thief<T, K> {
    /// Its pass.
    pub(crate) fn into_pass(self) -> Pass<T, Tally<T>>
        ensures own { (result.rows ≡ self.lane) × (result.me.hand ≡ None) × (result.me.spare ≡ None) }
        ensures view { known result ≡ tally 1 [] self.taken }
    {
        let Thief { stealer: _, pass } = self;
        pass
    }
}
