//! The scan over the live tuples of a function of three variables, by three loops: most functions of more than two variables
//! have three, and then what the scan of a scope of any length decides at each place is decided once.

ghost use Rattle.std.specs.Prelude.{◌≡◌, ℕ, ◌+◌, ◌<◌, true, List, [], ◌∷◌, length, slice_index, Option, MatchOption};
ghost use Rattle.cfn_scan.specs.Reading.{start};
ghost use Rattle.cfn_scan.specs.Scanning.{AreChoices, IsBest, IsFound, IsSooner, IsSpot, NoneMet, found_in};

use crate::scan::{Best, Extreme, Scan, Spot};
use std::slice;

/// From so many values on it is seen whether all of a variable's values are live: then their tuples lie together.
const WIDE: usize = 8;

impl Scan<'_> {
    /// What stands first among the tuples of a function of three variables whose values may stand there.
    pub fn first_of_three(&self, scope: &[u32]) -> Option<Extreme>
        requires three { length scope.now ≡ 3 }
        requires spot { IsSpot self.now scope.now start }
        ensures { MatchOption result (NoneMet self.now scope.now start) (IsFound self.now scope.now start) }
    {
        let (x, y, z) = (scope[0], scope[1], scope[2]);
        let (seconds, thirds) = (self.choices(y, 1), self.choices(z, 2));
        let spot = Spot {
            cell: 0,
            shift: 0,
            offset: 0,
            place: 0,
        };
        let mut best = Best::none();
        for value in self.choices(x, 0) {
            let behind = self.gone_on(spot, x, *value);
            best = self.first_of_rows(y, z, seconds, thirds, behind, best);
            if best.key == 0 {
                return self.found_in(best);
            }
        }
        self.found_in(best)
    }

    /// What stands first of what was found so far and the tuples behind a value of the first variable.
    #[inline(always)]
    fn first_of_rows(
        &self,
        y: u32,
        z: u32,
        seconds: &[u32],
        thirds: &[u32],
        spot: Spot,
        best: Best,
    ) -> Best
        requires spot { IsSpot self.now (y ∷ z ∷ []) spot }
        requires seconds { AreChoices self.now spot.place y seconds.now }
        requires thirds { AreChoices self.now (spot.place + 1) z thirds.now }
        requires best { IsBest best }
        requires some { 0 < best.key }
        ensures best { IsBest result }
        ensures sooner { (other : Option Extreme) × MatchOption other (NoneMet self.now (y ∷ z ∷ []) spot) (IsFound self.now (y ∷ z ∷ []) spot)
            × IsSooner self.now.sense (found_in self.now.sense best) other (found_in self.now.sense result) }
    {
        let mut least = best;
        for value in seconds {
            let behind = self.gone_on(spot, y, *value);
            least = self.first_of_row(z, thirds, behind, least);
            if least.key == 0 {
                return least;
            }
        }
        least
    }

    /// The same behind values of the first two variables.
    #[inline(always)]
    fn first_of_row(&self, z: u32, thirds: &[u32], spot: Spot, best: Best) -> Best
        requires spot { IsSpot self.now (z ∷ []) spot }
        requires thirds { AreChoices self.now spot.place z thirds.now }
        requires best { IsBest best }
        requires some { 0 < best.key }
        ensures best { IsBest result }
        ensures sooner { (other : Option Extreme) × MatchOption other (NoneMet self.now (z ∷ []) spot) (IsFound self.now (z ∷ []) spot)
            × IsSooner self.now.sense (found_in self.now.sense best) other (found_in self.now.sense result) }
    {
        if thirds.len() >= WIDE && self.is_lane(slice::from_ref(&z), spot) {
            return self.better_of(best, self.lane(z, spot));
        }
        let mut least = best;
        for value in thirds {
            least = self.better(least, self.gone_on(spot, z, *value));
            if least.key == 0 {
                return least;
            }
        }
        least
    }
}
