//! The greatest amounts that steps take where a store stands: as much as keeps costs of what is live from 0 on and below 2^64, and
//! has a spelling.

ghost use Rattle.std.specs.Prelude.{◌≡◌, ◌<◌, length};
ghost use Rattle.cfn_model.specs.Steps.{IsPlace, IsValue};
ghost use Rattle.cfn_store.specs.Rooms.{IsProjectRoom, IsExtendRoom, IsLiftRoom, IsAbove, IsToExtend};

use crate::store::Store;
use cfn_model::GREATEST;

impl<'n> Store<'n> {
    /// The greatest amount that can be projected there, limited to what has a spelling and keeps costs below 2^64; 0 where
    /// none can.
    pub fn project_room(&self, f: u32, place: u32, value: u32) -> u64
        requires { IsPlace self.now.network f place value }
        ensures { IsProjectRoom self.now f place value result }
    {
        self.network().law_limits();
        let least = match self.least_residual(f, place, value) {
            Some(found) => found.cost,
            None => GREATEST,
        };
        let x = self.network().scope(f)[place as usize];
        GREATEST.min(least).min(self.above(x, value))
    }

    /// The greatest amount that can be extended there, with the same limits; 0 where none can.
    pub fn extend_room(&self, f: u32, place: u32, value: u32) -> u64
        requires { IsPlace self.now.network f place value }
        ensures { IsExtendRoom self.now f place value result }
    {
        self.network().law_limits();
        let above = match self.greatest_residual(f, place, value) {
            Some(found) => u64::MAX - found.cost,
            None => GREATEST,
        };
        let x = self.network().scope(f)[place as usize];
        GREATEST.min(above).min(self.least_unary(x, value))
    }

    /// The greatest amount that can be lifted from a variable, limited to what has a spelling; 0 where none can.
    pub fn lift_room(&self, x: u32) -> u64
        requires { x < length self.now.network.sizes }
        ensures { IsLiftRoom self.now x result }
    {
        let mut room = GREATEST;
        for value in self.live(x) {
            room = room.min(self.unary(x, *value));
        }
        room
    }

    /// What a live value's unary cost has above it, below 2^64.
    fn above(&self, x: u32, value: u32) -> u64
        requires { IsValue self.now.network x value }
        ensures { IsAbove self.now x value result }
    {
        if self.is_live(x, value) {
            u64::MAX - self.unary(x, value)
        } else {
            GREATEST
        }
    }

    /// What a value has to extend, as much as has a spelling where it is not live.
    fn least_unary(&self, x: u32, value: u32) -> u64
        requires { IsValue self.now.network x value }
        ensures { IsToExtend self.now x value result }
    {
        if self.is_live(x, value) {
            self.unary(x, value)
        } else {
            GREATEST
        }
    }
}
