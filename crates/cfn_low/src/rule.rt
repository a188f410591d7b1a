//! The rule of the word, and what each step on it tells.
//!
//! The word is the least of a top and of all prices that are kept: the top, or the cost of an assignment. A view is what one thread has of it; where it has no
//! share it keeps nothing below the top. So whoever has all shares and has just looked has seen the price of its own best.

ghost use Rattle.std.specs.Prelude.{ℕ};
ghost use Rattle.cfn_low.specs.Steps.{IsWord, first_of, Looks, Lowers, left_of, right_of, noted, joined, spent};

use atomic_table::{Join, Play, Split, TableRule};
use cfn_machine::Sight;
use cfn_net::Network;
use std::marker::{Brand, PhantomData};

/// Which word a part is of, the network whose assignments are found, and what the search begins with. No value of it is made.
pub trait Incumbent {
    ghost use Rattle.atomic_table.specs.Seated.{TableId};
    ghost use Rattle.cfn_model.specs.Network.{Network};
    ghost use Rattle.cfn_low.specs.Outcome.{Start};

    ghost table: { TableId };

    ghost network: { Network };

    ghost start: { Start };
}

/// The name that one call picks for a word: at such a call the members are those that the caller says, and these are never read.
impl Incumbent for Brand {
    ghost use Rattle.std.specs.Prelude.{[], None};

    ghost table = { record { words = 1; slots = 0; views_name = 0; atom = 0; block = 0; offset = 0; slot_names = [] } };

    ghost network = { record { name = []; sizes = []; upper = 0; functions = [] } };

    ghost start = { record { begun = 0; first = record { lower = 0; upper = None }; aside = [] } };
}

/// The rule, for a network: its upper bound is the top.
pub(crate) struct WordRule;

impl TableRule<(), Sight, Network> for WordRule {
    ghost holds = { IsWord };

    ghost first = { first_of };
}

/// A read of the word.
pub(crate) struct Look<M> {
    word: PhantomData<M>,
}

impl<M: Incumbent> Play<(), Sight> for Look<M> {
    ghost then = { Looks M.network };
}

/// The word is lowered to a price.
pub(crate) struct Lower<M> {
    word: PhantomData<M>,
}

impl<M: Incumbent> Play<(), Sight> for Lower<M> {
    ghost then = { Lowers M.network };
}

/// One share goes to a new part, which keeps nothing.
pub(crate) struct Share<M> {
    word: PhantomData<M>,
}

impl<M: Incumbent> Split<Sight> for Share<M> {
    ghost left = { left_of };

    ghost right = { right_of M.network.upper };
}

/// What was seen goes to a new part, which has no share.
pub(crate) struct Telling<M> {
    word: PhantomData<M>,
}

impl<M: Incumbent> Split<Sight> for Telling<M> {
    ghost left = { λ v. v };

    ghost right = { noted M.network.upper };
}

/// A part is joined into another.
pub(crate) struct Meeting<M> {
    word: PhantomData<M>,
}

impl<M: Incumbent> Join<Sight> for Meeting<M> {
    ghost both = { joined };

    ghost spent = { spent M.network.upper };
}
