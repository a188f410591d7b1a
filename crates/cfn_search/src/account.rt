//! A worker's account: its part of the word, and the least threshold at which it made a piece.
//!
//! A piece is made with an account, which lowers that number to the piece's threshold, and given to the pool with an account
//! whose number is at most that. Nothing raises the number. When the account is closed it becomes a `Threshold`, which
//! nothing else makes.

ghost use Rattle.std.specs.Prelude.{◌≡◌, ◌≤◌, min, is_some, IfOk, IfErr};
ghost use Rattle.cfn_explore.specs.Falling.{HasFallen};
ghost use Rattle.cfn_search.specs.Searching.{IsMadeOf};

use cfn_explore::{Explore, Explored, Halt, Piece, Task};
use cfn_low::{Holder, Incumbent, Low, Note};
use cfn_net::Network;
use std::alloc::Global;
use std::marker::Model;

/// A part of the word, and the least threshold at which a piece was made with it: at first what the part has seen.
///
/// What the part has seen is at most that.
#[derive(Drop)]
pub struct Account<M: Incumbent> {
    part: Holder<M>,
    least: u64,
}

impl<M: Incumbent> Model for Account<M> {
    ghost use Rattle.std.specs.Prelude.{◌≤◌};
    ghost use Rattle.cfn_search.specs.Accounts.{AccountValue};

    ghost Value = { AccountValue };

    ghost view = { λ a. record { part = a.part; least = a.least } };

    ghost invariant = { λ a. (a.part.seen ≤ a.least) × (a.least ≤ M.network.upper) };
}

/// The least threshold at which a piece was made with an account that was closed. There is one for each such account.
#[derive(Drop)]
pub struct Threshold {
    least: u64,
}

impl Model for Threshold {
    ghost use Rattle.std.specs.Prelude.{ℕ};

    ghost Value = { ℕ };

    ghost view = { λ t. t.least };
}

impl Threshold {
    /// The threshold as a number.
    pub fn number(&self) -> u64
        ensures { result ≡ self.now }
    {
        self.least
    }
}

impl<M: Incumbent> Account<M> {
    /// The account of a part of the word with which no piece was made.
    pub fn open(part: Holder<M>) -> Account<M>
        ensures { result ≡ record { part = part; least = part.seen } }
    {
        part.law_kept();
        let least = part.seen();
        Account { part, least }
    }

    /// Whether its part of the word keeps an assignment.
    pub fn knows(&self) -> bool
        ensures { result ≡ is_some self.now.part.held }
    {
        self.part.best().values().is_some()
    }

    /// Dives below a task's leaf, with at most `backtracks`, at least 1, and until `halt` is past. An `Err`, want of memory, gives
    /// the task back.
    pub(crate) fn dive<E: Explore, H: Halt>(
        &mut self,
        alloc: Global,
        network: &Network,
        explorer: &mut E,
        task: Task,
        low: &Low<M>,
        backtracks: u64,
        halt: &H,
    ) -> Result<Piece, Task>
        requires network { network.now ≡ E.made_of explorer.old }
        requires task { task.network ≡ E.made_of explorer.old }
        requires word { M.network ≡ E.made_of explorer.old }
        requires some { 1 ≤ backtracks }
        ensures falls { HasFallen M.network self.old.part self.new.part }
        ensures made { IfOk result (IsMadeOf E.keeps task backtracks (H.limited halt.now) self.new.part.seen) }
        ensures least { IfOk result (λ piece. self.new.least ≡ min self.old.least piece.threshold) }
        ensures same { IfErr result (λ given. self.new.least ≡ self.old.least) }
        ensures back { IfErr result (λ given. given ≡ task) }
        ensures explorer { E.made_of explorer.new ≡ E.made_of explorer.old }
    {
        let part = &mut self.part;
        match explorer.explore(alloc, network, task, low, part, backtracks, halt) {
            Explored::Piece { piece, cut: _ } => {
                self.least = self.least.min(piece.threshold());
                Ok(piece)
            }
            Explored::Memory { task } => Err(task),
        }
    }

    /// A note of what its part of the word has seen, for a piece that is given to the pool.
    pub(crate) fn note(&mut self, low: &Low<M>) -> Note<M>
        ensures same { self.new ≡ self.old }
        ensures seen { result ≡ self.old.part.seen }
        ensures least { result ≤ self.old.least }
    {
        low.note(&mut self.part)
    }

    /// Its part of the word, and the least threshold at which a piece was made with it.
    pub fn close(self) -> (Holder<M>, Threshold)
        ensures part { result.0 ≡ self.part }
        ensures least { result.1 ≡ self.least }
        ensures seen { result.0.seen ≤ result.1 }
        ensures most { result.1 ≤ M.network.upper }
    {
        let Account { part, least } = self;
        (part, Threshold { least })
    }
}
