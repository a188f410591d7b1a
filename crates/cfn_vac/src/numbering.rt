//! Where each value stands among deletions.

ghost use Rattle.std.specs.Prelude.{◌≡◌, ℕ, List, length};
ghost use Rattle.cfn_model.specs.declared.step.Event.{Event};
ghost use Rattle.cfn_consistency.specs.Virtual.{Bans, IsDerivation};
ghost use Rattle.cfn_vac.specs.Tables.{AreFilled, AreOfDeletions, ArePositions};
ghost use Rattle.cfn_vac.specs.declared.numbering.TheConstants.{NONE};

use cfn_consistency::Deletion;
use cfn_net::Network;
use cfn_rows::Rows;

/// The number of a value that was not deleted.
pub(crate) const NONE: u64 = u64::MAX;

/// Gives each value of a derivation the number of its deletion, where no value has one. It costs what the derivation costs.
pub(crate) fn number(network: &Network, positions: &mut Rows<u64>, deletions: &[Deletion])
    requires none { AreFilled network.now NONE positions.old }
    requires derivation { (history : List Event) × (q : ℕ) × (bans : Bans) × IsDerivation network.now history q bans deletions.now }
    ensures positions { ArePositions network.now deletions.now positions.new }
    ensures none { AreOfDeletions network.now NONE deletions.now positions.new }
{
    let count = count(deletions);
    let mut left = deletions;
    while let Some((deletion, later)) = left.split_first() {
        let number = count - left.len() as u64;
        positions.set(deletion.variable as usize, deletion.value as usize, number);
        left = later;
    }
}

/// Takes the numbers of a derivation back: no value has one.
pub(crate) fn take_back(network: &Network, positions: &mut Rows<u64>, deletions: &[Deletion])
    requires none { AreOfDeletions network.now NONE deletions.now positions.old }
    requires derivation { (history : List Event) × (q : ℕ) × (bans : Bans) × IsDerivation network.now history q bans deletions.now }
    ensures { AreFilled network.now NONE positions.new }
{
    let mut left = deletions;
    while let Some((deletion, later)) = left.split_first() {
        positions.set(deletion.variable as usize, deletion.value as usize, NONE);
        left = later;
    }
}

/// How many deletions there are.
fn count(deletions: &[Deletion]) -> u64
    ensures { result ≡ length deletions.now }
{
    deletions.len() as u64
}
