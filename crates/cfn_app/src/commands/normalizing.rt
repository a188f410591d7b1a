//! The command `normal`.

ghost use Rattle.std.specs.Prelude.{◌≡◌};
ghost use Rattle.cfn_model.specs.Reading.{Reads};
ghost use Rattle.cfn_wcspwrite.specs.Canonical.{canonical};
ghost use Rattle.cfn_cli.specs.Request.Normalizing.{spoken_normal};
ghost use Rattle.cfn_app.specs.Endings.{Ends};
ghost use Rattle.cfn_app.specs.declared.status.Status.TheVariants.{Done};
ghost use Rattle.cfn_app.specs.Runs.Normalizing.{Normalizes};

use crate::loading::{load_bytes, read_bytes};
use crate::status::{Status, ending};
use cfn_cli::commands::NormalArguments;
use cfn_desk::Desk;
use cfn_net::Network;
use cfn_wcspwrite::law_reads_back;
use std::alloc::Global;

/// Loads and reads the file that is asked for and says its network's canonical text, or the first fault.
pub fn normalize_file<D: Desk>(alloc: Global, ask: &NormalArguments, desk: &mut D) -> Status
    ensures ends { Normalizes (spoken_normal ask.now) (D.outside desk.old) (D.outside desk.new).calls result }
    ensures files { (D.outside desk.new).files ≡ (D.outside desk.old).files }
{
    let bytes = match load_bytes(alloc, ask.file.as_str(), desk) {
        Ok(bytes) => bytes,
        Err(status) => return status,
    };
    match read_bytes(alloc, ask.format, &bytes, desk) {
        Ok(network) => say_normal(&network, desk),
        Err(status) => status,
    }
}

/// Says the canonical text of a network.
fn say_normal<D: Desk>(network: &Network, desk: &mut D) -> Status
    ensures ends { Ends (record { calls = (D.outside desk.old).calls; text = canonical network.now; status = Done })
        (D.outside desk.new).calls result }
    ensures again { Reads (canonical network.now) network.now }
    ensures files { (D.outside desk.new).files ≡ (D.outside desk.old).files }
{
    network.law_limits();
    law_reads_back();
    ending(cfn_wcspwrite::write(network, desk), Status::Done)
}
