//! The command `cost`.

ghost use Rattle.std.specs.Prelude.{◌≡◌};
ghost use Rattle.cfn_cli.specs.Request.Costing.{spoken_cost};
ghost use Rattle.cfn_app.specs.Runs.Costing.{Costs, Prices};

use crate::loading::{load_bytes, read_bytes};
use crate::status::{Status, ending};
use cfn_cli::commands::CostArguments;
use cfn_desk::Desk;
use cfn_net::{Fit, Network};
use std::alloc::Global;

/// Loads and reads the file that is asked for and says the cost of the assignment, or the first fault.
pub fn cost_file<D: Desk>(alloc: Global, ask: &CostArguments, desk: &mut D) -> Status
    ensures ends { Costs (spoken_cost ask.now) (D.outside desk.old) (D.outside desk.new).calls result }
    ensures files { (D.outside desk.new).files ≡ (D.outside desk.old).files }
{
    let bytes = match load_bytes(alloc, ask.file.as_str(), desk) {
        Ok(bytes) => bytes,
        Err(status) => return status,
    };
    match read_bytes(alloc, ask.format, &bytes, desk) {
        Ok(network) => say_cost(&network, ask.values.as_slice(), desk),
        Err(status) => status,
    }
}

/// Says the cost of an assignment, or what is wrong with its values: first their number, then each in order.
fn say_cost<D: Desk>(network: &Network, values: &[u32], desk: &mut D) -> Status
    ensures ends { Prices network.now values.now (D.outside desk.old).calls (D.outside desk.new).calls result }
    ensures files { (D.outside desk.new).files ≡ (D.outside desk.old).files }
{
    match network.fits(values) {
        Fit::Fits => {
            let cost = network.cost(values).value();
            ending(
                cfn_report::write_cost(network.ub(), cost, desk),
                Status::Done,
            )
        }
        Fit::Length => {
            let variables = u64::from(network.variables());
            let said = cfn_report::write_values_fault(variables, values.len() as u64, desk);
            ending(said, Status::Refused)
        }
        Fit::Value(x) => ending(cfn_report::write_value_fault(x, desk), Status::Refused),
    }
}
