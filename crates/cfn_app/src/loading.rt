//! From the names of files to their bytes, and from bytes to a network.

ghost use Rattle.std.specs.Prelude.{◌≡◌, IfErr, IfOk};
ghost use Rattle.cfn_desk.specs.Outside.{HasFile, Load, Bytes, after};
ghost use Rattle.cfn_app.specs.Loading.{Paired, ReadsAs, SaysUnread, Unloaded, Unpaired, Unread, read_as};
ghost use Rattle.cfn_wcnf.specs.Giving.{Gives};

use crate::status::{Status, ending};
use cfn_cli::Format;
use cfn_desk::{Desk, LoadFault};
use cfn_net::Network;
use cfn_wcnf::{ReadFault, Unread as FirstUnread};
use std::alloc::Global;

/// The bytes of the file `name`. An `Err` has said why there are none, and is the status that the run ends with.
pub fn load_bytes<D: Desk>(alloc: Global, name: &str, desk: &mut D) -> Result<Vec<u8>, Status>
    ensures has { IfOk result (λ bytes. HasFile (D.outside desk.old) name.now bytes.items) }
    ensures loaded { IfOk result (λ bytes. D.outside desk.new
        ≡ after (Load name.now (Bytes bytes.items)) (D.outside desk.old)) }
    ensures unloaded { IfErr result (λ status. Unloaded name.now (D.outside desk.old).calls
        (D.outside desk.new).calls status) }
    ensures files { (D.outside desk.new).files ≡ (D.outside desk.old).files }
{
    let mut bytes = Vec::new(alloc);
    match desk.load(name, &mut bytes) {
        Ok(()) => Ok(bytes),
        Err(LoadFault::Failed) => { Err(ending(cfn_report::write_read_fault(desk), Status::Fault)) }
        Err(LoadFault::Memory) => {
            Err(ending(cfn_report::write_memory_fault(desk), Status::NoMemory))
        }
    }
}

/// The network that the bytes of a file read as. An `Err` has said why there is none, and is the status that the run
/// ends with.
pub fn read_bytes<D: Desk>(
    alloc: Global,
    format: Format,
    bytes: &[u8],
    desk: &mut D,
) -> Result<Network, Status>
    ensures reads { IfOk result (λ P. ReadsAs format bytes.now P) }
    ensures same { IfOk result (λ _. D.outside desk.new ≡ D.outside desk.old) }
    ensures unread { IfErr result (λ status. Unread format bytes.now (D.outside desk.old).calls
        (D.outside desk.new).calls status) }
    ensures files { (D.outside desk.new).files ≡ (D.outside desk.old).files }
{
    match read_as(alloc, format, bytes) {
        Ok(network) => Ok(network),
        Err(fault) => Err(say_unread(fault, desk)),
    }
}

/// The network that bytes are in a format.
fn read_as(alloc: Global, format: Format, bytes: &[u8]) -> Result<Network, ReadFault>
    ensures { Gives (λ P. P) result (read_as format bytes.now) }
{
    match format {
        Format::Wcsp => Ok(cfn_wcsp::read(alloc, bytes)?),
        Format::Wcnf => cfn_wcnf::read(alloc, bytes),
    }
}

/// A network, and the text of a certificate for it.
#[derive(Drop)]
pub struct Pair {
    pub network: Network,
    pub text: Vec<u8>,
}

/// Loads a file and a certificate, and reads the network of the file. An `Err` has said what failed first, and is the
/// status that the run ends with.
pub fn load_pair<D: Desk>(
    alloc: Global,
    format: Format,
    file: &str,
    certificate: &str,
    desk: &mut D,
) -> Result<Pair, Status>
    ensures paired { IfOk result (λ pair. Paired format file.now certificate.now (D.outside desk.old)
        pair.network pair.text.items (D.outside desk.new)) }
    ensures unpaired { IfErr result (λ status. Unpaired format file.now certificate.now (D.outside desk.old)
        (D.outside desk.new).calls status) }
    ensures files { (D.outside desk.new).files ≡ (D.outside desk.old).files }
{
    let bytes = load_bytes(alloc, file, desk)?;
    let text = load_bytes(alloc, certificate, desk)?;
    let network = read_bytes(alloc, format, &bytes, desk)?;
    Ok(Pair { network, text })
}

/// Says why bytes are not read as a network.
fn say_unread<D: Desk>(fault: ReadFault, desk: &mut D) -> Status
    ensures ends { SaysUnread fault (D.outside desk.old).calls (D.outside desk.new).calls result }
    ensures files { (D.outside desk.new).files ≡ (D.outside desk.old).files }
{
    match fault {
        ReadFault::Unread(FirstUnread::Header(ordinal)) => ending(
            cfn_report::write_header_fault(ordinal, desk),
            Status::Refused,
        ),
        ReadFault::Unread(FirstUnread::Word(refusal)) => {
            ending(cfn_report::write_refusal(&refusal, desk), Status::Refused)
        }
        ReadFault::Memory => ending(cfn_report::write_memory_fault(desk), Status::NoMemory),
    }
}
