//! The command `merge`.

ghost use Rattle.std.specs.Prelude.{◌≡◌, ◌+◌, ◌<◌, ℕ, length, map, string_bytes, IfOk, IfErr};
ghost use Rattle.cfn_model.specs.Certificate.{IsBest};
ghost use Rattle.cfn_model.specs.Text.{spelling};
ghost use Rattle.cfn_check.specs.Checking.{cost_of};
ghost use Rattle.cfn_desk.specs.Outside.{IsIdle, IsWriting};
ghost use Rattle.cfn_proof.specs.Certificates.{certificate_of};
ghost use Rattle.cfn_report.specs.Texts.{merged_text};
ghost use Rattle.cfn_cli.specs.Request.Merging.{IsMergeWithin, spoken_merge};
ghost use Rattle.cfn_app.specs.declared.status.Status.TheVariants.{Done};
ghost use Rattle.cfn_app.specs.Endings.{Outputs};
ghost use Rattle.cfn_app.specs.Merging.{Joins, Takes};
ghost use Rattle.cfn_app.specs.Runs.Merging.{AllTaken, Merges, MergesInto, NotAllTaken, NotTaken, Writes};

use crate::loading::{load_bytes, read_bytes};
use crate::output::save;
use crate::status::{Status, ending};
use cfn_cli::commands::MergeArguments;
use cfn_desk::Desk;
use cfn_merge::{Findings, Judged, certificate, join_findings, judge};
use cfn_net::Network;
use cfn_proof::Certificate;
use std::alloc::{AllocError, Global};

/// Loads and reads the file that is asked for, and then loads, judges and joins one certificate after another; and writes what they
/// come to. The first fault decides, and nothing is written where there is one. A certificate is let go once it is joined.
pub fn merge_files<D: Desk>(alloc: Global, ask: &MergeArguments, desk: &mut D) -> Status
    requires idle { IsIdle (D.outside desk.old).calls }
    requires some { IsMergeWithin ask.now }
    ensures { Merges (spoken_merge ask.now) (D.outside desk.old) (D.outside desk.new) result }
{
    let bytes = match load_bytes(alloc, ask.file.as_str(), desk) {
        Ok(bytes) => bytes,
        Err(status) => return status,
    };
    match read_bytes(alloc, ask.format, &bytes, desk) {
        Ok(network) => merge_into(alloc, &network, &ask.certificates, ask.out.as_str(), desk),
        Err(status) => status,
    }
}

/// Merges the certificates of these names into a new file.
fn merge_into<D: Desk>(
    alloc: Global,
    network: &Network,
    names: &[String],
    out: &str,
    desk: &mut D,
) -> Status
    requires idle { IsIdle (D.outside desk.old).calls }
    requires some { 0 < length names.now }
    ensures { MergesInto network.now (map (λ name. string_bytes name) names.now) out.now (D.outside desk.old) (D.outside desk.new) result }
{
    match take_all(alloc, network, names, desk) {
        Ok(merged) => write_merged(&merged, out, desk),
        Err(status) => status,
    }
}

/// What the certificates of these names come to. An `Err` has said why there is nothing, and is the status that the run ends with.
fn take_all<D: Desk>(
    alloc: Global,
    network: &Network,
    names: &[String],
    desk: &mut D,
) -> Result<Certificate, Status>
    requires some { 0 < length names.now }
    ensures taken { IfOk result (λ c. AllTaken network.now (map (λ name. string_bytes name) names.now) (D.outside desk.old) (certificate_of c) (D.outside desk.new)) }
    ensures untaken { IfErr result (λ status. NotAllTaken network.now (map (λ name. string_bytes name) names.now) (D.outside desk.old) (D.outside desk.new).calls status) }
    ensures files { (D.outside desk.new).files ≡ (D.outside desk.old).files }
{
    network.law_limits();
    let mut found = take(alloc, network, names[0].as_str(), 1, desk)?;
    for i in 1..names.len() {
        found = take_next(alloc, network, found, names[i].as_str(), i as u64 + 1, desk)?;
    }
    match certificate(alloc, network, found) {
        Ok(merged) => Ok(merged),
        Err(AllocError) => Err(ending(cfn_report::write_memory_fault(desk), Status::NoMemory)),
    }
}

/// What was found so far, joined with what the certificate of a name has found, which is the one of a number.
fn take_next<D: Desk>(
    alloc: Global,
    network: &Network,
    found: Findings,
    name: &str,
    number: u64,
    desk: &mut D,
) -> Result<Findings, Status>
    requires own { found.best.network ≡ network.now }
    requires best { IsBest network.now found.best.held }
    ensures joined { IfOk result (λ joined. Joins network.now name.now found joined (D.outside desk.old) (D.outside desk.new)) }
    ensures untaken { IfErr result (λ status. NotTaken network.now name.now number (D.outside desk.old) (D.outside desk.new).calls status) }
    ensures files { (D.outside desk.new).files ≡ (D.outside desk.old).files }
{
    let next = take(alloc, network, name, number, desk)?;
    match join_findings(alloc, found, next) {
        Ok(joined) => Ok(joined),
        Err(AllocError) => Err(ending(cfn_report::write_memory_fault(desk), Status::NoMemory)),
    }
}

/// Loads the certificate of a name, the one of a number, judges it, and gives what it has found where it is good. An `Err` has said
/// why there is nothing, and is the status that the run ends with.
fn take<D: Desk>(
    alloc: Global,
    network: &Network,
    name: &str,
    number: u64,
    desk: &mut D,
) -> Result<Findings, Status>
    ensures taken { IfOk result (λ found. Takes network.now name.now found (D.outside desk.old) (D.outside desk.new)) }
    ensures untaken { IfErr result (λ status. NotTaken network.now name.now number (D.outside desk.old) (D.outside desk.new).calls status) }
    ensures files { (D.outside desk.new).files ≡ (D.outside desk.old).files }
{
    network.law_limits();
    let text = load_bytes(alloc, name, desk)?;
    match judge(alloc, network, &text) {
        Ok(Judged::Good(found)) => Ok(found),
        Ok(Judged::Refused { kind, line }) => {
            Err(ending(
                cfn_report::write_refused_in(kind, line, number, desk),
                Status::Disproved,
            ))
        }
        Err(AllocError) => Err(ending(cfn_report::write_memory_fault(desk), Status::NoMemory)),
    }
}

/// Writes what certificates come to into a new file.
fn write_merged<D: Desk>(merged: &Certificate, out: &str, desk: &mut D) -> Status
    requires { IsIdle (D.outside desk.old).calls }
    ensures { Writes (certificate_of merged.now) out.now (D.outside desk.old) (D.outside desk.new) result }
{
    if desk.open_out(out).is_err() {
        return ending(cfn_report::write_write_fault(desk), Status::Fault);
    }
    put_merged(merged, desk)
}

/// Writes what certificates come to into the file that was opened, and then says its bounds. It takes no memory.
fn put_merged<D: Desk>(merged: &Certificate, desk: &mut D) -> Status
    requires { IsWriting (D.outside desk.old).calls }
    ensures { Outputs (spelling (certificate_of merged.now)) (merged_text (certificate_of merged.now).lower (cost_of (certificate_of merged.now).best)) Done
        (D.outside desk.old) (D.outside desk.new) result }
{
    if save(merged, desk).is_err() {
        return ending(cfn_report::write_write_fault(desk), Status::Fault);
    }
    ending(
        cfn_report::write_merged(merged.lower, best_cost(merged), desk),
        Status::Done,
    )
}

/// The cost of a certificate's best assignment, if there is one.
fn best_cost(certificate: &Certificate) -> Option<u64>
    ensures { result ≡ cost_of (certificate_of certificate.now).best }
{
    match &certificate.best {
        Some(best) => Some(best.price()),
        None => None,
    }
}
