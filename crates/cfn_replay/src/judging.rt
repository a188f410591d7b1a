//! The certificate that a record comes to. Whether it is good is the checker's to say, from its text.

ghost use Rattle.std.specs.Prelude.{◌≡◌, Option, IfOk, IfSome, IsTrue, is_some, option_map};
ghost use Rattle.cfn_model.specs.Certificate as certificates;
ghost use Rattle.cfn_model.specs.Certificate.{IsBest, Solution, threshold_of};
ghost use Rattle.cfn_model.specs.Text.{IsSpelled, spelling};
ghost use Rattle.cfn_desk.specs.MemoryDesk.{bytes_of};
ghost use Rattle.cfn_desk.specs.Outside.{written};
ghost use Rattle.cfn_machine.specs.Pool.{Pool, tree_of};
ghost use Rattle.cfn_leaves.specs.Value.{pool_tree};
ghost use Rattle.cfn_proof.specs.Certificates.{certificate_of, solution_of};
ghost use Rattle.cfn_record.specs.Replaying as replaying;
ghost use Rattle.cfn_replay.specs.Doing.{IsHeld};
ghost use Rattle.cfn_replay.specs.Judging.{IsGoodText, IsJudged, TellsBest, is_verified};

use crate::best::Told;
use cfn_certwrite::write;
use cfn_check::{Check, check};
use cfn_desk::{Desk, MemoryDesk, SureDesk};
use cfn_leaves::Leaves;
use cfn_net::{Network, Scored};
use cfn_proof::Certificate;
use std::alloc::{AllocError, Global};

/// The text of the certificate that leaves and the best assignment come to, where it is good. An `Err` is want of memory.
pub(crate) fn judged(
    alloc: Global,
    network: &Network,
    leaves: Leaves,
    told: Told,
) -> Result<Option<Vec<u8>>, AllocError>
    requires held { (pool : Pool) × IsHeld network.now pool leaves }
    requires told { (best : Option Solution) × TellsBest network.now told best }
    ensures { IfOk result (λ judged. (pool : Pool) (best : Option Solution) → IsHeld network.now pool leaves
        → TellsBest network.now told best → IsJudged network.now pool best (option_map (λ text. text.items) judged)) }
{
    network.law_limits();
    let Told::Best(best) = told else {
        return Ok(None);
    };
    let certificate = certificate(alloc, network, leaves, best)?;
    good_text(alloc, network, &certificate)
}

/// The certificate of the leaves' tree: its lower bound is the tree's. An `Err` is want of memory.
fn certificate(
    alloc: Global,
    network: &Network,
    leaves: Leaves,
    best: Option<Scored>,
) -> Result<Certificate, AllocError>
    requires own { leaves.network ≡ network.now }
    requires held { IfSome best (λ scored. IsTrue (is_some scored.held)) }
    requires best { IsBest network.now (solution_of best) }
    ensures is { IfOk result (λ c. certificate_of c
        ≡ replaying.certificate_of network.now (solution_of best) (tree_of (pool_tree leaves))) }
    ensures spelled { IfOk result (λ c. IsSpelled (certificate_of c)) }
{
    network.law_limits();
    let lower = leaves.bound(threshold(network, &best));
    let (mut tree, _) = leaves.finish();
    tree.share(alloc)?;
    tree.law_linked();
    Ok(Certificate {
        variables: network.variables(),
        functions: network.functions(),
        upper: network.ub(),
        best,
        lower,
        tree,
    })
}

/// The cost of the best assignment, or the upper bound where there is none.
fn threshold(network: &Network, best: &Option<Scored>) -> u64
    requires { IfSome best.now (λ scored. IsTrue (is_some scored.held)) }
    ensures { result ≡ threshold_of network.now.upper (solution_of best.now) }
{
    match best {
        Some(scored) => scored.price(),
        None => network.ub(),
    }
}

/// The text of a certificate of a network, where it is good. An `Err` is want of memory.
fn good_text(
    alloc: Global,
    network: &Network,
    certificate: &Certificate,
) -> Result<Option<Vec<u8>>, AllocError>
    requires { IsSpelled (certificate_of certificate.now) }
    ensures { IfOk result (λ text. IsGoodText network.now (certificate_of certificate.now) (option_map (λ t. t.items) text)) }
{
    let room = room(alloc, certificate)?;
    let desk = text(alloc, certificate, room)?;
    let good = good_bytes(alloc, network, desk.out_bytes());
    drop(desk);
    good
}

/// A copy of the text of a certificate of a network, where it is good. An `Err` is want of memory.
fn good_bytes(alloc: Global, network: &Network, bytes: &[u8]) -> Result<Option<Vec<u8>>, AllocError>
    ensures { IfOk result (λ text. (its : certificates.Certificate) → IsSpelled its → bytes.now ≡ spelling its
        → IsGoodText network.now its (option_map (λ t. t.items) text)) }
{
    let answer = check(alloc, network, bytes)?;
    if !is_verified(answer) {
        return Ok(None);
    }
    Ok(Some(Vec::from_slice(alloc, bytes)?))
}

/// How many bytes the text of a certificate has. An `Err` is want of memory.
fn room(alloc: Global, certificate: &Certificate) -> Result<usize, AllocError> {
    let mut desk = SureDesk::make(alloc, &[])?;
    if desk.open_out("certificate").is_err() {
        return Err(AllocError);
    }
    if write(certificate, &mut desk).is_err() {
        return Err(AllocError);
    }
    Ok(desk.put_count() as usize)
}

/// The text of a certificate, in a desk. An `Err` is want of memory or of room.
fn text(alloc: Global, certificate: &Certificate, room: usize) -> Result<MemoryDesk, AllocError>
    ensures { IfOk result (λ desk. bytes_of (written desk.calls) ≡ spelling (certificate_of certificate.now)) }
{
    let mut desk = MemoryDesk::make(alloc, &[], room, 0, &[])?;
    if desk.open_out("certificate").is_err() {
        return Err(AllocError);
    }
    if write(certificate, &mut desk).is_err() {
        return Err(AllocError);
    }
    Ok(desk)
}

/// Whether a certificate was verified.
fn is_verified(answer: Check) -> bool
    ensures { result ≡ is_verified answer }
{
    matches!(answer, Check::Verified { .. })
}
