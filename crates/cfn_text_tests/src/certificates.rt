//! Tests of certificates that are written into a file.

use crate::given::{best, network, writing_desk};
use cfn_certwrite::write;
use cfn_desk::{Desk, Failed};
use cfn_proof::{Block, Certificate, Decision, Step, Tree};
use std::alloc::AllocError;
use std::test::Fail;

/// A certificate of one open root.
fn bare_certificate(rt: &HostRuntime) -> Result<Certificate, AllocError> {
    Ok(Certificate {
        variables: 1,
        functions: 1,
        upper: 10,
        best: None,
        lower: 4,
        tree: Tree::new(rt.alloc())?,
    })
}

const BARE: &[u8] = b"wcspcert 2\nnetwork 1 1 10\nlower 4\nbest none\ntree\nopen\nend\n";

/// The words of that text.
const BARE_WORDS: u64 = 13;

/// What becomes of a certificate that is written where these calls fail, and whether the file has these bytes then.
fn write_into_file(
    rt: &HostRuntime,
    certificate: &Certificate,
    failing: &[u64],
    bytes: &[u8],
) -> Result<(Result<(), Failed>, bool), Fail> {
    let mut desk = writing_desk(rt, failing)?;
    let answer = write(certificate, &mut desk);
    Ok((answer, desk.out_bytes() == bytes))
}

#[test]
fn writes_an_open_root(rt: HostRuntime) -> Result<(), Fail> {
    let certificate = bare_certificate(&rt)?;
    assert!(rt; write_into_file(&rt, &certificate, &[], BARE)? == (Ok(()), true));
    Ok(())
}

/// Whether a certificate is not written where this call fails, and the file has no bytes then, and is dropped.
fn is_dropped(rt: &HostRuntime, certificate: &Certificate, failing: u64) -> Result<bool, Fail> {
    let mut desk = writing_desk(rt, &[failing])?;
    match write(certificate, &mut desk) {
        Ok(()) => Ok(false),
        Err(Failed) => {
            let left = desk.out_bytes().len();
            // the file can only be dropped
            desk.discard_out();
            Ok(left == 0)
        }
    }
}

#[test]
fn stops_at_each_put(rt: HostRuntime) -> Result<(), Fail> {
    let certificate = bare_certificate(&rt)?;
    for words in 0..BARE_WORDS {
        assert!(rt; is_dropped(&rt, &certificate, words + 2)?);
    }
    let failing = [BARE_WORDS + 2];
    assert!(rt; write_into_file(&rt, &certificate, &failing, BARE)? == (Ok(()), true));
    Ok(())
}

/// A split by a value, whose first side is closed behind steps of all five kinds, and whose second is a split by a
/// bound.
fn split_tree(rt: &HostRuntime) -> Result<Tree, AllocError> {
    let steps = [
        Step::Project {
            function: 0,
            place: 1,
            value: 0,
            amount: 5,
        },
        Step::Extend {
            function: 1,
            place: 0,
            value: 1,
            amount: 2,
        },
        Step::Lift {
            variable: 1,
            amount: 3,
        },
        Step::CutValue {
            variable: 0,
            value: 1,
        },
        Step::CutTuple {
            function: 0,
            cell: 3,
        },
    ];
    let block = Block::of(rt.alloc(), &steps)?;
    let mut tree = Tree::new(rt.alloc())?;
    let by_value = Decision::Is {
        variable: 0,
        value: 1,
    };
    let by_bound = Decision::Most {
        variable: 1,
        value: 0,
    };
    let (first, second) = tree.split(Tree::ROOT, by_value)?;
    tree.close(first, block);
    tree.split(second, by_bound)?;
    Ok(tree)
}

const FULL: &[u8] = b"wcspcert 2\nnetwork 2 1 10\nlower 0\nbest 5\nvalues 1 0\ntree\nsplit 0 1\n\
    p 0 1 0 5\ne 1 0 1 2\nu 1 3\nv 0 1\nt 0 3\nclosed\npart 1 0\nopen\nopen\nend\n";

/// A certificate with that tree.
fn full_certificate(rt: &HostRuntime) -> Result<Certificate, AllocError> {
    let network = network(rt)?;
    let best = best(rt, &network)?;
    Ok(Certificate {
        variables: network.variables(),
        functions: network.functions(),
        upper: network.ub(),
        best: Some(best),
        lower: 0,
        tree: split_tree(rt)?,
    })
}

#[test]
fn writes_a_best_and_splits(rt: HostRuntime) -> Result<(), Fail> {
    let certificate = full_certificate(&rt)?;
    assert!(rt; write_into_file(&rt, &certificate, &[], FULL)? == (Ok(()), true));
    Ok(())
}
