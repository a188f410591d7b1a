//! Tests of records of searches that are written into a file.

ghost use Rattle.std.specs.Prelude.{IfOk};
ghost use Rattle.cfn_model.specs.Text.{IsSpelledBest};
ghost use Rattle.cfn_proof.specs.Certificates.{solution_of};

use crate::given::{split_tree, writing_desk};
use cfn_certwrite::write_record;
use cfn_desk::Failed;
use cfn_proof::{Certificate, Tree};
use cfn_record::{Happened, History};
use std::alloc::{AllocError, Global};
use std::test::Fail;

/// One thing of each kind.
fn history(alloc: Global) -> Result<History, AllocError> {
    let tree = split_tree(alloc)?;
    let mut history = History::new(alloc, 100);
    history.reserve(5)?;
    history.push_reserved(Happened::Took {
        worker: 0,
        want: 2,
        leaf: 0,
        grant: 1,
    });
    history.push_reserved(Happened::Gave {
        worker: 0,
        leaf: 0,
        grant: 1,
        threshold: 9,
        seen: 8,
        tree,
    });
    history.push_reserved(Happened::Freed {
        worker: 3,
        leaf: 2,
        grant: 64,
    });
    history.push_reserved(Happened::CalledBack);
    history.push_reserved(Happened::Swept { seen: 7 });
    Ok(history)
}

/// A certificate of the opening, with no best assignment.
fn certificate(alloc: Global) -> Result<Certificate, AllocError>
    ensures { IfOk result (λ certificate. IsSpelledBest (solution_of certificate.best)) }
{
    Ok(Certificate {
        variables: 1,
        functions: 5,
        upper: 10,
        best: None,
        lower: 0,
        tree: Tree::new(alloc)?,
    })
}

const RECORD: &[u8] = b"wcsprecord 1\nnetwork 1 5 10\nbudget 100\ntake 0 2 0 1\ngive 0 0 1 9 8\n\
    split 0 0\nopen\nopen\nback 3 2 64\nrecall\nsweep 7\nbest none\nend\n";

/// What becomes of the record, and whether the file has its bytes then.
fn written(rt: &HostRuntime, history: &History) -> Result<(Result<(), Failed>, bool), Fail> {
    let certificate = certificate(rt.alloc())?;
    let mut desk = writing_desk(rt, &[])?;
    let answer = write_record(history, &certificate, &mut desk);
    Ok((answer, desk.out_bytes() == RECORD))
}

#[test]
fn writes_each_kind(rt: HostRuntime) -> Result<(), Fail> {
    let history = history(rt.alloc())?;
    assert!(rt; written(&rt, &history)? == (Ok(()), true));
    Ok(())
}
