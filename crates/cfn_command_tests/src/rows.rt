//! Records and certificates of two small networks, byte for byte.

use cfn_app::OpenGate;
use cfn_testing::running::{RecordedRun, TINY, TRI, replay};
use std::alloc::{AllocError, AllocGlobal};
use std::sync::Wait;
use std::test::Fail;
use std::thread::Threads;

/// The record of `TINY` with no nodes.
const UNSEARCHED: &[u8] =
    b"wcsprecord 1\nnetwork 1 1 10\nbudget 0\nsweep 10\nrecall\nsweep 10\nbest none\nend\n";

/// The record of `TINY`, whose root is split, and one leaf closed.
pub(crate) const RECORD: &[u8] =
    b"wcsprecord 1\nnetwork 1 1 10\nbudget 9223372036854775807\nsweep 10\ntake 0 1 0 1\ngive 0 0 1 10 10\np 0 0 0 3\np 0 0 1 1\nu 0 1\nsplit 0 1\nopen\nopen\ntake 0 2048 1 2048\ngive 0 1 2048 1 1\nclosed\nsweep 1\nrecall\nsweep 1\nbest 1\nvalues 1\nend\n";

/// The record of `TRI`.
const TRI_RECORD: &[u8] =
    b"wcsprecord 1\nnetwork 3 3 10\nbudget 9223372036854775807\nsweep 10\ntake 0 1 0 1\ngive 0 0 1 10 10\nsplit 0 0\nopen\nopen\ntake 0 2048 1 2048\ngive 0 1 2048 1 1\np 0 1 0 1\np 1 1 0 1\ne 2 1 0 1\np 2 0 1 1\nu 1 1\nsplit 1 0\np 2 1 0 2\nsplit 2 1\nclosed\nclosed\nclosed\nsweep 1\ntake 0 1024 2 1024\ngive 0 2 1024 1 1\np 0 1 1 1\nv 1 1\np 1 1 1 1\nv 2 1\np 2 0 0 1\nv 1 0\nclosed\nrecall\nsweep 1\nbest 1\nvalues 0 0 1\nend\n";

/// The words of a run that is recorded.
const WORDS: [&str; 6] = ["wcspsolve", "solve", "in", "out", "--record", "rec"];

/// The words of one that makes no node.
const NO_NODES: [&str; 8] = [
    "wcspsolve",
    "solve",
    "in",
    "out",
    "--record",
    "rec",
    "--budget",
    "0",
];

/// Whether a run ends with this status and writes this record, and a replay writes the run's certificate.
fn writes<R: AllocGlobal + Threads + Wait + Sync>(
    rt: &R,
    words: &[&str],
    file: &[u8],
    (status, record): (u8, &[u8]),
) -> Result<bool, AllocError> {
    let run = RecordedRun::of(rt, words, file, &[], &OpenGate)?;
    let again = replay(rt, file, record, &[])?;
    Ok(
        run.status == status
            && run.record() == record
            && again.status == 0
            && again.said() == b"replayed\n".as_slice()
            && again.certificate() == run.certificate(),
    )
}

#[test]
fn a_search_with_no_node_has_this_record(rt: HostRuntime) -> Result<(), Fail> {
    assert!(rt; writes(&rt, &NO_NODES, TINY, (2, UNSEARCHED))?);
    Ok(())
}

#[test]
fn small_networks_have_these_records(rt: HostRuntime) -> Result<(), Fail> {
    assert!(rt; writes(&rt, &WORDS, TINY, (0, RECORD))?);
    assert!(rt; writes(&rt, &WORDS, TRI, (0, TRI_RECORD))?);
    Ok(())
}

/// What the replay of the record with no node writes.
const CERTIFICATE: &[u8] = b"wcspcert 2\nnetwork 1 1 10\nlower 0\nbest none\ntree\nopen\nend\n";

/// How a replay of `TINY` ends, what it says and writes.
fn answers<R: AllocGlobal + Threads + Wait + Sync>(
    rt: &R,
    record: &[u8],
    (status, said, certificate): (u8, &[u8], &[u8]),
) -> Result<bool, AllocError> {
    let run = replay(rt, TINY, record, &[])?;
    Ok(run.status == status && run.said() == said && run.certificate() == certificate)
}

/// The record with no node, with a sweep at 11 in line 6.
const SWEPT_HIGH: &[u8] =
    b"wcsprecord 1\nnetwork 1 1 10\nbudget 0\nsweep 10\nrecall\nsweep 11\nbest none\nend\n";

#[test]
fn a_sweep_above_what_was_seen_is_refused(rt: HostRuntime) -> Result<(), Fail> {
    assert!(rt; answers(&rt, UNSEARCHED, (0, b"replayed\n", CERTIFICATE))?);
    assert!(rt; answers(&rt, SWEPT_HIGH, (7, b"refused seen at 6\n", b""))?);
    Ok(())
}
