//! Tests of what is said of records that are replayed.

use cfn_certwrite::{write_record_refused, write_replayed};
use cfn_desk::MemoryDesk;
use cfn_record::RecordFault;
use std::alloc::AllocError;
use std::test::Fail;

/// Whether these bytes are said of a record that is refused so.
fn refuses(
    rt: &HostRuntime,
    kind: RecordFault,
    line: u64,
    bytes: &[u8],
) -> Result<bool, AllocError> {
    let mut desk = MemoryDesk::make(rt.alloc(), &[], 0, 64, &[])?;
    Ok(write_record_refused(kind, line, &mut desk).is_ok() && desk.said_bytes() == bytes)
}

/// Whether these bytes are said of a record that was replayed.
fn replays(rt: &HostRuntime, bytes: &[u8]) -> Result<bool, AllocError> {
    let mut desk = MemoryDesk::make(rt.alloc(), &[], 0, 64, &[])?;
    Ok(write_replayed(&mut desk).is_ok() && desk.said_bytes() == bytes)
}

const REFUSALS: [(RecordFault, u64, &[u8]); 7] = [
    (RecordFault::Text, 1, b"refused text at 1\n"),
    (RecordFault::Network, 2, b"refused network at 2\n"),
    (RecordFault::Take, 4, b"refused take at 4\n"),
    (RecordFault::Give, 5, b"refused give at 5\n"),
    (RecordFault::Back, 12, b"refused back at 12\n"),
    (RecordFault::Seen, 6, b"refused seen at 6\n"),
    (
        RecordFault::Certificate,
        18_446_744_073_709_551_615,
        b"refused certificate at 18446744073709551615\n",
    ),
];

#[test]
fn says_each_refusal(rt: HostRuntime) -> Result<(), Fail> {
    for (kind, line, bytes) in REFUSALS {
        assert!(rt; refuses(&rt, kind, line, bytes)?, "{kind:?}");
    }
    Ok(())
}

#[test]
fn says_that_a_record_was_replayed(rt: HostRuntime) -> Result<(), Fail> {
    assert!(rt; replays(&rt, b"replayed\n")?);
    Ok(())
}
