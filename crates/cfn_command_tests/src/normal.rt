//! What runs of `normal` say.

use cfn_testing::running::{Run, TINY, TRI};
use std::alloc::{AllocError, AllocGlobal};
use std::sync::Wait;
use std::test::Fail;
use std::thread::Threads;

/// The run of `normal in`, where these calls fail.
fn normal<R: AllocGlobal + Threads + Wait + Sync>(
    rt: &R,
    file: &[u8],
    failing: &[u64],
) -> Result<Run, AllocError> {
    Run::of(rt, &["wcspsolve", "normal", "in"], file, failing)
}

/// Whether `normal` says this text of a file, and of that text the same.
fn is_normal<R: AllocGlobal + Threads + Wait + Sync>(
    rt: &R,
    file: &[u8],
    text: &[u8],
) -> Result<bool, AllocError> {
    let first = normal(rt, file, &[])?;
    let second = normal(rt, first.said(), &[])?;
    Ok(first.status == 0 && first.said() == text && second.status == 0 && second.said() == text)
}

/// Whether `normal` refuses a file and says so.
fn is_refused<R: AllocGlobal + Threads + Wait + Sync>(
    rt: &R,
    file: &[u8],
    said: &[u8],
) -> Result<bool, AllocError> {
    let run = normal(rt, file, &[])?;
    Ok(run.status == 4 && run.said() == said)
}

#[test]
fn last_listing_counts(rt: HostRuntime) -> Result<(), Fail> {
    let file = b"twice 1 2 1 100\n2\n1 0 9 2\n0 5\n0 2\n";
    assert!(rt; is_normal(&rt, file, b"twice 1 2 1 100\n2\n1 0 9 1\n0 2\n")?);
    assert!(rt; is_normal(&rt, TRI, TRI)?);
    Ok(())
}

/// White space, leading zeros and what follows the last function are not said, and the greatest size is the file's own.
#[test]
fn words_alone_count(rt: HostRuntime) -> Result<(), Fail> {
    let file = b"\t loose 2 0009 1\r\n0100 3 0002 1 1 0 3 1 7 0 7 1 8 and more";
    assert!(rt; is_normal(&rt, file, b"loose 2 3 1 100\n3 2\n1 1 0 2\n0 7\n1 8\n")?);
    Ok(())
}

/// A function of arity 0 has a line of its entry where that is not its default, and costs end at the upper bound.
#[test]
fn constants_have_a_line_of_their_own(rt: HostRuntime) -> Result<(), Fail> {
    let file = b"const 1 2 3 10\n2\n0 4 0\n0 4 2\n4\n12\n0 11 1\n10\n";
    assert!(rt; is_normal(&rt, file, b"const 1 2 3 10\n2\n0 4 0\n0 4 1\n10\n0 10 0\n")?);
    Ok(())
}

#[test]
fn refusals_are_those_of_the_other_commands(rt: HostRuntime) -> Result<(), Fail> {
    assert!(rt; is_refused(&rt, b"tiny 1 2 1 10\n2\n1 0 3 1\n1", b"error short at 12\n")?);
    assert!(rt; is_refused(&rt, b"", b"error short at 1\n")?);
    assert!(rt;
        is_refused(
            &rt,
            b"rep 2 2 1 10\n2 2\n2 0 0 0 0\n",
            b"error repeated-variable at 10\n"
        )?
    );
    assert!(rt; is_refused(&rt, b"int 1 3 0 10\n-3\n", b"error interval-domain at 6\n")?);
    assert!(rt;
        is_refused(
            &rt,
            b"wide 2 4096 1 10\n4096 4096\n2 0 1 0 0\n",
            b"error table-too-wide at 10\n"
        )?
    );
    assert!(rt;
        is_refused(
            &rt,
            b"tiny 1 x 1 10\n2\n1 0 3 1\n1 1\n",
            b"error not-number at 3\n"
        )?
    );
    assert!(rt;
        is_refused(
            &rt,
            b"tiny 1 2 1 9223372036854775808\n2\n1 0 3 1\n1 1\n",
            b"error too-large at 5\n"
        )?
    );
    Ok(())
}

/// The two calls are the load and one say.
#[test]
fn each_call_may_fail(rt: HostRuntime) -> Result<(), Fail> {
    let run = normal(&rt, TINY, &[1])?;
    assert!(rt; run.status == 5);
    assert!(rt; run.said() == b"error read\n".as_slice());
    let run = normal(&rt, TINY, &[2])?;
    assert!(rt; run.status == 5);
    assert!(rt; run.said() == b"".as_slice());
    let run = normal(&rt, TINY, &[3])?;
    assert!(rt; run.status == 0);
    assert!(rt; run.said() == TINY);
    Ok(())
}

/// A wcnf file, with a comment between the words of a clause, and its network.
const WCNF: &[u8] = b"c three clauses\np wcnf 2 3 10\n10 1 2 0\n3 -1\nc 1 2 3\n0\n4 -2 0\n";

/// The same network as a file of its own.
const WCSP: &[u8] = b"wcnf 2 2 3 10\n2 2\n2 0 1 0 1\n0 0 10\n1 0 0 1\n1 3\n1 1 0 1\n1 4\n";

/// Whether `normal --wcnf` ends with this status and says this of a file.
fn wcnf_answers<R: AllocGlobal + Threads + Wait + Sync>(
    rt: &R,
    file: &[u8],
    status: u8,
    said: &[u8],
) -> Result<bool, AllocError> {
    let run = Run::of(rt, &["wcspsolve", "normal", "--wcnf", "in"], file, &[])?;
    Ok(run.status == status && run.said() == said)
}

#[test]
fn wcnf_is_said_as_wcsp(rt: HostRuntime) -> Result<(), Fail> {
    assert!(rt; wcnf_answers(&rt, WCNF, 0, WCSP)?);
    assert!(rt; is_normal(&rt, WCSP, WCSP)?);
    Ok(())
}

#[test]
fn wcnf_is_refused(rt: HostRuntime) -> Result<(), Fail> {
    let header = b"p cnf 2 3 10\n10 1 2 0\n";
    assert!(rt; wcnf_answers(&rt, header, 4, b"error header at 2\n")?);
    let literal = b"p wcnf 2 3 10\n10 1 3 0\n";
    assert!(rt; wcnf_answers(&rt, literal, 4, b"error variable-out-of-range at 8\n")?);
    Ok(())
}
