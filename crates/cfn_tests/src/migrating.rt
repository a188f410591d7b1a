//! What runs of `migrate` write and say.

use cfn_testing::running::{Run, TINY};
use std::alloc::{AllocError, AllocGlobal};
use std::sync::Wait;
use std::test::Fail;
use std::thread::Threads;

/// A good certificate of `TINY`, in the first version, without its first line.
const LINES: &[u8] =
    b"network 1 1 10\nlower 1\nbest 1\nvalues 1\ntree\np 0 0 0 3\np 0 0 1 1\nu 0 1\nclosed\nend\n";

/// A first line, and those lines behind it.
fn certificate<R: AllocGlobal + Threads + Wait + Sync>(
    rt: &R,
    first: &[u8],
    lines: &[u8],
) -> Result<Vec<u8>, AllocError> {
    let mut text = Vec::from_slice(rt.alloc(), first)?;
    text.extend_from_slice(lines)?;
    Ok(text)
}

/// Whether `migrate` of this certificate ends with this status, says this, and leaves these bytes at the name of OUT, or no
/// file where they are none; of these calls each fails.
fn migrates<R: AllocGlobal + Threads + Wait + Sync>(
    rt: &R,
    text: &[u8],
    out: &str,
    failing: &[u64],
    (status, said, written): (u8, Option<&[u8]>, Option<&[u8]>),
) -> Result<bool, AllocError> {
    let files = [("in", TINY), ("cert", text)];
    let words = ["wcspsolve", "migrate", "in", "cert", out];
    let run = Run::over(rt, &words, &files, failing, out)?;
    Ok(run.status == status && said.is_none_or(|said| said == run.said()) && run.file() == written)
}

#[test]
fn first_line_alone_is_another(rt: HostRuntime) -> Result<(), Fail> {
    let written = certificate(&rt, b"wcspcert 2\n", LINES)?;
    let end = (0, Some(b"migrated\n".as_slice()), Some(written.as_slice()));
    for first in [b"wcspcert 1\n".as_slice(), b"wcspcert 2\n".as_slice()] {
        let text = certificate(&rt, first, LINES)?;
        for out in ["out", "cert"] {
            assert!(rt; migrates(&rt, &text, out, &[], end)?);
        }
    }
    Ok(())
}

#[test]
fn refused_certificate_is_not_written(rt: HostRuntime) -> Result<(), Fail> {
    let cut = LINES.strip_suffix(b"end\n").unwrap_or(b"");
    let text = certificate(&rt, b"wcspcert 1\n", cut)?;
    let end = (7, Some(b"refused text at 11\n".as_slice()), None);
    assert!(rt; migrates(&rt, &text, "out", &[], end)?);
    Ok(())
}

const READ: Option<&[u8]> = Some(b"error read\n");

const WRITE: Option<&[u8]> = Some(b"error write\n");

/// The call that fails, the status then, what is said, if that is asked, and whether the file is written.
const CALLS: [(u64, u8, Option<&[u8]>, bool); 9] = [
    (1, 5, READ, false),
    (2, 5, READ, false),
    (3, 5, WRITE, false),
    (4, 5, WRITE, false),
    (5, 5, WRITE, false),
    (6, 5, WRITE, false),
    (7, 5, WRITE, false),
    (8, 5, None, true),
    (9, 0, None, true),
];

/// The loads of both files, the opening, the puts of the first line and of the others, the closing, and the say.
#[test]
fn each_call_may_fail(rt: HostRuntime) -> Result<(), Fail> {
    let text = certificate(&rt, b"wcspcert 1\n", LINES)?;
    let written = certificate(&rt, b"wcspcert 2\n", LINES)?;
    for (call, status, said, is_left) in CALLS {
        assert!(rt;
            migrates(
                &rt,
                &text,
                "out",
                &[call],
                (status, said, is_left.then_some(&written))
            )?,
            "at {call}"
        );
    }
    Ok(())
}
