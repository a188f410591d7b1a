//! What runs of `check` say of certificates: good ones, ones that differ from a good one by a line, and hostile ones.

use cfn_testing::running::{Run, TINY, TRI, check_answers};
use std::alloc::{AllocError, AllocGlobal, Global};
use std::sync::Wait;
use std::test::Fail;
use std::thread::Threads;

/// A good certificate of `TINY`, one line each.
const GOOD: [&str; 10] = [
    "wcspcert 1",
    "network 1 1 10",
    "lower 1",
    "best 1",
    "values 1",
    "tree",
    "p 0 0 0 3",
    "p 0 0 1 1",
    "u 0 1",
    "closed",
];

/// Lines, each with its end, and `end` behind them.
fn text_of(alloc: Global, lines: &[&str]) -> Result<Vec<u8>, AllocError> {
    let mut text = Vec::new(alloc);
    for line in lines {
        add_line(&mut text, line)?;
    }
    add_line(&mut text, "end")?;
    Ok(text)
}

/// Adds a line with its end.
fn add_line(text: &mut Vec<u8>, line: &str) -> Result<(), AllocError> {
    text.extend_from_slice(line.as_bytes())?;
    text.push(b'\n')?;
    Ok(())
}

/// The good certificate with other lines in the place of those from `from` on, `taken` of them.
fn changed(
    alloc: Global,
    from: usize,
    taken: usize,
    lines: &[&str],
) -> Result<Vec<u8>, AllocError> {
    let front = from.saturating_sub(1);
    let mut text = Vec::new(alloc);
    for line in GOOD.iter().take(front) {
        add_line(&mut text, line)?;
    }
    for line in lines {
        add_line(&mut text, line)?;
    }
    for line in GOOD.iter().skip(front.saturating_add(taken)) {
        add_line(&mut text, line)?;
    }
    add_line(&mut text, "end")?;
    Ok(text)
}

/// One line or some of a good certificate changed: the line from which on, how many lines are left out there, the lines
/// in their place, and what is said.
const CHANGES: [(usize, usize, &[&str], &[u8]); 37] = [
    (1, 0, &[], b"verified lower 1 best 1\n"),
    (3, 1, &["lower 0"], b"verified lower 0 best 1\n"),
    // a text is at fault where its first line that follows no certificate is
    (1, 1, &["wcspcert 2"], b"verified lower 1 best 1\n"),
    (1, 1, &["wcspcert 3"], b"refused text at 1\n"),
    (2, 1, &["network 1 1  10"], b"refused text at 2\n"),
    (3, 1, &["lower 01"], b"refused text at 3\n"),
    (3, 1, &["lower 1\r"], b"refused text at 3\n"),
    (
        7,
        1,
        &["p 0 0 0 9223372036854775808"],
        b"refused text at 7\n",
    ),
    (7, 1, &["p 0 0 0 0"], b"refused text at 7\n"),
    (10, 0, &["open"], b"refused text at 11\n"),
    (10, 1, &[], b"refused text at 10\n"),
    // the network's numbers
    (2, 1, &["network 1 1 9"], b"refused network at 2\n"),
    (2, 1, &["network 2 1 10"], b"refused network at 2\n"),
    (2, 1, &["network 1 0 10"], b"refused network at 2\n"),
    // the best assignment
    (4, 1, &["best 10"], b"refused best at 4\n"),
    (4, 1, &["best 2"], b"refused best at 5\n"),
    (5, 1, &["values 0"], b"refused best at 5\n"),
    (5, 1, &["values 1 1"], b"refused best at 5\n"),
    (5, 1, &["values 2"], b"refused best at 5\n"),
    // steps
    (7, 1, &["p 1 0 0 3"], b"refused range at 7\n"),
    (7, 1, &["p 0 1 0 3"], b"refused range at 7\n"),
    (7, 1, &["p 0 0 4294967296 3"], b"refused range at 7\n"),
    (
        10,
        1,
        &["split 0 2", "closed", "closed"],
        b"refused range at 10\n",
    ),
    (7, 1, &["p 0 0 0 4"], b"refused project at 7\n"),
    (8, 1, &["p 0 0 1 2"], b"refused project at 8\n"),
    (7, 0, &["e 0 0 1 1"], b"refused extend at 7\n"),
    (8, 0, &["e 0 0 0 4"], b"refused extend at 8\n"),
    (
        8,
        0,
        &["e 0 0 0 3", "p 0 0 0 3"],
        b"verified lower 1 best 1\n",
    ),
    (9, 1, &["u 0 2"], b"refused lift at 9\n"),
    (7, 0, &["u 0 1"], b"refused lift at 7\n"),
    (7, 0, &["v 0 0"], b"refused cut at 7\n"),
    (9, 0, &["t 0 1"], b"refused cut at 9\n"),
    (7, 0, &["t 0 0"], b"verified lower 1 best 1\n"),
    (7, 0, &["t 0 2"], b"refused range at 7\n"),
    // the leaf and the lower bound
    (9, 1, &[], b"refused close at 9\n"),
    (7, 0, &["closed"], b"refused close at 7\n"),
    (3, 1, &["lower 2"], b"refused lower at 3\n"),
];

/// Whether a certificate of `TINY`, the good one changed at a line, is answered so.
fn changed_answers<R: AllocGlobal + Threads + Wait + Sync>(
    rt: &R,
    from: usize,
    taken: usize,
    lines: &[&str],
    said: &[u8],
) -> Result<bool, AllocError> {
    let certificate = changed(rt.alloc(), from, taken, lines)?;
    let status = if said.starts_with(b"verified") { 0 } else { 7 };
    check_answers(rt, TINY, certificate.as_slice(), status, said)
}

#[test]
fn changed_lines_are_named(rt: HostRuntime) -> Result<(), Fail> {
    for (from, taken, lines, said) in CHANGES {
        assert!(rt;
            changed_answers(&rt, from, taken, lines, said)?,
            "at {from}"
        );
    }
    Ok(())
}

/// An open leaf bounds the lower bound by its floor, and a cut or a lift stands for the subtree below it alone.
const SUBTREES: [(&[&str], &[u8]); 4] = [
    (&["open"], b"refused lower at 3\n"),
    (
        &["p 0 0 0 3", "p 0 0 1 1", "u 0 1", "open"],
        b"verified lower 1 best 1\n",
    ),
    (
        &["split 0 1", "p 0 0 1 1", "u 0 1", "closed", "closed"],
        b"refused close at 11\n",
    ),
    (
        &[
            "split 0 1",
            "p 0 0 1 1",
            "u 0 1",
            "closed",
            "p 0 0 0 3",
            "u 0 3",
            "closed",
        ],
        b"verified lower 1 best 1\n",
    ),
];

#[test]
fn open_leaves_and_subtrees(rt: HostRuntime) -> Result<(), Fail> {
    for (lines, said) in SUBTREES {
        assert!(rt; changed_answers(&rt, 7, 4, lines, said)?);
    }
    Ok(())
}

/// A certificate of `TINY` with one split by a bound.
const PART: [&str; 13] = [
    "wcspcert 2",
    "network 1 1 10",
    "lower 1",
    "best 1",
    "values 1",
    "tree",
    "part 0 0",
    "p 0 0 0 3",
    "u 0 3",
    "closed",
    "p 0 0 1 1",
    "u 0 1",
    "closed",
];

/// Whether that certificate with another line in the place of one is answered so.
fn part_answers<R: AllocGlobal + Threads + Wait + Sync>(
    rt: &R,
    place: usize,
    line: &str,
    said: &[u8],
) -> Result<bool, AllocError> {
    let mut certificate = Vec::new(rt.alloc());
    for (before, other) in PART.iter().enumerate() {
        if before.saturating_add(1) == place {
            add_line(&mut certificate, line)?;
        } else {
            add_line(&mut certificate, other)?;
        }
    }
    add_line(&mut certificate, "end")?;
    let status = if said.starts_with(b"verified") { 0 } else { 7 };
    check_answers(rt, TINY, certificate.as_slice(), status, said)
}

#[test]
fn splits_by_a_bound(rt: HostRuntime) -> Result<(), Fail> {
    let changes: [(usize, &str, &[u8]); 9] = [
        (1, "wcspcert 2", b"verified lower 1 best 1\n"),
        // the first version has none
        (1, "wcspcert 1", b"refused text at 7\n"),
        (7, "part 0", b"refused text at 7\n"),
        (7, "part 0 0 0", b"refused text at 7\n"),
        (7, "part 0 2", b"refused range at 7\n"),
        (7, "part 1 0", b"refused range at 7\n"),
        // the bound itself is on the first side, and so is each lesser value
        (7, "part 0 1", b"refused lift at 9\n"),
        (7, "split 0 0", b"verified lower 1 best 1\n"),
        (7, "split 0 1", b"refused lift at 9\n"),
    ];
    for (place, line, said) in changes {
        assert!(rt; part_answers(&rt, place, line, said)?, "{line}");
    }
    Ok(())
}

/// A good certificate of `TRI` with one split, line by line.
const OF_TRI: [&str; 20] = [
    "wcspcert 1",
    "network 3 3 10",
    "lower 1",
    "best 1",
    "values 0 0 1",
    "tree",
    "split 0 0",
    "p 0 1 0 1",
    "v 1 0",
    "p 1 1 0 1",
    "v 2 0",
    "p 2 0 1 1",
    "u 1 1",
    "closed",
    "p 0 1 1 1",
    "v 1 1",
    "p 1 1 1 1",
    "v 2 1",
    "p 2 0 0 1",
    "u 1 1",
];

/// Whether the first lines of the certificate of `TRI`, with one line more, are answered so.
fn tri_answers<R: AllocGlobal + Threads + Wait + Sync>(
    rt: &R,
    length: usize,
    more: &[&str],
    status: u8,
    said: &[u8],
) -> Result<bool, AllocError> {
    let mut text = Vec::new(rt.alloc());
    for line in OF_TRI.iter().take(length) {
        add_line(&mut text, line)?;
    }
    for line in more {
        add_line(&mut text, line)?;
    }
    add_line(&mut text, "end")?;
    check_answers(rt, TRI, text.as_slice(), status, said)
}

#[test]
fn split_needs_both_sides(rt: HostRuntime) -> Result<(), Fail> {
    assert!(rt; tri_answers(&rt, 20, &["closed"], 0, b"verified lower 1 best 1\n")?);
    assert!(rt; tri_answers(&rt, 14, &[], 7, b"refused text at 15\n")?);
    Ok(())
}

/// Every front of a certificate that lacks a byte is refused in its grammar, at its last line or the missing one.
#[test]
fn fronts_of_a_certificate_are_refused(rt: HostRuntime) -> Result<(), Fail> {
    let whole = text_of(rt.alloc(), &GOOD)?;
    let mut lines: u8 = 1;
    for (length, byte) in whole.as_slice().iter().enumerate() {
        let said = text_fault(rt.alloc(), lines)?;
        let front = &whole.as_slice()[..length];
        assert!(rt;
            check_answers(&rt, TINY, front, 7, said.as_slice())?,
            "at {length}"
        );
        if *byte == b'\n' {
            lines = lines.saturating_add(1);
        }
    }
    Ok(())
}

#[test]
fn bytes_behind_the_end_are_a_line(rt: HostRuntime) -> Result<(), Fail> {
    let mut more = text_of(rt.alloc(), &GOOD)?;
    more.push(b'x')?;
    assert!(rt; check_answers(&rt, TINY, more.as_slice(), 7, b"refused text at 12\n")?);
    Ok(())
}

/// What is said of a line that does not follow the grammar. Its number has one digit or two.
fn text_fault(alloc: Global, line: u8) -> Result<Vec<u8>, AllocError> {
    let mut said = Vec::new(alloc);
    said.extend_from_slice(b"refused text at ")?;
    if line > 9 {
        said.push(b'1')?;
    }
    said.push(b'0' + line % 10)?;
    said.push(b'\n')?;
    Ok(said)
}

/// Depth is bounded by the text alone: 100,000 splits within each other, with all their leaves, and with one too few.
#[test]
fn deep_certificates(rt: HostRuntime) -> Result<(), Fail> {
    let whole = b"verified lower 0 best none\n";
    assert!(rt; deep_answers(&rt, 100_001, 0, whole)?);
    assert!(rt; deep_answers(&rt, 100_000, 7, b"refused text at 200006\n")?);
    Ok(())
}

/// Whether a certificate of 100,000 splits with so many leaves is answered so.
fn deep_answers<R: AllocGlobal + Threads + Wait + Sync>(
    rt: &R,
    leaves: usize,
    status: u8,
    said: &[u8],
) -> Result<bool, AllocError> {
    let deep = deep_certificate(rt.alloc(), 100_000, leaves)?;
    check_answers(rt, TINY, deep.as_slice(), status, said)
}

/// Sums go beyond 2^64, and below 0 where a value is not live.
const SUMS: [(&[&str], &[u8]); 2] = [
    (
        &[
            "p 0 0 0 3",
            "v 0 0",
            "e 0 0 0 9223372036854775807",
            "p 0 0 1 1",
            "u 0 1",
            "closed",
        ],
        b"verified lower 1 best 1\n",
    ),
    (
        &[
            "p 0 0 0 3",
            "v 0 0",
            "e 0 0 0 9223372036854775807",
            "v 0 0",
            "p 0 0 1 1",
            "u 0 1",
            "closed",
        ],
        b"refused cut at 10\n",
    ),
];

/// A good certificate of a network without a solution, whose sums go beyond 2^64.
const LARGE: &[u8] = b"wcspcert 1\nnetwork 2 1 5\nlower 5\nbest none\ntree\n\
    p 0 0 0 9223372036854775807\np 0 0 0 9223372036854775807\np 0 0 0 9223372036854775807\n\
    p 0 0 1 9223372036854775807\np 0 0 1 9223372036854775807\np 0 0 1 9223372036854775807\n\
    u 0 9223372036854775807\nu 0 9223372036854775807\nu 0 9223372036854775807\nclosed\nend\n";

#[test]
fn large_and_negative_sums(rt: HostRuntime) -> Result<(), Fail> {
    for (lines, said) in SUMS {
        assert!(rt; changed_answers(&rt, 7, 4, lines, said)?);
    }
    let hard = b"hard 2 2 1 5\n2 2\n2 0 1 5 0\n";
    assert!(rt; check_answers(&rt, hard, LARGE, 0, b"verified lower 5 best none\n")?);
    Ok(())
}

/// A certificate of nested splits, each behind the one before it, and then open leaves.
fn deep_certificate(alloc: Global, splits: usize, leaves: usize) -> Result<Vec<u8>, AllocError> {
    let mut text = Vec::new(alloc);
    text.extend_from_slice(b"wcspcert 1\nnetwork 1 1 10\nlower 0\nbest none\ntree\n")?;
    for _split in 0..splits {
        text.extend_from_slice(b"split 0 0\n")?;
    }
    for _leaf in 0..leaves {
        text.extend_from_slice(b"open\n")?;
    }
    text.extend_from_slice(b"end\n")?;
    Ok(text)
}

/// Both files are loaded before the first is read, and the certificate is judged last.
#[test]
fn first_fault_of_two_files(rt: HostRuntime) -> Result<(), Fail> {
    let rows: [(&str, &[u8], &[u64], u8, &[u8]); 4] = [
        ("nowhere", b"", &[], 5, b"error read\n"),
        ("in", b"", &[], 4, b"error short at 1\n"),
        ("in", TINY, &[], 7, b"refused text at 1\n"),
        ("in", TINY, &[3], 5, b""),
    ];
    for (certificate, file, failing, status, said) in rows {
        let words = ["wcspsolve", "check", "in", certificate];
        let run_of = Run::of(&rt, &words, file, failing)?;
        assert!(rt; run_of.status == status);
        assert!(rt; run_of.said() == said);
    }
    Ok(())
}
