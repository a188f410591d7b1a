//! Tests of what the checker of lists answers to texts of hostile content.

use crate::lists::answer;
use crate::networks::{HARD, TINY};
use cfn_best::ListFault::{Certificate, Listed};
use cfn_bestcheck::BestCheck;
use cfn_fault::FaultKind;
use std::alloc::{AllocError, Global};
use std::test::Fail;

/// A good list of `TINY`.
const GOOD: &[u8] =
    b"wcspbest 1\nnetwork 1 1 10\ncount 2\nlower 3\nbest 2\nvalues 1 1\nvalues 3 0\ntree\n\
    split 0 0\nlisted 1\nlisted 0\nend\n";

/// The lines of a list of no assignment before those of its tree.
const HEAD: &[u8] = b"wcspbest 1\nnetwork 1 1 10\ncount 1\nlower 0\nbest 0\ntree\n";

/// A tree of such a list whose first line fails, and how.
const TREES: [(&[u8], FaultKind); 7] = [
    (b"p 1 0 0 3\nopen\nend\n", FaultKind::Range),
    (b"p 0 0 0 4\nopen\nend\n", FaultKind::Project),
    (b"e 0 0 1 1\nopen\nend\n", FaultKind::Extend),
    (b"u 0 1\nopen\nend\n", FaultKind::Lift),
    (b"v 0 0\nopen\nend\n", FaultKind::Cut),
    (b"closed\nend\n", FaultKind::Close),
    (b"leaf\nend\n", FaultKind::Text),
];

/// The lines of a list of one assignment before those of its tree: its threshold is 1.
const ONE: &[u8] = b"wcspbest 1\nnetwork 1 1 10\ncount 1\nlower 1\nbest 1\nvalues 1 1\ntree\n";

/// Sums go below 0 where a value is not live.
const SUMS: [(&[u8], BestCheck); 2] = [
    (
        b"p 0 0 0 3\nv 0 0\ne 0 0 0 9223372036854775807\np 0 0 1 1\nu 0 1\nclosed\nend\n",
        BestCheck::Verified {
            lower: 1,
            count: 1,
            complete: true,
        },
    ),
    (
        b"p 0 0 0 3\nv 0 0\ne 0 0 0 9223372036854775807\nv 0 0\np 0 0 1 1\nu 0 1\nclosed\nend\n",
        BestCheck::Refused {
            kind: Certificate(FaultKind::Cut),
            line: 11,
        },
    ),
];

/// A good list of `HARD`, a network without a solution, whose sums go beyond 2^64.
const LARGE: &[u8] = b"wcspbest 1\nnetwork 2 1 5\ncount 1\nlower 5\nbest 0\ntree\n\
    p 0 0 0 9223372036854775807\np 0 0 0 9223372036854775807\np 0 0 0 9223372036854775807\n\
    p 0 0 1 9223372036854775807\np 0 0 1 9223372036854775807\np 0 0 1 9223372036854775807\n\
    u 0 9223372036854775807\nu 0 9223372036854775807\nu 0 9223372036854775807\nclosed\nend\n";

/// How many splits stand within each other.
const SPLITS: usize = 100_000;

/// One text behind another.
fn joined(alloc: Global, head: &[u8], tail: &[u8]) -> Result<Vec<u8>, AllocError> {
    let mut text = Vec::from_slice(alloc, head)?;
    text.extend_from_slice(tail)?;
    Ok(text)
}

/// A list of no assignment: splits within each other, and then so many open leaves.
fn nested(alloc: Global, leaves: usize) -> Result<Vec<u8>, AllocError> {
    let mut text = Vec::from_slice(alloc, HEAD)?;
    for _split in 0..SPLITS {
        text.extend_from_slice(b"split 0 0\n")?;
    }
    for _leaf in 0..leaves {
        text.extend_from_slice(b"open\n")?;
    }
    text.extend_from_slice(b"end\n")?;
    Ok(text)
}

/// Every front of a list that lacks a byte is refused in its grammar, at its last line or the missing one.
#[test]
fn fronts_of_a_list_are_refused(rt: HostRuntime) -> Result<(), Fail> {
    let mut line = 1;
    for (length, byte) in GOOD.iter().enumerate() {
        let due = BestCheck::Refused {
            kind: Certificate(FaultKind::Text),
            line,
        };
        assert!(rt;
            answer(rt.alloc(), TINY, &GOOD[..length])? == due,
            "at {length}"
        );
        if *byte == b'\n' {
            line = line.saturating_add(1);
        }
    }
    Ok(())
}

#[test]
fn first_lines_of_trees_are_refused(rt: HostRuntime) -> Result<(), Fail> {
    for (row, (tree, kind)) in TREES.iter().enumerate() {
        let text = joined(rt.alloc(), HEAD, tree)?;
        let due = BestCheck::Refused {
            kind: Certificate(*kind),
            line: 7,
        };
        assert!(rt; answer(rt.alloc(), TINY, &text)? == due, "in row {row}");
    }
    let text = joined(rt.alloc(), HEAD, b"listed 0\nend\n")?;
    let due = BestCheck::Refused {
        kind: Listed,
        line: 7,
    };
    assert!(rt; answer(rt.alloc(), TINY, &text)? == due);
    Ok(())
}

#[test]
fn large_and_negative_sums(rt: HostRuntime) -> Result<(), Fail> {
    for (row, (tree, due)) in SUMS.iter().enumerate() {
        let text = joined(rt.alloc(), ONE, tree)?;
        assert!(rt; answer(rt.alloc(), TINY, &text)? == *due, "in row {row}");
    }
    let due = BestCheck::Verified {
        lower: 5,
        count: 0,
        complete: true,
    };
    assert!(rt; answer(rt.alloc(), HARD, LARGE)? == due);
    Ok(())
}

/// Depth is bounded by the text alone: splits within each other, with all their leaves, and with one too few.
#[test]
fn deep_trees_are_judged(rt: HostRuntime) -> Result<(), Fail> {
    let whole = nested(rt.alloc(), SPLITS + 1)?;
    let due = BestCheck::Verified {
        lower: 0,
        count: 0,
        complete: false,
    };
    assert!(rt; answer(rt.alloc(), TINY, &whole)? == due);
    let short = nested(rt.alloc(), SPLITS)?;
    let due = BestCheck::Refused {
        kind: Certificate(FaultKind::Text),
        line: 200_007,
    };
    assert!(rt; answer(rt.alloc(), TINY, &short)? == due);
    Ok(())
}
