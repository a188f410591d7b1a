//! Tests of what the checker answers to whole texts.

use crate::networks::Which;
use cfn_check::{Check, check};
use cfn_fault::FaultKind;
use std::alloc::{AllocError, Global};
use std::test::Fail;

const VERIFIED: Check = Check::Verified {
    lower: 1,
    best: Some(1),
};

/// Texts, the networks that they are of, and what the checker answers to each.
const TEXTS: [(Which, &[u8], Check); 25] = [
    // a closed root is verified
    (
        Which::Tiny,
        b"wcspcert 1\nnetwork 1 1 10\nlower 1\nbest 1\nvalues 1\ntree\np 0 0 0 3\np 0 0 1 1\nu 0 1\nclosed\nend\n",
        VERIFIED,
    ),
    // what is not live may be below 0
    (
        Which::Tiny,
        b"wcspcert 1\nnetwork 1 1 10\nlower 1\nbest 1\nvalues 1\ntree\np 0 0 0 3\nv 0 0\ne 0 0 0 9223372036854775807\np 0 0 1 1\nu 0 1\nclosed\nend\n",
        VERIFIED,
    ),
    // lines of the tree are refused
    (
        Which::Tiny,
        b"wcspcert 1\nnetwork 1 1 10\nlower 1\nbest 1\nvalues 1\ntree\np 0 0 0 3\np 0 0 1 1\nu 0 2\nclosed\nend\n",
        Check::Refused {
            kind: FaultKind::Lift,
            line: 9,
        },
    ),
    (
        Which::Tiny,
        b"wcspcert 1\nnetwork 1 1 10\nlower 1\nbest 1\nvalues 1\ntree\nv 0 0\np 0 0 0 3\nclosed\nend\n",
        Check::Refused {
            kind: FaultKind::Cut,
            line: 7,
        },
    ),
    (
        Which::Tiny,
        b"wcspcert 1\nnetwork 1 1 10\nlower 1\nbest 1\nvalues 1\ntree\np 1 0 0 3\nopen\nend\n",
        Check::Refused {
            kind: FaultKind::Range,
            line: 7,
        },
    ),
    (
        Which::Tiny,
        b"wcspcert 1\nnetwork 1 1 10\nlower 1\nbest 1\nvalues 1\ntree\nsplit 0 2\nopen\nopen\nend\n",
        Check::Refused {
            kind: FaultKind::Range,
            line: 7,
        },
    ),
    (
        Which::Tiny,
        b"wcspcert 1\nnetwork 1 1 10\nlower 0\nbest 1\nvalues 1\ntree\nclosed\nend\n",
        Check::Refused {
            kind: FaultKind::Close,
            line: 7,
        },
    ),
    (
        Which::Tiny,
        b"wcspcert 1\nnetwork 1 1 10\nlower 0\nbest none\ntree\np 0 0 0 4\nopen\nend\n",
        Check::Refused {
            kind: FaultKind::Project,
            line: 6,
        },
    ),
    (
        Which::Tiny,
        b"wcspcert 1\nnetwork 1 1 10\nlower 0\nbest none\ntree\ne 0 0 0 1\nopen\nend\n",
        Check::Refused {
            kind: FaultKind::Extend,
            line: 6,
        },
    ),
    // first lines are refused
    (
        Which::Tiny,
        b"wcspcert 1\nnetwork 1 1 9\nlower 1\nbest 1\nvalues 1\ntree\nopen\nend\n",
        Check::Refused {
            kind: FaultKind::Network,
            line: 2,
        },
    ),
    (
        Which::Tiny,
        b"wcspcert 1\nnetwork 1 1 10\nlower 1\nbest 10\nvalues 1\ntree\nopen\nend\n",
        Check::Refused {
            kind: FaultKind::Best,
            line: 4,
        },
    ),
    (
        Which::Tiny,
        b"wcspcert 1\nnetwork 1 1 10\nlower 1\nbest 1\nvalues 1 1\ntree\nopen\nend\n",
        Check::Refused {
            kind: FaultKind::Best,
            line: 5,
        },
    ),
    (
        Which::Tiny,
        b"wcspcert 1\nnetwork 1 1 10\nlower 1\nbest 1\nvalues 4294967297\nx\n",
        Check::Refused {
            kind: FaultKind::Best,
            line: 5,
        },
    ),
    (
        Which::Tiny,
        b"wcspcert 1\nnetwork 1 1 10\nlower 1\nbest 1\nvalues 0\ntree\nopen\nend\n",
        Check::Refused {
            kind: FaultKind::Best,
            line: 5,
        },
    ),
    (
        Which::Tiny,
        b"wcspcert 1\nnetwork 1 1 10\nlower 2\nbest 1\nvalues 1\ntree\np 0 0 0 3\np 0 0 1 1\nu 0 1\nclosed\nend\n",
        Check::Refused {
            kind: FaultKind::Lower,
            line: 3,
        },
    ),
    // texts are refused
    (
        Which::Tiny,
        b"wcspcert 1\nnetwork 1 1 10\nlower 0\nbest none\ntree\nopen\nend\nx",
        Check::Refused {
            kind: FaultKind::Text,
            line: 8,
        },
    ),
    (
        Which::Tiny,
        b"wcspcert 1\nnetwork 1 1 10\nlower 0\nbest none\ntree\nopen\n",
        Check::Refused {
            kind: FaultKind::Text,
            line: 7,
        },
    ),
    (
        Which::Tiny,
        b"wcspcert 1\nnetwork 1 1 10\nlower 01\nbest none\ntree\nopen\nend\n",
        Check::Refused {
            kind: FaultKind::Text,
            line: 3,
        },
    ),
    (
        Which::Tiny,
        b"wcspcert 1\nnetwork 1 1 10\nlower 0\nbest none\ntree\np 0 0 0 9223372036854775808\nopen\nend\n",
        Check::Refused {
            kind: FaultKind::Text,
            line: 6,
        },
    ),
    (
        Which::Tiny,
        b"",
        Check::Refused {
            kind: FaultKind::Text,
            line: 1,
        },
    ),
    // both sides of a split are judged
    (
        Which::Tri,
        b"wcspcert 1\nnetwork 3 3 10\nlower 1\nbest 1\nvalues 0 0 1\ntree\nsplit 0 0\np 0 1 0 1\nv 1 0\np 1 1 0 1\nv 2 0\np 2 0 1 1\nu 1 1\nclosed\np 0 1 1 1\nv 1 1\np 1 1 1 1\nv 2 1\np 2 0 0 1\nu 1 1\nclosed\nend\n",
        VERIFIED,
    ),
    (
        Which::Tri,
        b"wcspcert 1\nnetwork 3 3 10\nlower 1\nbest 1\nvalues 0 0 1\ntree\nsplit 0 0\np 0 1 0 1\nv 1 0\np 1 1 0 1\nv 2 0\np 2 0 1 1\nu 1 1\nclosed\nend\n",
        Check::Refused {
            kind: FaultKind::Text,
            line: 15,
        },
    ),
    // both sides of a bound are judged
    (
        Which::Tiny,
        b"wcspcert 2\nnetwork 1 1 10\nlower 1\nbest 1\nvalues 1\ntree\npart 0 0\np 0 0 0 3\nu 0 3\nclosed\np 0 0 1 1\nu 0 1\nclosed\nend\n",
        VERIFIED,
    ),
    (
        Which::Tiny,
        b"wcspcert 1\nnetwork 1 1 10\nlower 1\nbest 1\nvalues 1\ntree\npart 0 0\np 0 0 0 3\nu 0 3\nclosed\np 0 0 1 1\nu 0 1\nclosed\nend\n",
        Check::Refused {
            kind: FaultKind::Text,
            line: 7,
        },
    ),
    (
        Which::Tiny,
        b"wcspcert 2\nnetwork 1 1 10\nlower 1\nbest 1\nvalues 1\ntree\npart 0 2\np 0 0 0 3\nu 0 3\nclosed\np 0 0 1 1\nu 0 1\nclosed\nend\n",
        Check::Refused {
            kind: FaultKind::Range,
            line: 7,
        },
    ),
];

/// What the checker answers to a text of one of the networks.
fn answer(alloc: Global, which: Which, text: &[u8]) -> Result<Check, Fail> {
    let network = which.network(alloc)?;
    Ok(check(alloc, &network, text)?)
}

#[test]
fn texts_are_judged(rt: HostRuntime) -> Result<(), Fail> {
    for (row, (which, text, expected)) in TEXTS.iter().enumerate() {
        let judged = answer(rt.alloc(), *which, text)?;
        assert!(rt; judged == *expected, "in row {row}");
    }
    Ok(())
}

/// A certificate of nested splits, with so many open leaves.
pub(crate) fn nested(alloc: Global, splits: u32, leaves: u32) -> Result<Vec<u8>, AllocError> {
    let mut text = Vec::from_slice(
        alloc,
        b"wcspcert 1\nnetwork 1 1 10\nlower 0\nbest none\ntree\n",
    )?;
    for _ in 0..splits {
        text.extend_from_slice(b"split 0 0\n")?;
    }
    for _ in 0..leaves {
        text.extend_from_slice(b"open\n")?;
    }
    text.extend_from_slice(b"end\n")?;
    Ok(text)
}

/// What the checker answers to such a certificate.
fn answer_to_nested(alloc: Global, splits: u32, leaves: u32) -> Result<Check, Fail> {
    let text = nested(alloc, splits, leaves)?;
    answer(alloc, Which::Tiny, &text)
}

#[test]
fn deep_trees_are_judged(rt: HostRuntime) -> Result<(), Fail> {
    let open = Check::Verified {
        lower: 0,
        best: None,
    };
    let short = Check::Refused {
        kind: FaultKind::Text,
        line: 200006,
    };
    for (leaves, expected) in [(100001, open), (100000, short)] {
        assert!(rt; answer_to_nested(rt.alloc(), 100000, leaves)? == expected);
    }
    Ok(())
}
