//! Tests of what the checker of lists answers to whole texts.

use crate::networks::TINY;
use cfn_best::ListFault::{Certificate, Listed};
use cfn_bestcheck::{BestCheck, check_best};
use cfn_fault::FaultKind;
use cfn_wcsp::read;
use std::alloc::Global;
use std::test::Fail;

/// Texts of lists of `TINY`, and what the checker answers to each.
const TEXTS: [(&[u8], BestCheck); 14] = [
    (
        b"wcspbest 1\nnetwork 1 1 10\ncount 2\nlower 3\nbest 2\nvalues 1 1\nvalues 3 0\ntree\nsplit 0 0\nlisted 1\nlisted 0\nend\n",
        BestCheck::Verified {
            lower: 3,
            count: 2,
            complete: true,
        },
    ),
    // an open leaf, and one assignment alone
    (
        b"wcspbest 1\nnetwork 1 1 10\ncount 1\nlower 0\nbest 1\nvalues 1 1\ntree\nsplit 0 0\nopen\nlisted 0\nend\n",
        BestCheck::Verified {
            lower: 0,
            count: 1,
            complete: false,
        },
    ),
    // the leaf of an assignment that left the list is closed
    (
        b"wcspbest 1\nnetwork 1 1 10\ncount 1\nlower 1\nbest 1\nvalues 1 1\ntree\nsplit 0 0\np 0 0 0 3\nu 0 3\nclosed\nlisted 0\nend\n",
        BestCheck::Verified {
            lower: 1,
            count: 1,
            complete: true,
        },
    ),
    // the two leaves are exchanged
    (
        b"wcspbest 1\nnetwork 1 1 10\ncount 2\nlower 3\nbest 2\nvalues 1 1\nvalues 3 0\ntree\nsplit 0 0\nlisted 0\nlisted 1\nend\n",
        BestCheck::Refused {
            kind: Listed,
            line: 10,
        },
    ),
    // a leaf with two live values
    (
        b"wcspbest 1\nnetwork 1 1 10\ncount 1\nlower 1\nbest 1\nvalues 1 1\ntree\nlisted 0\nend\n",
        BestCheck::Refused {
            kind: Listed,
            line: 8,
        },
    ),
    // one assignment twice, and one out of order
    (
        b"wcspbest 1\nnetwork 1 1 10\ncount 2\nlower 1\nbest 2\nvalues 1 1\nvalues 1 1\ntree\nopen\nend\n",
        BestCheck::Refused {
            kind: Certificate(FaultKind::Best),
            line: 7,
        },
    ),
    (
        b"wcspbest 1\nnetwork 1 1 10\ncount 2\nlower 1\nbest 2\nvalues 3 0\nvalues 1 1\ntree\nopen\nend\n",
        BestCheck::Refused {
            kind: Certificate(FaultKind::Best),
            line: 7,
        },
    ),
    // more than were asked for, and a wrong cost
    (
        b"wcspbest 1\nnetwork 1 1 10\ncount 1\nlower 1\nbest 2\nvalues 1 1\nvalues 3 0\ntree\nopen\nend\n",
        BestCheck::Refused {
            kind: Certificate(FaultKind::Best),
            line: 5,
        },
    ),
    (
        b"wcspbest 1\nnetwork 1 1 10\ncount 1\nlower 1\nbest 1\nvalues 2 1\ntree\nopen\nend\n",
        BestCheck::Refused {
            kind: Certificate(FaultKind::Best),
            line: 6,
        },
    ),
    // none is asked for, an assignment has no value, and bytes behind the end
    (
        b"wcspbest 1\nnetwork 1 1 10\ncount 0\nlower 0\nbest 0\ntree\nopen\nend\n",
        BestCheck::Refused {
            kind: Certificate(FaultKind::Text),
            line: 3,
        },
    ),
    (
        b"wcspbest 1\nnetwork 1 1 10\ncount 1\nlower 0\nbest 1\nvalues 1\ntree\nopen\nend\n",
        BestCheck::Refused {
            kind: Certificate(FaultKind::Text),
            line: 6,
        },
    ),
    (
        b"wcspbest 1\nnetwork 1 1 10\ncount 1\nlower 0\nbest 0\ntree\nopen\nend\nend\n",
        BestCheck::Refused {
            kind: Certificate(FaultKind::Text),
            line: 9,
        },
    ),
    // another network, and a lower bound above the open leaf's floor
    (
        b"wcspbest 1\nnetwork 2 1 10\ncount 1\nlower 0\nbest 0\ntree\nopen\nend\n",
        BestCheck::Refused {
            kind: Certificate(FaultKind::Network),
            line: 2,
        },
    ),
    (
        b"wcspbest 1\nnetwork 1 1 10\ncount 1\nlower 1\nbest 1\nvalues 1 1\ntree\nsplit 0 0\nopen\nlisted 0\nend\n",
        BestCheck::Refused {
            kind: Certificate(FaultKind::Lower),
            line: 4,
        },
    ),
];

/// What the checker answers to a text of a network that a file has.
pub(crate) fn answer(alloc: Global, file: &[u8], text: &[u8]) -> Result<BestCheck, Fail> {
    let network = read(alloc, file)?;
    Ok(check_best(alloc, &network, text)?)
}

#[test]
fn lists_are_judged(rt: HostRuntime) -> Result<(), Fail> {
    for (row, (text, expected)) in TEXTS.iter().enumerate() {
        let judged = answer(rt.alloc(), TINY, text)?;
        assert!(rt; judged == *expected, "in row {row}");
    }
    Ok(())
}
