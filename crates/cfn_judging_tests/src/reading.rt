//! Tests of what the reader of certificates tells.

use crate::judging::nested;
use cfn_certtext::{DecisionText, Item, Reader, StepText};
use cfn_model::Version;
use std::alloc::{AllocError, Global};
use std::test::*;

/// A certificate of a network with one variable, whose two values cost 3 and 1.
const TINY: &[u8] = b"wcspcert 1\nnetwork 1 1 10\nlower 1\nbest 1\nvalues 1\ntree\n\
    p 0 0 0 3\np 0 0 1 1\nu 0 1\nclosed\nend\n";

/// What the reader tells of that certificate.
const LEAF_EVENTS: [(u64, Item); 13] = [
    (1, Item::Version(Version::First)),
    (
        2,
        Item::Network {
            variables: 1,
            functions: 1,
            upper: 10,
        },
    ),
    (3, Item::Lower(1)),
    (4, Item::Best(1)),
    (5, Item::Value(1)),
    (6, Item::Tree),
    (
        7,
        Item::Step(StepText::Project {
            function: 0,
            place: 0,
            value: 0,
            amount: 3,
        }),
    ),
    (
        8,
        Item::Step(StepText::Project {
            function: 0,
            place: 0,
            value: 1,
            amount: 1,
        }),
    ),
    (
        9,
        Item::Step(StepText::Lift {
            variable: 0,
            amount: 1,
        }),
    ),
    (10, Item::Closed),
    (11, Item::End),
    (11, Item::Over),
    (11, Item::Over),
];

/// A certificate with a split by a value, and what the reader tells of it.
const SPLIT: &[u8] = b"wcspcert 1\nnetwork 3 3 10\nlower 1\nbest 1\nvalues 0 0 1\ntree\nsplit 0 0\n\
    p 0 1 0 1\nv 1 0\np 1 1 0 1\nv 2 0\np 2 0 1 1\nu 1 1\nclosed\n\
    e 0 1 1 1\nt 2 3\nopen\nend\n";

const SPLIT_EVENTS: [(u64, Item); 21] = [
    (1, Item::Version(Version::First)),
    (
        2,
        Item::Network {
            variables: 3,
            functions: 3,
            upper: 10,
        },
    ),
    (3, Item::Lower(1)),
    (4, Item::Best(1)),
    (5, Item::Value(0)),
    (5, Item::Value(0)),
    (5, Item::Value(1)),
    (6, Item::Tree),
    (
        7,
        Item::Split(DecisionText::Is {
            variable: 0,
            value: 0,
        }),
    ),
    (
        8,
        Item::Step(StepText::Project {
            function: 0,
            place: 1,
            value: 0,
            amount: 1,
        }),
    ),
    (
        9,
        Item::Step(StepText::CutValue {
            variable: 1,
            value: 0,
        }),
    ),
    (
        10,
        Item::Step(StepText::Project {
            function: 1,
            place: 1,
            value: 0,
            amount: 1,
        }),
    ),
    (
        11,
        Item::Step(StepText::CutValue {
            variable: 2,
            value: 0,
        }),
    ),
    (
        12,
        Item::Step(StepText::Project {
            function: 2,
            place: 0,
            value: 1,
            amount: 1,
        }),
    ),
    (
        13,
        Item::Step(StepText::Lift {
            variable: 1,
            amount: 1,
        }),
    ),
    (14, Item::Closed),
    (
        15,
        Item::Step(StepText::Extend {
            function: 0,
            place: 1,
            value: 1,
            amount: 1,
        }),
    ),
    (
        16,
        Item::Step(StepText::CutTuple {
            function: 2,
            cell: 3,
        }),
    ),
    (17, Item::Open),
    (18, Item::End),
    (18, Item::Over),
];

/// A certificate with a split by a bound, and what the reader tells of it.
const SPLIT_BY_A_BOUND: &[u8] =
    b"wcspcert 2\nnetwork 1 1 10\nlower 0\nbest none\ntree\npart 0 4\nopen\nsplit 1 2\n\
    closed\nopen\nend\n";

const SPLIT_BY_A_BOUND_EVENTS: [(u64, Item); 12] = [
    (1, Item::Version(Version::Second)),
    (
        2,
        Item::Network {
            variables: 1,
            functions: 1,
            upper: 10,
        },
    ),
    (3, Item::Lower(0)),
    (4, Item::NoBest),
    (5, Item::Tree),
    (
        6,
        Item::Split(DecisionText::Most {
            variable: 0,
            value: 4,
        }),
    ),
    (7, Item::Open),
    (
        8,
        Item::Split(DecisionText::Is {
            variable: 1,
            value: 2,
        }),
    ),
    (9, Item::Closed),
    (10, Item::Open),
    (11, Item::End),
    (11, Item::Over),
];

/// Those certificates and what the reader tells of each.
const TOLD: [(&[u8], &[(u64, Item)]); 3] = [
    (TINY, &LEAF_EVENTS),
    (SPLIT, &SPLIT_EVENTS),
    (SPLIT_BY_A_BOUND, &SPLIT_BY_A_BOUND_EVENTS),
];

/// Whether a text begins with these lines and items.
fn tells(text: &[u8], expected: &[(u64, Item)]) -> bool {
    let mut reader = Reader::new(text);
    for (line, item) in expected {
        match reader.next() {
            Ok(event) => {
                if event.line != *line || event.item != *item {
                    return false;
                }
            }
            Err(_) => return false,
        }
    }
    true
}

/// The line of a text's fault, which comes twice, or 0 where the text ends without one.
fn fault_line(text: &[u8]) -> u64 {
    let mut reader = Reader::new(text);
    for _ in 0..=text.len() {
        match reader.next() {
            Ok(event) => {
                if event.item == Item::Over {
                    return 0;
                }
            }
            Err(fault) => {
                return match reader.next() {
                    Err(again) if again.line == fault.line => fault.line,
                    _ => 0,
                };
            }
        }
    }
    0
}

#[test]
fn events_of_certificates(rt: HostRuntime) {
    for (row, (text, events)) in TOLD.iter().enumerate() {
        assert!(rt; tells(text, events), "in row {row}");
    }
}

#[test]
fn each_front_has_its_fault(rt: HostRuntime) {
    assert!(rt; fault_line(TINY) == 0);
    for (end, _) in TINY.iter().enumerate() {
        let front = &TINY[..end];
        let lines = front.iter().filter(|b| **b == b'\n').count() as u64;
        assert!(rt; lines.checked_add(1) == Some(fault_line(front)));
    }
}

/// Texts, and the lines of their faults.
const FAULTS: [(&[u8], u64); 26] = [
    (b"wcspcert 3\n", 1),
    (b"wcspcert 2 \n", 1),
    (b"wcspcert 2\n", 2),
    (b"wcspcert 1\nnetwork 1 1\n", 2),
    (b"wcspcert 1\nnetwork 1 1 10 \n", 2),
    (b"wcspcert 1\nnetwork 1 1 10\nlower 01\n", 3),
    (b"wcspcert 1\nnetwork 1 1 10\nlower -1\n", 3),
    (b"wcspcert 1\nnetwork 1 1 10\nlower 1\r\n", 3),
    (b"wcspcert 1\nnetwork 1 1 10\nlower  1\n", 3),
    (b"wcspcert 1\nnetwork 1 1 10\n lower 1\n", 3),
    (
        b"wcspcert 1\nnetwork 1 1 10\nlower 9223372036854775808\n",
        3,
    ),
    (
        b"wcspcert 1\nnetwork 1 1 10\nlower 9223372036854775807\n",
        4,
    ),
    (b"wcspcert 1\nnetwork 1 1 10\nlower 0\nbest None\n", 4),
    (b"wcspcert 1\nnetwork 1 1 10\nlower 0\nbest 1\nvalues\n", 5),
    (
        b"wcspcert 1\nnetwork 1 1 10\nlower 0\nbest 1\nvalues 1 x\n",
        5,
    ),
    (
        b"wcspcert 1\nnetwork 1 1 10\nlower 0\nbest none\nvalues 1\n",
        5,
    ),
    (
        b"wcspcert 1\nnetwork 1 1 10\nlower 0\nbest none\ntree\np 0 0 0 0\n",
        6,
    ),
    (
        b"wcspcert 1\nnetwork 1 1 10\nlower 0\nbest none\ntree\nu 0 0\n",
        6,
    ),
    (
        b"wcspcert 1\nnetwork 1 1 10\nlower 0\nbest none\ntree\nend\n",
        6,
    ),
    (
        b"wcspcert 1\nnetwork 1 1 10\nlower 0\nbest none\ntree\nopen\nopen\n",
        7,
    ),
    (
        b"wcspcert 1\nnetwork 1 1 10\nlower 0\nbest none\ntree\nopen\nend\nx",
        8,
    ),
    (
        b"wcspcert 1\nnetwork 1 1 10\nlower 0\nbest none\ntree\nopen\nend\n\n",
        8,
    ),
    (
        b"wcspcert 1\nnetwork 1 1 10\nlower 0\nbest none\ntree\nsplit 0 0\nopen\nend\n",
        8,
    ),
    (
        b"wcspcert 1\nnetwork 1 1 10\nlower 0\nbest none\ntree\npart 0 0\nopen\nopen\nend\n",
        6,
    ),
    (
        b"wcspcert 2\nnetwork 1 1 10\nlower 0\nbest none\ntree\npart 0\nopen\nopen\nend\n",
        6,
    ),
    (
        b"wcspcert 2\nnetwork 1 1 10\nlower 0\nbest none\ntree\npart 0 0\nopen\nend\n",
        8,
    ),
];

#[test]
fn lines_that_do_not_follow(rt: HostRuntime) {
    for (row, (text, line)) in FAULTS.iter().enumerate() {
        assert!(rt; fault_line(text) == *line, "in row {row}");
    }
}

/// The line of the fault of nested splits, each the first child of the one before it, and then so many open leaves.
fn fault_of_nested(alloc: Global, splits: u32, leaves: u32) -> Result<u64, AllocError> {
    Ok(fault_line(&nested(alloc, splits, leaves)?))
}

#[test]
fn deep_trees(rt: HostRuntime) -> Result<(), Fail> {
    for (leaves, line) in [(100_001, 0), (100_000, 200_006)] {
        assert!(rt; fault_of_nested(rt.alloc(), 100_000, leaves)? == line);
    }
    Ok(())
}
