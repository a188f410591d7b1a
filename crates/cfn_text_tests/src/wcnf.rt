//! Tests of wcnf files.

use cfn_model::{Kind, Refusal};
use cfn_net::Network;
use cfn_wcnf::{ReadFault, Unread, read};
use std::alloc::{AllocError, Global};
use std::test::*;

/// The word for which a file is not read, if it is not, and why; no reason where it is none of the header's.
fn unread(alloc: Global, file: &[u8]) -> Result<Option<(u64, Option<Kind>)>, AllocError> {
    match read(alloc, file) {
        Ok(_) => Ok(None),
        Err(ReadFault::Unread(Unread::Header(ordinal))) => Ok(Some((ordinal, None))),
        Err(ReadFault::Unread(Unread::Word(Refusal { kind, ordinal }))) => {
            Ok(Some((ordinal, Some(kind))))
        }
        Err(ReadFault::Memory) => Err(AllocError),
    }
}

/// Files that are not read, for which word, and why.
const UNREAD: [(&[u8], u64, Option<Kind>); 4] = [
    (b"", 1, Some(Kind::Short)),
    (b"p cnf 2 3 10\n10 1 2 0\n", 2, None),
    (
        b"p wcnf 2 3 10\n10 1 3 0\n",
        8,
        Some(Kind::VariableOutOfRange),
    ),
    (
        b"c 1 2 3\np wcnf 2 3 10\nc 4 5\nh 1 0\n",
        6,
        Some(Kind::NotNumber),
    ),
];

#[test]
fn refusals(rt: HostRuntime) -> Result<(), Fail> {
    for (file, ordinal, kind) in UNREAD {
        assert!(rt; unread(rt.alloc(), file)? == Some((ordinal, kind)));
    }
    Ok(())
}

/// Whether a function has this table.
fn has(network: &Network, f: u32, entries: &[u64]) -> bool {
    f < network.functions() && matches!(network.table(f), Some(table) if table == entries)
}

/// Whether a file is read as the network of two variables and three clauses costing 10, 3 and 4.
fn is_pair(alloc: Global, file: &[u8]) -> bool {
    match read(alloc, file) {
        Ok(network) => {
            network.name() == b"wcnf".as_slice()
                && network.ub() == 10
                && network.variables() == 2
                && network.functions() == 3
                && has(&network, 0, &[10, 0, 0, 0])
                && has(&network, 1, &[0, 3])
                && has(&network, 2, &[0, 4])
        }
        Err(_) => false,
    }
}

/// That network, plainly, and with comments, a clause over two lines, a literal twice and a word behind the last clause.
const PAIRS: [&[u8]; 2] = [
    b"p wcnf 2 3 10\n10 1 2 0\n3 -1 0\n4 -2 0\n",
    b"c a pair\r\np wcnf 2 3 10\n10 2 1\nc in a clause\n2 0 3 -1 -1 0 4 -2 0 5",
];

#[test]
fn networks(rt: HostRuntime) {
    for file in PAIRS {
        assert!(rt; is_pair(rt.alloc(), file));
    }
}
