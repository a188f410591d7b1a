//! Tests of wcsp files.

use cfn_model::{Kind, Refusal};
use cfn_net::Network;
use cfn_wcsp::{ReadFault, read};
use std::alloc::{AllocError, Global};
use std::test::*;

const TRI: &[u8; 84] =
    b"tri 3 2 3 10\n2 2 2\n2 0 1 0 2\n0 0 1\n1 1 1\n2 0 2 0 2\n0 0 1\n1 1 1\n2 1 2 0 2\n0 0 1\n1 1 1";

/// Why a file is refused, if it is.
fn refusal(alloc: Global, file: &[u8]) -> Result<Option<Refusal>, AllocError> {
    match read(alloc, file) {
        Ok(_) => Ok(None),
        Err(ReadFault::Refused(refusal)) => Ok(Some(refusal)),
        Err(ReadFault::Memory) => Err(AllocError),
    }
}

/// Files that are refused, why, and for which word.
const REFUSED: [(&[u8], Kind, u64); 35] = [
    (b"", Kind::Short, 1),
    (b" \n", Kind::Short, 1),
    (b"tiny 1 2 1 10\n2\n1 0 3 1\n1", Kind::Short, 12),
    (b"tiny 1 x 1 10\n2\n1 0 3 1\n1 1", Kind::NotNumber, 3),
    (
        b"tiny 1 2 1 9223372036854775808\n2\n1 0 3 1\n1 1",
        Kind::TooLarge,
        5,
    ),
    (b"none 0 2 1 10", Kind::NoVariables, 2),
    (b"many 1048577 2 1 10", Kind::TooMany, 2),
    (b"low 1 0 1 10", Kind::EmptyDomain, 3),
    (b"low 1 2 -1 10", Kind::NegativeCount, 4),
    (b"low 1 2 1 -1", Kind::NegativeCost, 5),
    (b"int 1 3 0 10\n-3", Kind::IntervalDomain, 6),
    (b"huge 1 3 0 10\n4097", Kind::DomainTooLarge, 6),
    (b"shared 1 2 1 10\n2\n-1 0", Kind::Short, 9),
    (b"out 1 2 1 10\n2\n1 1 0 0", Kind::VariableOutOfRange, 8),
    (b"rep 2 2 1 10\n2 2\n2 0 0 0 0", Kind::RepeatedVariable, 10),
    (
        b"wide 2 4096 1 10\n4096 4096\n2 0 1 0 0",
        Kind::TableTooWide,
        10,
    ),
    (b"key 2 2 1 10\n2 2\n2 0 1 -1 >= 0 0", Kind::Keyword, 11),
    (b"cost 2 2 1 10\n2 2\n2 0 1 -2 0", Kind::NegativeCost, 11),
    // shared tables: there is none, the function's own becomes shared, there are fewer, another arity, other
    // sizes, the same in another order, the table of a function of arity -0
    (b"shared 1 2 1 10\n2\n1 0 3 -1", Kind::SharedTable, 10),
    (b"shared 1 2 1 10\n2\n-1 0 3 -1", Kind::SharedTable, 10),
    (
        b"share 3 2 2 10\n2 2 2\n-2 0 1 0 1\n0 0 4\n2 1 2 0 -2",
        Kind::SharedTable,
        21,
    ),
    (
        b"share 3 2 2 10\n2 2 2\n-2 0 1 0 1\n0 0 4\n-2 1 2 0 -1",
        Kind::SharedTable,
        21,
    ),
    (
        b"share 3 2 2 10\n2 2 2\n-2 0 1 0 1\n0 0 4\n1 2 0 -1",
        Kind::SharedTable,
        20,
    ),
    (
        b"share 3 3 2 10\n2 2 3\n-2 0 1 0 1\n0 0 4\n2 1 2 0 -1",
        Kind::SharedTable,
        21,
    ),
    (
        b"share 3 3 2 10\n2 3 2\n-2 0 1 0 1\n0 0 4\n2 1 2 0 -1",
        Kind::SharedTable,
        21,
    ),
    (b"zero 1 2 2 10\n2\n-0 4 0\n0 4 -1", Kind::SharedTable, 12),
    // what stands before the number of tuples is refused before it
    (b"share 1 2 1 10\n2\n-1 1 3 -1", Kind::VariableOutOfRange, 8),
    (b"share 1 2 1 10\n2\n-1 0 -1 -1", Kind::Keyword, 9),
    (
        b"value 1 2 1 10\n2\n1 0 3 1\n2 1",
        Kind::ValueOutOfRange,
        11,
    ),
    (
        b"share 1 2 1 10\n2\n1 0 3 -9223372036854775808",
        Kind::TooLarge,
        10,
    ),
    // numbers that a file of ten words merely claims
    (
        b"claim 1 2 1 10\n2\n9223372036854775807 0 0 0",
        Kind::RepeatedVariable,
        9,
    ),
    (
        b"claim 1 2 1 10\n2\n-9223372036854775807 0 0 0",
        Kind::RepeatedVariable,
        9,
    ),
    (
        b"claim 1 2 1 10\n2\n1 0 3 -9223372036854775807",
        Kind::SharedTable,
        10,
    ),
    (b"claim 1 2 1 10\n2\n1 0 3 67108864", Kind::Short, 11),
    (b"claim 1 2 1 10\n2\n1 0 3 67108865", Kind::TooMany, 10),
];

#[test]
fn refusals(rt: HostRuntime) -> Result<(), Fail> {
    for (file, kind, ordinal) in REFUSED {
        assert!(rt; refusal(rt.alloc(), file)? == Some(Refusal { kind, ordinal }));
    }
    Ok(())
}

/// Whether a function has two cells, which cost so much.
fn has(network: &Network, f: u32, zero: u64, one: u64) -> bool {
    f < network.functions()
        && network.cells(f) == 2
        && network.entry(f, 0) == zero
        && network.entry(f, 1) == one
}

/// Whether a file is read as the network `tiny` with one function, whose two cells cost so much.
fn is_tiny(alloc: Global, file: &[u8], zero: u64, one: u64) -> bool {
    match read(alloc, file) {
        Ok(network) => {
            network.name() == b"tiny".as_slice()
                && network.ub() == 10
                && network.functions() == 1
                && has(&network, 0, zero, one)
        }
        Err(_) => false,
    }
}

/// Files, and what the cells of their function cost.
const TINY: [(&[u8], u64, u64); 7] = [
    (b"tiny 1 2 1 10\n2\n1 0 3 1\n1 1\n", 3, 1),
    (b"tiny 1 2 1 10 2 1 0 3 1 1 1 and words after it", 3, 1),
    (b"\x0btiny\t01\x0c2\r1\r\n0010\x0b2 1 -0 3 001 1 1", 3, 1),
    (b"tiny 1 2 1 10\n2\n-1 0 3 1\n1 1\n", 3, 1),
    (b"tiny 1 2 1 10\n2\n-1 0 3 -0\n", 3, 3),
    (b"tiny 1 2 1 10\n2\n1 0 3 3\n1 1\n0 9\n1 4\n", 9, 4),
    (
        b"tiny 1 2 1 10\n2\n1 0 30 1\n1 9223372036854775807\n",
        10,
        10,
    ),
];

#[test]
fn tables(rt: HostRuntime) {
    for (file, zero, one) in TINY {
        assert!(rt; is_tiny(rt.alloc(), file, zero, one));
    }
}

/// Whether a file is read as a network with three functions, of which the two cells of the last cost so much.
fn has_last(alloc: Global, file: &[u8], zero: u64, one: u64) -> bool {
    match read(alloc, file) {
        Ok(network) => network.functions() == 3 && has(&network, 2, zero, one),
        Err(_) => false,
    }
}

/// Files with shared tables, and what the cells of their last function cost.
const SHARED: [(&[u8], u64, u64); 3] = [
    (b"n 1 2 3 10\n2\n-1 0 1 1\n1 7\n1 0 2 0\n1 0 5 -1", 1, 7),
    (b"n 1 2 3 10\n2\n-1 0 1 0\n-1 0 2 1\n0 4\n1 0 2 -2", 4, 2),
    (b"n 1 2 3 10\n2\n-1 0 30 1\n1 6\n1 0 0 -1\n1 0 0 -1", 10, 6),
];

/// Shared tables are numbered from 1 in the order of their functions; a function that has one of them has its entries and
/// its default cost, whatever its own is, and shares none.
#[test]
fn shared(rt: HostRuntime) {
    for (file, zero, one) in SHARED {
        assert!(rt; has_last(rt.alloc(), file, zero, one));
    }
}

/// Each front of a file is refused for the word that it lacks, and the whole is read.
#[test]
fn fronts(rt: HostRuntime) -> Result<(), Fail> {
    let mut ordinal = 1;
    let mut between = true;
    for (len, byte) in TRI.iter().enumerate() {
        let short = (ordinal <= 41).then_some(Refusal {
            kind: Kind::Short,
            ordinal,
        });
        assert!(rt; refusal(rt.alloc(), &TRI[..len])? == short);
        let space = *byte == b' ' || *byte == b'\n';
        if between && !space && ordinal <= 41 {
            ordinal += 1;
        }
        between = space;
    }
    assert!(rt; ordinal == 42 && refusal(rt.alloc(), TRI)?.is_none());
    Ok(())
}
