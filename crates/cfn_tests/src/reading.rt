//! Which files a run takes, and what it says of the others.

use crate::rows::Lined;
use cfn_testing::running::{Run, SOLVE, TINY, TRI, ends};
use std::alloc::{AllocError, AllocGlobal, Global};
use std::sync::Wait;
use std::test::Fail;
use std::thread::Threads;

/// Files that are refused, and what is said of them.
const REFUSED: [(&[u8], &[u8]); 16] = [
    (b"", b"error short at 1\n"),
    (b" \t\n\x0b\x0c\r", b"error short at 1\n"),
    (b"tiny 1 2 1 10\n2\n1 0 3 1\n1", b"error short at 12\n"),
    (
        b"tiny 1 x 1 10\n2\n1 0 3 1\n1 1\n",
        b"error not-number at 3\n",
    ),
    (
        b"tiny 1 2 1 9223372036854775808\n2\n1 0 3 1\n1 1\n",
        b"error too-large at 5\n",
    ),
    (
        b"tiny 1 2 1 10\n2\n1 0 3 1\n1 --1\n",
        b"error not-number at 12\n",
    ),
    (
        b"tiny 1 2 1 10\n2\n1 0 3 1\n1 -1\n",
        b"error negative-cost at 12\n",
    ),
    (
        b"tiny 1 2 1 10\n2\n1 0 3 1\n2 1\n",
        b"error value-out-of-range at 11\n",
    ),
    (
        b"key 2 2 1 10\n2 2\n2 0 1 -1 >= 0 0\n",
        b"error keyword at 11\n",
    ),
    (
        b"rep 2 2 1 10\n2 2\n2 0 0 0 0\n",
        b"error repeated-variable at 10\n",
    ),
    (b"int 1 3 0 10\n-3\n", b"error interval-domain at 6\n"),
    (
        b"wide 2 4096 1 10\n4096 4096\n2 0 1 0 0\n",
        b"error table-too-wide at 10\n",
    ),
    // what a file of some ten words merely claims
    (
        b"arity 1 2 1 10\n2\n9223372036854775807 0 0 0\n",
        b"error repeated-variable at 9\n",
    ),
    (
        b"arity 1 2 1 10\n2\n9223372036854775807 0\n",
        b"error short at 9\n",
    ),
    (
        b"tuples 1 2 1 10\n2\n1 0 3 67108864\n",
        b"error short at 11\n",
    ),
    (
        b"tuples 1 2 1 10\n2\n1 0 3 67108865\n",
        b"error too-many at 10\n",
    ),
];

#[test]
fn refused_files_name_the_word(rt: HostRuntime) -> Result<(), Fail> {
    for (file, said) in REFUSED {
        assert!(rt; ends(&rt, &SOLVE, file, &[], (4, said, b""))?);
    }
    Ok(())
}

/// Whether two files are solved alike: with status 0, the same report and the same certificate.
fn are_alike<R: AllocGlobal + Threads + Wait + Sync>(
    rt: &R,
    one: &[u8],
    other: &[u8],
) -> Result<bool, AllocError> {
    let plain = Run::solve(rt, one)?;
    let run = Run::solve(rt, other)?;
    Ok(
        plain.status == 0
            && run.status == 0
            && run.said() == plain.said()
            && run.certificate() == plain.certificate(),
    )
}

/// Whether a front of a file is refused for the word behind it.
fn is_short<R: AllocGlobal + Threads + Wait + Sync>(
    rt: &R,
    front: &[u8],
) -> Result<bool, AllocError> {
    let said = short_behind(rt.alloc(), front)?;
    ends(rt, &SOLVE, front, &[], (4, said.as_bytes(), b""))
}

/// A front of a file that lacks a word is refused at the word that it would have, and only the front that lacks the last
/// line end alone is solved, as the whole file is.
#[test]
fn fronts_of_a_file_are_refused(rt: HostRuntime) -> Result<(), Fail> {
    let last = TRI.len() - 1;
    for length in 0..last {
        assert!(rt; is_short(&rt, &TRI[..length])?, "at {length}");
    }
    assert!(rt; are_alike(&rt, TRI, &TRI[..last])?);
    Ok(())
}

/// What is said of a file that lacks the word behind these.
fn short_behind(alloc: Global, front: &[u8]) -> Result<String, AllocError> {
    let words = front
        .split(|byte| *byte == b' ' || *byte == b'\n')
        .filter(|word| !word.is_empty())
        .count();
    let mut said = String::new(alloc);
    write!(said, "error short at {}\n", words.saturating_add(1))?;
    Ok(said)
}

/// Whether `TINY` with this byte in place of each space and line end is solved as it is.
fn parts<R: AllocGlobal + Threads + Wait + Sync>(rt: &R, space: u8) -> Result<bool, AllocError> {
    let file = parted(rt.alloc(), TINY, space)?;
    are_alike(rt, TINY, &file)
}

/// Whether it is refused with this byte there, since it is one word.
fn joins<R: AllocGlobal + Threads + Wait + Sync>(rt: &R, other: u8) -> Result<bool, AllocError> {
    let file = parted(rt.alloc(), TINY, other)?;
    ends(rt, &SOLVE, &file, &[], (4, b"error short at 2\n", b""))
}

/// Bytes that part words, and some that do not.
const SPACES: [u8; 6] = [9, 10, 11, 12, 13, 32];

const OTHERS: [u8; 9] = [0, 8, 14, 31, 33, 127, 133, 160, 255];

#[test]
fn white_space_of_any_kind_parts_words(rt: HostRuntime) -> Result<(), Fail> {
    for space in SPACES {
        assert!(rt; parts(&rt, space)?, "at {space}");
    }
    for other in OTHERS {
        assert!(rt; joins(&rt, other)?, "at {other}");
    }
    Ok(())
}

/// A file with this byte, once and twice, in place of each space and line end, and in front of all.
fn parted(alloc: Global, file: &[u8], space: u8) -> Result<Vec<u8>, AllocError> {
    let mut parted = Vec::new(alloc);
    parted.push(space)?;
    for byte in file {
        match *byte {
            b' ' => parted.push(space)?,
            b'\n' => parted.extend_from_slice(&[space, space])?,
            other => parted.push(other)?,
        }
    }
    Ok(parted)
}

/// Other spellings of `TINY`.
const SPELLINGS: [&[u8]; 9] = [
    // leading zeros
    b"tiny 01 002 0001 00000000000000000000000010\n02\n01 00 003 001\n01 000001\n",
    // a name of odd bytes, of digits, and of a sign
    b"\x00\xff 1 2 1 10\n2\n1 0 3 1\n1 1\n",
    b"7 1 2 1 10\n2\n1 0 3 1\n1 1\n",
    b"- 1 2 1 10\n2\n1 0 3 1\n1 1\n",
    // a variable -0, and a tuple with the value -0 and the cost that the default is
    b"tiny 1 2 1 10\n2\n1 -0 3 2\n1 1\n-0 3\n",
    // words after the last function
    b"tiny 1 2 1 10\n2\n1 0 3 1\n1 1\n1 0 0 0 and more \x00\xff -1",
    // no line end
    b"tiny 1 2 1 10\n2\n1 0 3 1\n1 1",
    // another greatest domain size, which is not used
    b"tiny 1 9223372036854775807 1 10\n2\n1 0 3 1\n1 1\n",
    // all tuples listed
    b"tiny 1 2 1 10\n2\n1 0 0 2\n0 3\n1 1\n",
];

#[test]
fn spellings_of_one_network(rt: HostRuntime) -> Result<(), Fail> {
    for file in SPELLINGS {
        assert!(rt; are_alike(&rt, TINY, file)?);
    }
    Ok(())
}

/// Runs of which some lines are known: a cost of minus nothing is no cost.
pub(crate) const LINED: [Lined; 3] = [
    (&SOLVE, b"free 1 2 1 10\n2\n1 0 3 1\n1 -0\n", 0, FREE, None),
    (&SOLVE, b"free 1 2 1 10\n2\n1 0 -0 1\n0 3\n", 0, FREE, None),
    (
        &SOLVE,
        b"free 1 2 2 10\n2\n1 0 3 1\n1 -00\n0 -0 0\n",
        0,
        FREE,
        None,
    ),
];

const FREE: &[u8] = b"lower 0\nupper 0\nvalues 1\nresult optimum";
