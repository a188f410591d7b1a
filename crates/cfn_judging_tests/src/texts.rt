//! Texts that are read, and texts that are refused.

use crate::counts::{Counts, count_nodes};
use cfn_certread::{Best, ReadCertificate, TextFault, read};
use std::alloc::AllocError;
use std::test::Fail;

/// The numbers of a certificate before its best assignment.
fn numbers(read: &ReadCertificate) -> [u64; 4] {
    [read.variables, read.functions, read.upper, read.lower]
}

/// Whether a best assignment costs that and has these values.
fn is_best(best: &Option<Best>, cost: u64, values: &[u64]) -> bool {
    match best {
        Some(best) => best.cost == cost && best.values.as_slice() == values,
        None => false,
    }
}

/// The line at which a text is refused, if it is.
fn refused_at(rt: &HostRuntime, text: &[u8]) -> Result<Option<u64>, AllocError> {
    match read(rt.alloc(), text)? {
        Ok(_) => Ok(None),
        Err(TextFault { line }) => Ok(Some(line)),
    }
}

/// The counts of a text's tree.
fn counts_of(rt: &HostRuntime, text: &[u8]) -> Result<Counts, Fail> {
    match read(rt.alloc(), text)? {
        Ok(read) => Ok(count_nodes(&read.tree)),
        Err(_) => Err(Fail::new("the text was refused")),
    }
}

const SPLIT: &[u8] =
    b"wcspcert 2\nnetwork 2 1 10\nlower 3\nbest 5\nvalues 1 0\ntree\np 0 0 0 3\nu 0 1\nsplit 0 1\nv 1 0\nclosed\npart 1 0\nopen\nt 0 2\nopen\nend\n";

#[test]
fn reads_numbers_best_and_tree(rt: HostRuntime) -> Result<(), Fail> {
    let Ok(read) = read(rt.alloc(), SPLIT)? else {
        return Err(Fail::new("the text was refused"));
    };
    assert!(rt; numbers(&read) == [2, 1, 10, 3]);
    assert!(rt; is_best(&read.best, 5, &[1, 0]));
    let whole = Counts {
        open: 2,
        closed: 1,
        split: 2,
        steps: 4,
    };
    assert!(rt; count_nodes(&read.tree) == whole);
    Ok(())
}

const FIRST: &[u8] =
    b"wcspcert 1\nnetwork 1 1 10\nlower 4\nbest none\ntree\nsplit 0 0\nopen\nclosed\nend\n";

#[test]
fn reads_the_first_version(rt: HostRuntime) -> Result<(), Fail> {
    let Ok(read) = read(rt.alloc(), FIRST)? else {
        return Err(Fail::new("the text was refused"));
    };
    assert!(rt; numbers(&read) == [1, 1, 10, 4]);
    assert!(rt; read.best.is_none());
    Ok(())
}

const BIG_STEP: &[u8] =
    b"wcspcert 2\nnetwork 1 1 10\nlower 0\nbest none\ntree\nsplit 0 0\nv 0 1\nv 4294967296 0\nu 0 1\nsplit 0 0\nclosed\nclosed\nclosed\nend\n";

#[test]
fn ends_a_block_at_a_big_number(rt: HostRuntime) -> Result<(), Fail> {
    let cut = Counts {
        open: 1,
        closed: 1,
        split: 1,
        steps: 1,
    };
    assert!(rt; counts_of(&rt, BIG_STEP)? == cut);
    Ok(())
}

const BIG_SPLIT: &[u8] =
    b"wcspcert 2\nnetwork 1 1 10\nlower 0\nbest none\ntree\nu 4294967295 9223372036854775807\npart 0 4294967296\nu 0 1\nclosed\nclosed\nend\n";

#[test]
fn ends_a_block_at_a_big_decision(rt: HostRuntime) -> Result<(), Fail> {
    let cut = Counts {
        open: 1,
        closed: 0,
        split: 0,
        steps: 1,
    };
    assert!(rt; counts_of(&rt, BIG_SPLIT)? == cut);
    Ok(())
}

#[test]
fn refuses_what_is_no_certificate(rt: HostRuntime) -> Result<(), Fail> {
    assert!(rt; refused_at(&rt, b"")? == Some(1));
    assert!(rt; refused_at(&rt, &SPLIT[..SPLIT.len() - 4])? == Some(16));
    assert!(rt;
        refused_at(
            &rt,
            b"wcspcert 1\nnetwork 1 1 10\nlower 0\nbest none\ntree\npart 0 0\n"
        )? == Some(6)
    );
    assert!(rt; refused_at(&rt, b"wcspcert 2\nnetwork 1 1 9223372036854775808\n")? == Some(2));
    assert!(rt; refused_at(&rt, SPLIT)? == None);
    Ok(())
}

/// A text with so many splits, each in the first side of the one before.
fn deep_text(rt: &HostRuntime, splits: u64) -> Result<Vec<u8>, AllocError> {
    let mut text = Vec::new(rt.alloc());
    text.extend_from_slice(b"wcspcert 2\nnetwork 1 1 10\nlower 0\nbest none\ntree\n")?;
    for _split in 0..splits {
        text.extend_from_slice(b"split 0 0\n")?;
    }
    for _leaf in 0..splits {
        text.extend_from_slice(b"open\n")?;
    }
    text.extend_from_slice(b"closed\nend\n")?;
    Ok(text)
}

#[test]
fn reads_nested_splits(rt: HostRuntime) -> Result<(), Fail> {
    let text = deep_text(&rt, 100000)?;
    let deep = Counts {
        open: 100000,
        closed: 1,
        split: 100000,
        steps: 0,
    };
    assert!(rt; counts_of(&rt, &text)? == deep);
    Ok(())
}
