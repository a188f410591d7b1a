//! Texts of certificates, line by line, and of what is said of them.

use std::alloc::{AllocError, Global};

/// The lines of a certificate of `TINY` in front of its tree, with its optimum.
pub(crate) const FRONT: [&str; 6] = [
    "wcspcert 2",
    "network 1 1 10",
    "lower 1",
    "best 1",
    "values 1",
    "tree",
];

/// The tree of a good certificate of `TINY`.
pub(crate) const TREE: [&str; 4] = ["p 0 0 0 3", "p 0 0 1 1", "u 0 1", "closed"];

/// A good certificate of `TINY`: the lines of `FRONT`, those of `TREE`, and the end.
pub(crate) const GOOD: &[u8] =
    b"wcspcert 2\nnetwork 1 1 10\nlower 1\nbest 1\nvalues 1\ntree\np 0 0 0 3\np 0 0 1 1\nu 0 1\nclosed\nend\n";

/// Adds lines, each with its end.
fn add_lines(text: &mut Vec<u8>, lines: &[&str]) -> Result<(), AllocError> {
    for line in lines {
        text.extend_from_slice(line.as_bytes())?;
        text.push(b'\n')?;
    }
    Ok(())
}

/// The text of a certificate: the lines in front of its tree, those of its tree, and the end.
pub(crate) fn text_of(alloc: Global, front: &[&str], tree: &[&str]) -> Result<Vec<u8>, AllocError> {
    let mut text = Vec::new(alloc);
    add_lines(&mut text, front)?;
    add_lines(&mut text, tree)?;
    add_lines(&mut text, &["end"])?;
    Ok(text)
}

/// What is said of a line that does not follow the grammar, and what stands behind its number. The number is below 100.
pub(crate) fn text_fault(alloc: Global, line: u8, behind: &str) -> Result<String, AllocError> {
    format!(in alloc; "refused text at {line}{behind}\n")
}

/// The good certificate with another line in the place of one, counted from 1.
pub(crate) fn changed(alloc: Global, place: u8, line: &str) -> Result<Vec<u8>, AllocError> {
    let mut text = Vec::new(alloc);
    let mut number: u8 = 1;
    for old in GOOD.split(|byte| *byte == b'\n').take(11) {
        let new = if number == place {
            line.as_bytes()
        } else {
            old
        };
        text.extend_from_slice(new)?;
        text.push(b'\n')?;
        number = number.saturating_add(1);
    }
    Ok(text)
}

/// The number of the line that is next behind these bytes, or that they end in: at most 255.
pub(crate) fn lines_before(bytes: &[u8]) -> u8 {
    let mut line: u8 = 1;
    for byte in bytes {
        if *byte == b'\n' {
            line = line.saturating_add(1);
        }
    }
    line
}
