//! Trees of hostile certificates of `TINY`.

/// A tree of a certificate that begins with `FRONT`, the lines of it that `rebase` keeps, and the kind and line of the fault that
/// `check` and `merge` name, or nothing where the certificate is good.
pub(crate) type Row = (
    &'static [&'static str],
    &'static [&'static str],
    &'static str,
);

/// Numbers of 2^32 and more. Cut to 32 bits each would be in range, and its step allowed.
pub(crate) const NUMBERS: [Row; 16] = [
    (
        &["p 4294967296 0 0 3", "p 0 0 1 1", "u 0 1", "closed"],
        &["open"],
        "range at 7",
    ),
    (
        &["p 0 4294967296 0 3", "p 0 0 1 1", "u 0 1", "closed"],
        &["open"],
        "range at 7",
    ),
    (
        &["p 0 0 0 3", "p 0 0 4294967297 1", "u 0 1", "closed"],
        &["p 0 0 0 3", "open"],
        "range at 8",
    ),
    (
        &["p 0 0 0 3", "e 0 0 4294967296 3", "p 0 0 0 3", "open"],
        &["p 0 0 0 3", "open"],
        "range at 8",
    ),
    (
        &["p 0 0 0 3", "p 0 0 1 1", "u 4294967296 1", "closed"],
        &["p 0 0 0 3", "p 0 0 1 1", "open"],
        "range at 9",
    ),
    (
        &[
            "p 0 0 0 3",
            "v 4294967296 0",
            "p 0 0 1 1",
            "u 0 1",
            "closed",
        ],
        &["p 0 0 0 3", "open"],
        "range at 8",
    ),
    (
        &[
            "p 0 0 0 3",
            "v 0 4294967296",
            "p 0 0 1 1",
            "u 0 1",
            "closed",
        ],
        &["p 0 0 0 3", "open"],
        "range at 8",
    ),
    (
        &[
            "t 4294967296 0",
            "p 0 0 0 3",
            "p 0 0 1 1",
            "u 0 1",
            "closed",
        ],
        &["open"],
        "range at 7",
    ),
    (
        &[
            "t 0 4294967296",
            "p 0 0 0 3",
            "p 0 0 1 1",
            "u 0 1",
            "closed",
        ],
        &["open"],
        "range at 7",
    ),
    // a split ends with its block, and all below it is left out
    (
        &[
            "split 4294967296 0",
            "p 0 0 0 3",
            "u 0 3",
            "closed",
            "p 0 0 1 1",
            "u 0 1",
            "closed",
        ],
        &["open"],
        "range at 7",
    ),
    (
        &[
            "split 0 4294967296",
            "p 0 0 0 3",
            "u 0 3",
            "closed",
            "p 0 0 1 1",
            "u 0 1",
            "closed",
        ],
        &["open"],
        "range at 7",
    ),
    (
        &[
            "part 4294967296 0",
            "p 0 0 0 3",
            "u 0 3",
            "closed",
            "p 0 0 1 1",
            "u 0 1",
            "closed",
        ],
        &["open"],
        "range at 7",
    ),
    (
        &[
            "part 0 4294967296",
            "p 0 0 0 3",
            "u 0 3",
            "closed",
            "p 0 0 1 1",
            "u 0 1",
            "closed",
        ],
        &["open"],
        "range at 7",
    ),
    (
        &[
            "p 0 0 0 3",
            "split 0 9223372036854775807",
            "split 9223372036854775807 0",
            "open",
            "open",
            "closed",
        ],
        &["p 0 0 0 3", "open"],
        "range at 8",
    ),
    // the other side of a split is kept
    (
        &[
            "p 0 0 0 3",
            "split 0 0",
            "u 4294967296 3",
            "closed",
            "p 0 0 1 1",
            "u 0 1",
            "closed",
        ],
        &[
            "p 0 0 0 3",
            "split 0 0",
            "open",
            "p 0 0 1 1",
            "u 0 1",
            "closed",
        ],
        "range at 9",
    ),
    (
        &[
            "p 0 0 0 3",
            "split 0 0",
            "u 0 3",
            "closed",
            "p 0 0 4294967297 1",
            "u 0 1",
            "closed",
        ],
        &["p 0 0 0 3", "split 0 0", "u 0 3", "closed", "open"],
        "range at 11",
    ),
];

/// Amounts that are not there, and sums beyond 2^64 and below 0 where a value is not live.
pub(crate) const SUMS: [Row; 5] = [
    (
        &[
            "p 0 0 0 9223372036854775807",
            "p 0 0 1 1",
            "u 0 1",
            "closed",
        ],
        &["open"],
        "project at 7",
    ),
    (
        &[
            "p 0 0 0 3",
            "p 0 0 1 1",
            "u 0 9223372036854775807",
            "closed",
        ],
        &["p 0 0 0 3", "p 0 0 1 1", "open"],
        "lift at 9",
    ),
    (
        &[
            "p 0 0 0 3",
            "v 0 0",
            "e 0 0 0 9223372036854775807",
            "e 0 0 0 9223372036854775807",
            "e 0 0 0 9223372036854775807",
            "p 0 0 1 1",
            "u 0 1",
            "closed",
        ],
        &[
            "p 0 0 0 3",
            "v 0 0",
            "e 0 0 0 9223372036854775807",
            "e 0 0 0 9223372036854775807",
            "e 0 0 0 9223372036854775807",
            "p 0 0 1 1",
            "u 0 1",
            "closed",
        ],
        "",
    ),
    // the value that is cut has less than 0, so that it may not be cut again; its tuple has more than 2^64, and may be
    (
        &[
            "p 0 0 0 3",
            "v 0 0",
            "e 0 0 0 9223372036854775807",
            "e 0 0 0 9223372036854775807",
            "e 0 0 0 9223372036854775807",
            "v 0 0",
            "p 0 0 1 1",
            "u 0 1",
            "closed",
        ],
        &[
            "p 0 0 0 3",
            "v 0 0",
            "e 0 0 0 9223372036854775807",
            "e 0 0 0 9223372036854775807",
            "e 0 0 0 9223372036854775807",
            "open",
        ],
        "cut at 12",
    ),
    (
        &[
            "p 0 0 0 3",
            "v 0 0",
            "e 0 0 0 9223372036854775807",
            "e 0 0 0 9223372036854775807",
            "e 0 0 0 9223372036854775807",
            "t 0 0",
            "p 0 0 1 1",
            "u 0 1",
            "closed",
        ],
        &[
            "p 0 0 0 3",
            "v 0 0",
            "e 0 0 0 9223372036854775807",
            "e 0 0 0 9223372036854775807",
            "e 0 0 0 9223372036854775807",
            "t 0 0",
            "p 0 0 1 1",
            "u 0 1",
            "closed",
        ],
        "",
    ),
];

/// A network without an assignment below its upper bound. Its second function has a variable of the first, and costs nothing.
pub(crate) const HARD: &[u8] = b"hard 2 2 2 5\n2 2\n2 0 1 5 0\n1 0 0 0\n";

/// The lines of a certificate of `HARD` in front of its tree.
pub(crate) const HARD_FRONT: [&str; 5] = [
    "wcspcert 2",
    "network 2 2 5",
    "lower 0",
    "best none",
    "tree",
];

/// Trees of good certificates of `HARD`, and what `rebase` keeps of them: a block ends before the step that leaves 2^64 or more
/// with a live value, or with a live tuple. The floor may be as high.
pub(crate) const HARD_SUMS: [Row; 3] = [
    (
        &[
            "p 0 0 0 9223372036854775807",
            "p 0 0 0 9223372036854775807",
            "p 0 0 0 9223372036854775807",
            "p 0 0 1 9223372036854775807",
            "p 0 0 1 9223372036854775807",
            "p 0 0 1 9223372036854775807",
            "u 0 9223372036854775807",
            "u 0 9223372036854775807",
            "u 0 9223372036854775807",
            "closed",
        ],
        &[
            "p 0 0 0 9223372036854775807",
            "p 0 0 0 9223372036854775807",
            "open",
        ],
        "",
    ),
    (
        &[
            "p 0 0 0 9223372036854775807",
            "e 1 0 0 9223372036854775807",
            "p 0 0 0 9223372036854775807",
            "e 1 0 0 9223372036854775807",
            "p 0 0 0 9223372036854775807",
            "e 1 0 0 9223372036854775807",
            "open",
        ],
        &[
            "p 0 0 0 9223372036854775807",
            "e 1 0 0 9223372036854775807",
            "p 0 0 0 9223372036854775807",
            "e 1 0 0 9223372036854775807",
            "p 0 0 0 9223372036854775807",
            "open",
        ],
        "",
    ),
    (
        &[
            "p 0 0 0 9223372036854775807",
            "p 0 0 1 9223372036854775807",
            "u 0 9223372036854775807",
            "p 0 0 0 9223372036854775807",
            "p 0 0 1 9223372036854775807",
            "u 0 9223372036854775807",
            "p 0 0 0 9223372036854775807",
            "p 0 0 1 9223372036854775807",
            "u 0 9223372036854775807",
            "closed",
        ],
        &[
            "p 0 0 0 9223372036854775807",
            "p 0 0 1 9223372036854775807",
            "u 0 9223372036854775807",
            "p 0 0 0 9223372036854775807",
            "p 0 0 1 9223372036854775807",
            "u 0 9223372036854775807",
            "p 0 0 0 9223372036854775807",
            "p 0 0 1 9223372036854775807",
            "u 0 9223372036854775807",
            "closed",
        ],
        "",
    ),
];
