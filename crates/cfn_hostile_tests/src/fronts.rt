//! Certificates of `TINY` that are hostile in front of their tree, and texts that spell none.

/// The lines in front of the tree of a good certificate, the lines in front of what `rebase` keeps, that the last node is then a
/// closed leaf, and the kind and line of the fault that `check` and `merge` name.
pub(crate) type Head = (
    &'static [&'static str],
    &'static [&'static str],
    bool,
    &'static str,
);

/// What is kept where no best assignment is.
const NO_BEST: [&str; 5] = [
    "wcspcert 2",
    "network 1 1 10",
    "lower 1",
    "best none",
    "tree",
];

/// What is kept where the best assignment has its cost in the file.
const BEST: [&str; 6] = [
    "wcspcert 2",
    "network 1 1 10",
    "lower 1",
    "best 1",
    "values 1",
    "tree",
];

pub(crate) const HEADS: [Head; 9] = [
    // of the numbers in front of the tree none is looked at
    (
        &[
            "wcspcert 2",
            "network 9223372036854775807 4294967296 0",
            "lower 9223372036854775807",
            "best 9223372036854775807",
            "values 1",
            "tree",
        ],
        &BEST,
        true,
        "network at 2",
    ),
    (
        &[
            "wcspcert 2",
            "network 1 1 10",
            "lower 9223372036854775807",
            "best 1",
            "values 1",
            "tree",
        ],
        &BEST,
        true,
        "lower at 3",
    ),
    (
        &[
            "wcspcert 2",
            "network 1 1 10",
            "lower 1",
            "best 9223372036854775807",
            "values 1",
            "tree",
        ],
        &BEST,
        true,
        "best at 4",
    ),
    // an assignment that fits has its cost in the file
    (
        &[
            "wcspcert 2",
            "network 1 1 10",
            "lower 1",
            "best 0",
            "values 1",
            "tree",
        ],
        &BEST,
        true,
        "best at 5",
    ),
    (
        &[
            "wcspcert 2",
            "network 1 1 10",
            "lower 1",
            "best 1",
            "values 0",
            "tree",
        ],
        &[
            "wcspcert 2",
            "network 1 1 10",
            "lower 1",
            "best 3",
            "values 0",
            "tree",
        ],
        false,
        "best at 5",
    ),
    // another is none
    (
        &[
            "wcspcert 2",
            "network 1 1 10",
            "lower 1",
            "best 1",
            "values 2",
            "tree",
        ],
        &NO_BEST,
        false,
        "best at 5",
    ),
    (
        &[
            "wcspcert 2",
            "network 1 1 10",
            "lower 1",
            "best 1",
            "values 4294967297",
            "tree",
        ],
        &NO_BEST,
        false,
        "best at 5",
    ),
    (
        &[
            "wcspcert 2",
            "network 1 1 10",
            "lower 1",
            "best 1",
            "values 1 1",
            "tree",
        ],
        &NO_BEST,
        false,
        "best at 5",
    ),
    (&NO_BEST, &NO_BEST, false, "close at 9"),
];

/// Texts that spell no certificate, since a number is beyond 2^63, of which some would be good numbers if they were cut to 64 bits,
/// or below 0, or no number: a line of the good certificate, counted from 1, and what stands in its place.
pub(crate) const TEXTS: [(u8, &str); 9] = [
    (1, "wcspcert 18446744073709551618"),
    (2, "network 18446744073709551617 1 10"),
    (3, "lower 18446744073709551617"),
    (4, "best 9223372036854775808"),
    (5, "values 18446744073709551617"),
    (7, "p 0 0 0 9223372036854775808"),
    (7, "p 0 0 0 18446744073709551619"),
    (8, "p 0 0 -1 1"),
    (9, "u 0 0"),
];
