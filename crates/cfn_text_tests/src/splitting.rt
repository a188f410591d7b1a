//! Tests of words and numbers.

use cfn_model::NumberFault;
use cfn_words::{Words, number};
use std::test::*;

/// The greatest number.
const GREATEST: i64 = 9_223_372_036_854_775_807;

/// Words, and the numbers that they are.
const NUMBERS: [(&[u8], Result<i64, NumberFault>); 15] = [
    (b"0", Ok(0)),
    (b"-0", Ok(0)),
    (b"0000000000000000000000000000042", Ok(42)),
    (b"-17", Ok(-17)),
    (b"9223372036854775807", Ok(GREATEST)),
    (b"-9223372036854775807", Ok(-GREATEST)),
    (b"9223372036854775808", Err(NumberFault::TooLarge)),
    (b"-9223372036854775808", Err(NumberFault::TooLarge)),
    (b"99999999999999999999999999", Err(NumberFault::TooLarge)),
    (b"", Err(NumberFault::NotNumber)),
    (b"-", Err(NumberFault::NotNumber)),
    (b"+1", Err(NumberFault::NotNumber)),
    (b"--1", Err(NumberFault::NotNumber)),
    (b"1-", Err(NumberFault::NotNumber)),
    (b"99999999999999999999999999x", Err(NumberFault::NotNumber)),
];

#[test]
fn numbers(rt: HostRuntime) {
    for (word, want) in NUMBERS {
        assert!(rt; number(word) == want);
    }
}

/// Whether the next words of a text start and end there, and have these ordinals.
fn has_next(words: &mut Words<'_>, expected: &[(usize, usize, u64)]) -> bool {
    for (start, end, ordinal) in expected {
        let is_next = match words.next() {
            Some(word) => word.start == *start && word.end == *end && word.ordinal == *ordinal,
            None => false,
        };
        if !is_next {
            return false;
        }
    }
    true
}

#[test]
fn words_between_white_space(rt: HostRuntime) {
    let mut words = Words::new(b"\t one\x0btwo\x0c\r\nthree four\0 ");
    let expected = [(2, 5, 1), (6, 9, 2), (12, 17, 3), (18, 23, 4)];
    assert!(rt; has_next(&mut words, &expected) && words.next().is_none());
    assert!(rt; words.next_ordinal() == 5 && words.text().len() == 24);
}
