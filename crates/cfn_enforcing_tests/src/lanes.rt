//! Loops over rows of words.

ghost use Rattle.std.specs.Prelude.{◌≡◌, length};

use cfn_scan::{Row, least, least_below, least_difference, least_open, put_on, take_off, zeros};
use std::test::*;

/// What `least_open` finds in the row of these, below a bound of 100, with 1 taken off each.
fn found(entries: &[u64], shifted: &[u64], cut: &[bool]) -> Option<(usize, u64)>
    requires shifted { length shifted.now ≡ length entries.now }
    requires cut { length cut.now ≡ length entries.now }
{
    let row = Row {
        entries,
        shifted,
        cut,
        own: 1,
        bound: 100,
    };
    let found = least_open(&row)?;
    Some((found.place, found.word))
}

#[test]
fn least_of_words_of_any_number(rt: HostRuntime) -> Result<(), Fail> {
    assert!(rt; least(&[]) == None);
    assert!(rt; least(&[7, 3, u64::MAX, 3]) == Some(3));
    assert!(rt; zeros(&[0, 1, 0, 0]) == 3);
    assert!(rt; zeros(&[]) == 0);
    Ok(())
}

#[test]
fn amounts_wrap(rt: HostRuntime) -> Result<(), Fail> {
    let mut words = [0, 5, u64::MAX];
    put_on(&mut words, 2);
    assert!(rt; words == [2, 7, 1]);
    take_off(&mut words, 3);
    assert!(rt; words == [u64::MAX, 4, u64::MAX - 1]);
    Ok(())
}

#[test]
fn least_of_what_is_open(rt: HostRuntime) -> Result<(), Fail> {
    assert!(rt; least_difference(&[5, 0], &[4, 1]) == Some(1));
    assert!(rt; least_below(&[5, 9, 3], &[4, 9, 0], 9) == Some(1));
    assert!(rt; least_below(&[5, 9], &[0, 0], 5) == None);
    assert!(rt; found(&[5, 100, 4, 4], &[0, 0, 1, 1], &[false; 4]) == Some((2, 2)));
    assert!(rt; found(&[5, 100, 4, 4], &[0, 0, 1, 1], &[false, false, true, true]) == Some((0, 4)));
    assert!(rt; found(&[5, 3], &[4, 0], &[false; 2]) == Some((0, 0)));
    assert!(rt; found(&[100], &[0], &[false]) == None);
    Ok(())
}
