//! Tests of lines of words.

ghost use Rattle.std.specs.Prelude.{◌≡◌, ◌≤◌, [], ◌∷◌};

use crate::given::writing_desk;
use cfn_desk::{Failed, MemoryDesk};
use cfn_line::{Channel, Word, send, write_line, write_list};
use std::alloc::{AllocError, Global};
use std::test::Fail;

const LONG: &str = "a-word-that-is-longer-than-a-piece";

/// What becomes of a line that is written into a file where these calls fail, and whether the file has these bytes then.
fn write_into_file(
    rt: &HostRuntime,
    words: &[Word],
    failing: &[u64],
    bytes: &[u8],
) -> Result<(Result<(), Failed>, bool), Fail> {
    let mut desk = writing_desk(rt, failing)?;
    let answer = write_line(Channel::File, words, &mut desk);
    Ok((answer, desk.out_bytes() == bytes))
}

/// A word is one put, and one that is longer than 31 bytes two.
#[test]
fn file_takes_a_word_at_a_time(rt: HostRuntime) -> Result<(), Fail> {
    let words = [
        Word::Name("u"),
        Word::Number(0),
        Word::Name(LONG),
        Word::Number(u64::MAX),
    ];
    let text = b"u 0 a-word-that-is-longer-than-a-piece 18446744073709551615\n";
    assert!(rt; write_into_file(&rt, &words, &[], text)? == (Ok(()), true));
    Ok(())
}

/// Each of the five puts of that line in turn fails, and there is no sixth.
#[test]
fn each_put_of_a_line_may_fail(rt: HostRuntime) -> Result<(), Fail> {
    let words = [
        Word::Name("u"),
        Word::Number(0),
        Word::Name(LONG),
        Word::Number(7),
    ];
    for failing in 2..7 {
        assert!(rt; write_into_file(&rt, &words, &[failing], b"")? == (Err(Failed), true));
    }
    let text = b"u 0 a-word-that-is-longer-than-a-piece 7\n";
    assert!(rt; write_into_file(&rt, &words, &[7], text)? == (Ok(()), true));
    Ok(())
}

/// Whether a list of 2,045 numbers is said as 4,095 bytes by the first call alone: the second fails.
fn is_one_say(alloc: Global) -> Result<bool, AllocError> {
    let mut desk = MemoryDesk::make(alloc, &[], 0, 8192, &[2])?;
    let short = [7; 2045];
    let first = write_list(Channel::Screen, "list", &short, &mut desk);
    let said = desk.said_bytes().len();
    let second = write_list(Channel::Screen, "list", &short, &mut desk);
    Ok(first == Ok(()) && said == 4095 && second == Err(Failed))
}

/// Whether a list of 3,000 numbers is said whole.
fn is_said_whole(alloc: Global) -> Result<bool, AllocError> {
    let mut desk = MemoryDesk::make(alloc, &[], 0, 8192, &[])?;
    let long = [7; 3000];
    let answer = write_list(Channel::Screen, "list", &long, &mut desk);
    let said = desk.said_bytes();
    Ok(answer == Ok(()) && said.len() == 6005 && said.ends_with(b"7 7\n"))
}

/// A line of at most 4,096 bytes is one say; a longer one is said in parts, and whole.
#[test]
fn screen_takes_a_line_at_a_time(rt: HostRuntime) -> Result<(), Fail> {
    assert!(rt; is_one_say(rt.alloc())?);
    assert!(rt; is_said_whole(rt.alloc())?);
    Ok(())
}

/// What becomes of a line of no words, and then of a byte, where the first say fails.
fn say_nothing(alloc: Global) -> Result<(Result<(), Failed>, Result<(), Failed>), AllocError> {
    let mut desk = MemoryDesk::make(alloc, &[], 0, 64, &[1])?;
    let line = write_line(Channel::Screen, &[], &mut desk);
    let byte = send(Channel::Screen, b"x", &mut desk);
    Ok((line, byte))
}

#[test]
fn no_words_are_no_line(rt: HostRuntime) -> Result<(), Fail> {
    assert!(rt; say_nothing(rt.alloc())? == (Ok(()), Err(Failed)));
    Ok(())
}
