//! The words of a line, and each with the byte behind it.

ghost use Rattle.std.specs.Prelude.{◌≡◌, ◌+◌, ◌<◌, ◌≤◌, [], ◌∷◌, ◌++◌, decimal, length, take};
ghost use Rattle.cfn_line.specs.Appending.{Adds, Appends, IsOpen};
ghost use Rattle.cfn_line.specs.Words.{word_text};
ghost use Rattle.cfn_line.specs.declared.channel.Channel.TheVariants.{File};

use crate::channel::{Channel, send};
use crate::digits::two_digits;
use crate::waiting::Line;
use cfn_desk::{Desk, Failed};
use itoa::write_digits;

/// The most digits of a number of 64 bits.
const DIGITS: usize = 20;

/// How many bytes a fixed word and the byte behind it may have to go into a file by one call.
const PIECE_ROOM: usize = 32;

/// A word of a line.
#[derive(Clone, Copy)]
pub enum Word {
    /// A fixed word.
    Name(&'static str),
    /// A number, in decimal digits.
    Number(u64),
}

/// What stands in a line as a word.
pub trait AsWord {
    ghost use Rattle.std.specs.Prelude.{◌≡◌, ℕ, List};
    ghost use Rattle.cfn_line.specs.Words.{word_text};

    /// The bytes of the word.
    ghost bytes: { Self → List ℕ };

    /// The word.
    fn as_word(&self) -> Word
        ensures { word_text result ≡ bytes self.now };
}

impl AsWord for Word {
    ghost use Rattle.cfn_line.specs.Words.{word_text};

    ghost bytes = { word_text };

    fn as_word(&self) -> Word {
        *self
    }
}

impl AsWord for u32 {
    ghost use Rattle.std.specs.Prelude.{decimal};

    ghost bytes = { decimal };

    fn as_word(&self) -> Word {
        Word::Number(u64::from(*self))
    }
}

/// Puts a word and the byte behind it into the file being written, in one call where a fixed word has at most 31 bytes.
#[inline(always)]
pub fn put_word<D: Desk>(word: Word, end: u8, desk: &mut D) -> Result<(), Failed>
    requires { IsOpen File (D.outside desk.old).calls }
    ensures { Appends File (D.outside desk.old) (word_text word ++ end ∷ []) result
        (D.outside desk.new) }
{
    match word {
        Word::Name(name) => put_name(name.as_bytes(), end, desk),
        Word::Number(number) => put_number(number, end, desk),
    }
}

/// Puts a fixed word and the byte behind it.
#[inline(always)]
fn put_name<D: Desk>(name: &[u8], end: u8, desk: &mut D) -> Result<(), Failed>
    requires { IsOpen File (D.outside desk.old).calls }
    ensures { Appends File (D.outside desk.old) (name.now ++ end ∷ []) result
        (D.outside desk.new) }
{
    if let [letter] = name {
        return send(Channel::File, &[*letter, end], desk);
    }
    if name.len() >= PIECE_ROOM {
        return put_both(name, end, desk);
    }
    let piece = joined(name, end);
    send(Channel::File, &piece[..name.len() + 1], desk)
}

/// Bytes and the byte behind them, with more of that byte up to the room.
#[inline(always)]
fn joined(name: &[u8], end: u8) -> [u8; PIECE_ROOM]
    requires { length name.now < 32 }
    ensures { take (length name.now + 1) result ≡ name.now ++ end ∷ [] }
{
    let mut piece = [end; PIECE_ROOM];
    piece[..name.len()].copy_from_slice(name);
    piece
}

/// Puts bytes, and then the byte behind them.
#[inline(never)]
fn put_both<D: Desk>(name: &[u8], end: u8, desk: &mut D) -> Result<(), Failed>
    requires { IsOpen File (D.outside desk.old).calls }
    ensures { Appends File (D.outside desk.old) (name.now ++ end ∷ []) result
        (D.outside desk.new) }
{
    send(Channel::File, name, desk)?;
    send(Channel::File, &[end], desk)
}

/// Puts a number and the byte behind it, in one call.
#[inline(always)]
fn put_number<D: Desk>(number: u64, end: u8, desk: &mut D) -> Result<(), Failed>
    requires { IsOpen File (D.outside desk.old).calls }
    ensures { Appends File (D.outside desk.old) (decimal number ++ end ∷ []) result
        (D.outside desk.new) }
{
    if number < 10 {
        return send(Channel::File, &[b'0' + number as u8, end], desk);
    }
    if number < 100 {
        let [tens, ones] = two_digits(number);
        return send(Channel::File, &[tens, ones, end], desk);
    }
    put_long(number, end, desk)
}

/// The same of a number of any size.
#[inline(never)]
fn put_long<D: Desk>(number: u64, end: u8, desk: &mut D) -> Result<(), Failed>
    requires { IsOpen File (D.outside desk.old).calls }
    ensures { Appends File (D.outside desk.old) (decimal number ++ end ∷ []) result
        (D.outside desk.new) }
{
    let mut piece = [end; DIGITS + 1];
    let start = write_digits(number, &mut piece, DIGITS);
    send(Channel::File, &piece[start..], desk)
}

/// Adds a word and the byte behind it to the bytes that wait for the screen. An `Err` is one call of the desk that
/// failed, behind a front of what waited and of the word.
pub fn add_word<D: Desk>(into: &mut Line, word: Word, end: u8, desk: &mut D) -> Result<(), Failed>
    ensures { Adds (D.outside desk.old) into.old (word_text word ++ end ∷ []) result
        (D.outside desk.new) into.new }
{
    match word {
        Word::Name(name) => add_name(into, name.as_bytes(), end, desk),
        Word::Number(number) => add_number(into, number, end, desk),
    }
}

/// Adds a fixed word and the byte behind it.
fn add_name<D: Desk>(into: &mut Line, name: &[u8], end: u8, desk: &mut D) -> Result<(), Failed>
    ensures { Adds (D.outside desk.old) into.old (name.now ++ end ∷ []) result
        (D.outside desk.new) into.new }
{
    into.add(name, desk)?;
    into.add(&[end], desk)
}

/// Adds a number and the byte behind it.
fn add_number<D: Desk>(into: &mut Line, number: u64, end: u8, desk: &mut D) -> Result<(), Failed>
    ensures { Adds (D.outside desk.old) into.old (decimal number ++ end ∷ []) result
        (D.outside desk.new) into.new }
{
    let mut piece = [end; DIGITS + 1];
    let start = write_digits(number, &mut piece, DIGITS);
    into.add(&piece[start..], desk)
}
