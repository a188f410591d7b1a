//! Bytes that are gathered for the file, so that many lines are put by one call.

ghost use Rattle.std.specs.Prelude.{◌≡◌, ◌+◌, ◌<◌, ◌≤◌, [], ◌∷◌, ◌++◌, decimal, length, take, OnOk};
ghost use Rattle.cfn_model.specs.Text.{line};
ghost use Rattle.cfn_desk.specs.Outside.{IsWriting};
ghost use Rattle.cfn_line.specs.Appending.{Appends};
ghost use Rattle.cfn_line.specs.declared.channel.Channel.TheVariants.{File};
ghost use Rattle.cfn_certwrite.specs.Batches.{Gathers};

use cfn_desk::{Desk, Failed};
use cfn_line::{Channel, send, two_digits};
use itoa::write_digits;
use std::marker::Model;

/// How many bytes may wait to be put.
const ROOM: usize = 4096;

/// How many bytes a line may have.
const LINE_ROOM: usize = 96;

/// The most digits of a number of 64 bits.
const DIGITS: usize = 20;

/// What stands behind a word that is not the last one of its line.
const SPACE: u8 = b' ';

/// What stands behind the last word of a line.
const LF: u8 = b'\n';

/// Bytes that wait to be put, at most 4,096 of them. Contracts see the list of them.
#[derive(Drop)]
pub(crate) struct Batch {
    bytes: [u8; ROOM],
    len: usize,
}

impl Model for Batch {
    ghost use Rattle.std.specs.Prelude.{ℕ, ◌≤◌, List, take};

    ghost Value = { List ℕ };

    ghost view = { λ batch. take batch.len batch.bytes };

    ghost invariant = { λ batch. batch.len ≤ 4096 };
}

impl Batch {
    /// Nothing waits.
    pub(crate) fn new() -> Batch
        ensures { result ≡ [] }
    {
        Batch {
            bytes: [0; ROOM],
            len: 0,
        }
    }

    /// Puts what waits, by one call, and then nothing waits. After an `Err` some front of it was put.
    #[inline(never)]
    pub(crate) fn flush<D: Desk>(&mut self, desk: &mut D) -> Result<(), Failed>
        requires { IsWriting (D.outside desk.old).calls }
        ensures put { Appends File (D.outside desk.old) self.old result (D.outside desk.new) }
        ensures emptied { self.new ≡ [] }
    {
        let sent = send(Channel::File, &self.bytes[..self.len], desk);
        self.len = 0;
        sent
    }

    /// Makes room for a line: where it might not fit behind what waits, that is put. An `Err` is a put that failed.
    #[inline(always)]
    pub(crate) fn make_room<D: Desk>(&mut self, desk: &mut D) -> Result<(), Failed>
        requires { IsWriting (D.outside desk.old).calls }
        ensures put { Gathers (D.outside desk.old) self.old result (D.outside desk.new) self.new }
        ensures room { OnOk result (length self.new + 96 ≤ 4096) }
    {
        if self.len > ROOM - LINE_ROOM {
            return self.flush(desk);
        }
        Ok(())
    }

    /// Keeps bytes behind those that wait.
    #[inline(always)]
    pub(crate) fn add(&mut self, bytes: &[u8])
        requires { length self.old + length bytes.now ≤ 4096 }
        ensures { self.new ≡ self.old ++ bytes.now }
    {
        self.len = write(&mut self.bytes, self.len, bytes);
    }

    /// Keeps the line of a letter and four numbers, of at most 86 bytes.
    #[inline(always)]
    pub(crate) fn add_four(&mut self, letter: u8, first: u64, second: u64, third: u64, fourth: u64)
        requires { length self.old + 96 ≤ 4096 }
        ensures { self.new ≡ self.old
            ++ line ((letter ∷ []) ∷ decimal first ∷ decimal second ∷ decimal third ∷ decimal fourth ∷ []) }
    {
        let at = write(&mut self.bytes, self.len, &[letter, SPACE]);
        let at = write_number(&mut self.bytes, at, first, SPACE);
        let at = write_number(&mut self.bytes, at, second, SPACE);
        let at = write_number(&mut self.bytes, at, third, SPACE);
        self.len = write_number(&mut self.bytes, at, fourth, LF);
    }

    /// Keeps the line of a name and two numbers, of at most 48 bytes. The name comes with the space behind it.
    #[inline(always)]
    pub(crate) fn add_two(&mut self, name: &[u8], first: u64, second: u64)
        requires room { length self.old + 96 ≤ 4096 }
        requires short { length name.now ≤ 6 }
        ensures { self.new ≡ self.old ++ name.now ++ line (decimal first ∷ decimal second ∷ []) }
    {
        let at = write(&mut self.bytes, self.len, name);
        let at = write_number(&mut self.bytes, at, first, SPACE);
        self.len = write_number(&mut self.bytes, at, second, LF);
    }
}

/// Writes bytes at a place, and answers the place behind them.
#[inline(always)]
fn write(room: &mut [u8], at: usize, bytes: &[u8]) -> usize
    requires { at + length bytes.now ≤ length room.old }
    ensures end { result ≡ at + length bytes.now }
    ensures is { take result room.new ≡ take at room.old ++ bytes.now }
    ensures room { length room.new ≡ length room.old }
{
    let end = at + bytes.len();
    room[at..end].copy_from_slice(bytes);
    end
}

/// Writes a number's digits at a place, and the byte behind them: 21 bytes at most. It answers the place behind that.
#[inline(always)]
fn write_number(room: &mut [u8], at: usize, number: u64, end: u8) -> usize
    requires { at + 21 ≤ length room.old }
    ensures few { result ≤ at + 21 }
    ensures is { take result room.new ≡ take at room.old ++ decimal number ++ end ∷ [] }
    ensures room { length room.new ≡ length room.old }
{
    if number < 10 {
        return write(room, at, &[b'0' + number as u8, end]);
    }
    if number < 100 {
        let [tens, ones] = two_digits(number);
        return write(room, at, &[tens, ones, end]);
    }
    write_long(room, at, number, end)
}

/// The same for a number of any size.
#[inline(never)]
fn write_long(room: &mut [u8], at: usize, number: u64, end: u8) -> usize
    requires { at + 21 ≤ length room.old }
    ensures few { result ≤ at + 21 }
    ensures is { take result room.new ≡ take at room.old ++ decimal number ++ end ∷ [] }
    ensures room { length room.new ≡ length room.old }
{
    let mut piece = [end; DIGITS + 1];
    let start = write_digits(number, &mut piece, DIGITS);
    write(room, at, &piece[start..])
}
