//! Bytes that are gathered for the screen, and sent in one call where they have room.

ghost use Rattle.std.specs.Prelude.{◌≡◌, ◌+◌, ◌≤◌, [], ◌∷◌, ◌++◌, length};
ghost use Rattle.cfn_line.specs.Appending.{Adds, Appends};
ghost use Rattle.cfn_line.specs.declared.channel.Channel.TheVariants.{Screen};

use crate::channel::{Channel, send};
use cfn_desk::{Desk, Failed};
use std::marker::Model;

/// How many bytes may wait to be said.
const ROOM: usize = 4096;

/// Bytes that wait to be said, at most 4,096 of them.
#[derive(Drop)]
pub struct Line {
    bytes: [u8; ROOM],
    len: usize,
}

impl Model for Line {
    ghost use Rattle.std.specs.Prelude.{ℕ, ◌≤◌, List, take};

    ghost Value = { List ℕ };

    ghost view = { λ line. take line.len line.bytes };

    ghost invariant = { λ line. line.len ≤ 4096 };
}

impl Line {
    /// Nothing waits.
    pub fn new() -> Line
        ensures { result ≡ [] }
    {
        Line {
            bytes: [0; ROOM],
            len: 0,
        }
    }

    /// How many more bytes may wait.
    fn room(&self) -> usize
        ensures { result + length self.now ≡ 4096 }
    {
        ROOM - self.len
    }

    /// Keeps bytes behind those that wait.
    fn keep(&mut self, bytes: &[u8])
        requires { length self.old + length bytes.now ≤ 4096 }
        ensures { self.new ≡ self.old ++ bytes.now }
    {
        let end = self.len + bytes.len();
        self.bytes[self.len..end].copy_from_slice(bytes);
        self.len = end;
    }

    /// Says what waits, and then nothing waits. After an `Err` some front of it was said.
    pub fn say<D: Desk>(&mut self, desk: &mut D) -> Result<(), Failed>
        ensures sent { Appends Screen (D.outside desk.old) self.old result (D.outside desk.new) }
        ensures emptied { self.new ≡ [] }
    {
        let sent = send(Channel::Screen, &self.bytes[..self.len], desk);
        self.len = 0;
        sent
    }

    /// Adds bytes. Where they do not fit, what waits is said, and then they are. An `Err` is one call of the desk that
    /// failed, behind a front of both.
    pub fn add<D: Desk>(&mut self, bytes: &[u8], desk: &mut D) -> Result<(), Failed>
        ensures { Adds (D.outside desk.old) self.old bytes.now result (D.outside desk.new) self.new }
    {
        if bytes.len() <= self.room() {
            self.keep(bytes);
            return Ok(());
        }
        self.say(desk)?;
        send(Channel::Screen, bytes, desk)
    }
}
