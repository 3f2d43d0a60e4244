//! A connection in memory.
ghost use Rattle.std.specs.Prelude.{◌≡◌, ◌⊎◌, ◌+◌, ◌*◌, ◌^◌, ◌<◌, ◌≤◌, ◌++◌, ◌||◌, true, false, [], length, take, drop, min, is_some, if◌then◌else◌};
ghost use Rattle.connections.specs.Connection.{new_connection, readable, after_change, after_read, after_write, after_ask, after_close};
ghost use Rattle.connections.specs.State.{is_under};
ghost use Rattle.memory_connections.specs.MemoryConnection.{IsSilent};

use connections::{Broken, Change, Input};
use std::marker::Model;

/// A connection over what its peer sends, all of which lies there beforehand.
#[derive(Drop)]
pub struct MemConnection<'a> {
    number: u32,
    /// What no read gave yet: so many bytes of it came and wait, the others are to come.
    unread: &'a [u8],
    came: usize,
    window: usize,
    asks: usize,
    ended: bool,
    broken: bool,
    closed: bool,
}

impl<'a> Model for MemConnection<'a> {
    ghost use Rattle.std.specs.Prelude.{◌≤◌, take, drop, length};
    ghost use Rattle.connections.specs.Connection.{Connection};

    ghost Value = { Connection };

    ghost view = { λ c. record {
      number = c.number;
      to_come = drop c.came c.unread.now;
      waiting = take c.came c.unread.now;
      window = c.window;
      asks = c.asks;
      has_ended = c.ended;
      is_broken = c.broken;
      is_closed = c.closed;
    } };

    ghost invariant = { λ c. c.came ≤ length c.unread.now };
}

/// What is unread after a change, and how much of it waits.
fn changed<'a>(unread: &'a [u8], came: usize, change: &Change) -> (&'a [u8], usize)
    requires { came ≤ length unread.now }
    ensures within { result.1 ≤ length result.0.now }
    ensures waiting { take result.1 result.0.now
        ≡ readable change.now.breaks (take came unread.now ++ take change.now.comes (drop came unread.now)) }
    ensures to_come { drop result.1 result.0.now
        ≡ (if change.now.ends || is_some change.now.breaks then [] else drop change.now.comes (drop came unread.now)) }
{
    let all = came + (unread.len() - came).min(change.comes as usize);
    match change.breaks {
        Some(count) => {
            let kept = all.min(count as usize);
            (&unread[..kept], kept)
        }
        None if change.ends => (&unread[..all], all),
        None => (unread, all),
    }
}

impl<'a> MemConnection<'a> {
    /// A connection as it is made: all that its peer sends is to come.
    pub fn new(number: u32, window: u32, bytes: &'a [u8]) -> Self
        ensures { result ≡ new_connection number window bytes.now }
    {
        MemConnection {
            number,
            unread: bytes,
            came: 0,
            window: window as usize,
            asks: 0,
            ended: false,
            broken: false,
            closed: false,
        }
    }

    /// The number that the connection is under.
    pub fn number(&self) -> u32
        ensures { result ≡ self.now.number }
    {
        self.number
    }

    /// Whether it is open under this number.
    pub fn is_under(&self, number: u32) -> bool
        ensures { result ≡ is_under number self.now }
    {
        self.number == number && !self.closed
    }

    /// How many bytes wait.
    pub fn waiting(&self) -> usize
        ensures { result ≡ length self.now.waiting }
    {
        self.came
    }

    /// How many bytes writes take now.
    pub fn window(&self) -> usize
        ensures { result ≡ self.now.window }
    {
        self.window
    }

    /// Whether it is broken.
    pub fn is_broken(&self) -> bool
        ensures { result ≡ self.now.is_broken }
    {
        self.broken
    }

    /// Whether a read of so many bytes at most leaves nothing, and more may come.
    pub fn is_emptied(&self, most: usize) -> bool
        ensures all { result ≡ true → (length self.now.waiting ≤ most) × (self.now.is_broken ≡ false) × (self.now.has_ended ≡ false) }
        ensures not_all { result ≡ false → (most < length self.now.waiting) ⊎ (self.now.is_broken ≡ true) ⊎ (self.now.has_ended ≡ true) }
    {
        self.came <= most && !self.broken && !self.ended
    }

    /// What a read answers where nothing waits.
    pub fn silence(&self) -> Result<Input, Broken>
        ensures { IsSilent self.now result }
    {
        if self.broken {
            Err(Broken)
        } else if self.ended {
            Ok(Input::Ended)
        } else {
            Ok(Input::Later)
        }
    }

    /// Lets its peer do something.
    pub fn change(&mut self, change: &Change)
        requires { self.old.window + change.now.takes < 2 ^ 64 }
        ensures { self.new ≡ after_change change.now self.old }
    {
        let (unread, came) = changed(self.unread, self.came, change);
        self.unread = unread;
        self.came = came;
        self.window += change.takes as usize;
        self.ended = self.ended | change.ends;
        self.broken = self.broken | change.breaks.is_some();
    }

    /// Takes what waits, up to so many bytes.
    pub fn take(&mut self, most: usize) -> &'a [u8]
        requires { self.old.asks + 2 * min (length self.old.waiting) most < 2 ^ 64 }
        ensures given { result.now ≡ take (min (length self.old.waiting) most) self.old.waiting }
        ensures count { length result.now ≡ min (length self.old.waiting) most }
        ensures after { self.new ≡ after_read (min (length self.old.waiting) most) self.old }
    {
        let count = self.came.min(most);
        let (given, unread) = self.unread.split_at(count);
        self.unread = unread;
        self.came -= count;
        self.asks += 2 * count;
        given
    }

    /// A write took so many bytes.
    pub fn narrow(&mut self, count: usize)
        requires { count ≤ self.old.window }
        ensures { self.new ≡ after_write count self.old }
    {
        self.window -= count;
    }

    /// Counts one asked report less.
    pub fn ask(&mut self)
        requires { 0 < self.old.asks }
        ensures { self.new ≡ after_ask self.old }
    {
        self.asks -= 1;
    }

    /// Closes it.
    pub fn close(&mut self)
        ensures { self.new ≡ after_close self.old }
    {
        self.closed = true;
    }
}
