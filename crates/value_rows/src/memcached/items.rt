//! What memcached's commands make of an item, sent as a client's bytes, with what is answered.
ghost use Rattle.std.specs.Prelude.{IfSome, option_copied};
ghost use Rattle.memcached_text.specs.Fit.{IsFitNext};
ghost use Rattle.memcached_commands.specs.Fit.{IsFitAsk, IsFitStored};

use crate::text::{number, text_of};
use fronts::{Flush, Flushes};
use memcached_commands::{
    Ask, Asked, Asks, Moment, change_stored, found_in, put_answer, says_of, wants_numbers,
};
use memcached_text::{Command, Due, Next, Reply, fault_line, next_command, read_item, reply_line};
use mica_trace::split_at_byte;
use outside::NoMemory;
use partition_model::{Change, ItemBuf};
use std::alloc::Global;

/// The second at which each row begins.
const START: u64 = 2_000_000_000;

/// What is stored under the key, and when it is asked for.
#[derive(Drop)]
struct ItemPlace {
    at: Moment,
    flushes: Flushes,
    is_stored: bool,
    item: ItemBuf,
    next: ItemBuf,
}

/// What a command asks of its first key.
fn first_asked<'a>(next: Next<'a>) -> Option<Asked<'a>>
    requires { IsFitNext next }
    ensures { IfSome result (λ asked. IsFitAsk asked.ask) }
{
    let mut asks = Asks::by(next);
    asks.next_asked()
}

fn stored_in(is_stored: bool, item: &ItemBuf) -> Option<&[u8]>
    ensures { IsFitStored (option_copied result) }
{
    if is_stored { Some(item.value()) } else { None }
}

/// The flush that a command asks for at a second.
fn flush_at(asked: u64, due: Due) -> Flush {
    match due {
        Due::Now => Flush { due: 0, asked: 0 },
        Due::After(seconds) => Flush {
            due: asked.saturating_add(u64::from(seconds)),
            asked,
        },
        Due::At(second) => Flush {
            due: u64::from(second),
            asked,
        },
    }
}

impl ItemPlace {
    fn new(alloc: Global, stored: &[u8]) -> Result<ItemPlace, NoMemory> {
        let mut item = ItemBuf::new(alloc)?;
        if stored.len() <= 8192 {
            item.set(stored);
        }
        Ok(ItemPlace {
            at: Moment {
                second: START,
                flushed: 0,
                unique: 1,
                until: 0,
            },
            flushes: Flushes::none(),
            is_stored: !stored.is_empty(),
            item,
            next: ItemBuf::new(alloc)?,
        })
    }

    /// Some seconds pass.
    fn wait(&mut self, seconds: u64) {
        self.at.second = self.at.second.saturating_add(seconds);
        self.at.flushed = self.flushes.flushed_at(self.at.second);
        self.at.until = self.flushes.waits_at(self.at.second);
    }

    /// Does what a command made of the item. A number that a value got is no other's.
    fn change(&mut self, change: Change) {
        match change {
            Change::Stay => {}
            Change::Go => self.is_stored = false,
            Change::Become => {
                self.is_stored = true;
                self.item.set(self.next.value());
                if read_item(self.item.value()).unique == self.at.unique {
                    self.at.unique = self.at.unique.saturating_add(1);
                }
            }
        }
    }

    /// Carries out what is asked of the key.
    fn carry_out(
        &mut self,
        quiet: bool,
        unique: bool,
        ask: &Ask,
        into: &mut Vec<u8>,
    ) -> Result<(), NoMemory>
        requires { IsFitAsk ask.now }
    {
        let stored = stored_in(self.is_stored, &self.item);
        let change = change_stored(&self.at, ask, stored, &mut self.next);
        let says = says_of(&self.at, ask, found_in(&self.at, stored));
        put_answer(into, quiet, unique, b"k", &says)?;
        self.change(change);
        Ok(())
    }

    /// Answers what stands at the front of the bytes, and says how many these are: none where they are no command.
    fn answer(&mut self, bytes: &[u8], into: &mut Vec<u8>) -> Result<usize, NoMemory> {
        let next = next_command(bytes);
        let (len, quiet, unique) = match &next {
            Next::Command {
                command: Command::Flush { due, quiet },
                len,
            } => {
                let flush = flush_at(self.at.second, *due);
                self.flushes = self.flushes.and_then(self.at.unique, flush);
                self.wait(0);
                put_line(*quiet, reply_line(Reply::Done), into)?;
                return Ok(*len);
            }
            Next::Refused {
                fault,
                stale: None,
                quiet,
                len,
            } => {
                put_line(*quiet, fault_line(*fault), into)?;
                return Ok(*len);
            }
            Next::Command { command, len } => (*len, command.is_quiet(), wants_numbers(command)),
            Next::Refused { quiet, len, .. } => (*len, *quiet, false),
            Next::More | Next::LongLine => return Ok(0),
        };
        let Some(asked) = first_asked(next) else {
            return Ok(0);
        };
        self.carry_out(quiet, unique, &asked.ask, into)?;
        Ok(len)
    }
}

fn put_line(quiet: bool, line: &[u8], into: &mut Vec<u8>) -> Result<(), NoMemory> {
    if !quiet {
        into.extend_from_slice(line)?;
    }
    Ok(())
}

/// What is answered to a client's commands, where this is stored before. A line `wait 9` lets nine seconds pass, and is repeated.
pub fn items(alloc: Global, stored: &str, text: &[u8], into: &mut Vec<u8>) -> Result<(), NoMemory> {
    let mut place = ItemPlace::new(alloc, stored.as_bytes())?;
    let mut rest = text;
    for _ in 0..text.len() {
        if let Some((line, tail)) = split_at_byte(rest, b'\n')
            && let Some(seconds) = line.strip_prefix(b"wait ".as_slice())
        {
            place.wait(number(text_of(seconds)).unwrap_or(0));
            into.extend_from_slice(line)?;
            into.push(b'\n')?;
            rest = tail;
        } else {
            let len = place.answer(rest, into)?;
            rest = rest.get(len..).unwrap_or(&[]);
        }
    }
    Ok(())
}
