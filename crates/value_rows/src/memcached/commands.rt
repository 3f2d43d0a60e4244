//! What is answered to a client's bytes, whose commands are not carried out.

use crate::text::say;
use memcached_text::{Command, Next, Reply, fault_line, next_command, reply_line};
use outside::NoMemory;
use std::alloc::Global;

/// A connection as a front keeps it: what waits, how much of what comes is dropped, and what was answered.
#[derive(Drop)]
struct Connection {
    waiting: Vec<u8>,
    dropped: usize,
    ended: bool,
    answers: Vec<u8>,
}

/// What is left of bytes behind those that were answered: the last of them, and how much of what follows is dropped.
#[derive(Drop)]
struct Left<'a> {
    waiting: &'a [u8],
    dropped: usize,
    ended: bool,
}

/// Answers one thing: each error as it is, `+` to a command that wants a reply, and a full stop where the connection ends. Tells how
/// many bytes it takes; none where it has not come whole.
fn answer_one(answers: &mut Vec<u8>, bytes: &[u8]) -> Result<(usize, bool), NoMemory> {
    match next_command(bytes) {
        Next::Command { command, len } => {
            if matches!(&command, Command::Quit) {
                say(answers, ".")?;
                return Ok((len, true));
            }
            if !command.is_quiet() {
                say(answers, "+\r\n")?;
            }
            Ok((len, false))
        }
        Next::Refused {
            fault,
            quiet,
            len,
            ..
        } => {
            if !quiet {
                answers.extend_from_slice(fault_line(fault))?;
            }
            Ok((len, false))
        }
        Next::More => Ok((0, false)),
        Next::LongLine => {
            answers.extend_from_slice(reply_line(Reply::LongLine))?;
            Ok((0, true))
        }
    }
}

/// Answers what stands at the front of the bytes.
fn answer<'a>(answers: &mut Vec<u8>, bytes: &'a [u8]) -> Result<Left<'a>, NoMemory> {
    let mut left = Left {
        waiting: bytes,
        dropped: 0,
        ended: false,
    };
    for _ in 0..bytes.len() {
        let (len, ended) = answer_one(answers, left.waiting)?;
        left.ended = ended;
        left.dropped = len.saturating_sub(left.waiting.len());
        left.waiting = &left.waiting[len.min(left.waiting.len())..];
        if len == 0 || ended || left.waiting.is_empty() {
            break;
        }
    }
    Ok(left)
}

/// Takes a piece of what a client sends.
fn take(alloc: Global, connection: &mut Connection, piece: &[u8]) -> Result<(), NoMemory> {
    if connection.ended {
        return Ok(());
    }
    let dropped = connection.dropped.min(piece.len());
    connection.dropped -= dropped;
    connection.waiting.extend_from_slice(&piece[dropped..])?;
    let mut waiting = Vec::new(alloc);
    let left = answer(&mut connection.answers, connection.waiting.as_slice())?;
    waiting.extend_from_slice(left.waiting)?;
    connection.ended = left.ended;
    connection.dropped = connection.dropped.saturating_add(left.dropped);
    connection.waiting = waiting;
    Ok(())
}

/// What is answered to bytes that come in two pieces.
fn answers_to(alloc: Global, first: &[u8], second: &[u8]) -> Result<Vec<u8>, NoMemory> {
    let mut connection = Connection {
        waiting: Vec::new(alloc),
        dropped: 0,
        ended: false,
        answers: Vec::new(alloc),
    };
    take(alloc, &mut connection, first)?;
    take(alloc, &mut connection, second)?;
    Ok(connection.answers)
}

/// What is answered to a client's bytes, and whether it is something else where they come in two pieces.
pub fn commands(alloc: Global, text: &[u8], into: &mut Vec<u8>) -> Result<(), NoMemory> {
    let whole = answers_to(alloc, text, b"")?;
    into.extend_from_slice(whole.as_slice())?;
    for len in 0..text.len() {
        if answers_to(alloc, &text[..len], &text[len..])?.as_slice() != whole.as_slice() {
            say(
                into,
                format!(in alloc; "otherwise behind {len} bytes\n")?.as_str(),
            )?;
        }
    }
    Ok(())
}
