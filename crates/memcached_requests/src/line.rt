//! What a line of the text protocol wants.
ghost use Rattle.std.specs.Prelude.{◌≡◌, ◌==◌, false, length};
ghost use Rattle.memcached_text.specs.Fit.{IsFit, IsFitNext};
ghost use Rattle.memcached_requests.specs.Lines.{plain_reply, request_of, style_of, is_quit, of_line};
ghost use Rattle.memcached_requests.specs.Requests as requests;

use crate::request::{Next, Request, Style, refused};
use memcached_commands::{Asks, Says, wants_numbers};
use memcached_text::{Command, Reply, Words};

fn has_none(words: &Words) -> bool
    ensures { result ≡ (length words.now == 0) }
{
    words.again().next_word().is_none()
}

// What is replied to a command that is carried out by its reply alone.
fn plain_reply(command: &Command) -> Option<Reply>
    ensures { result ≡ plain_reply command.now }
{
    match command {
        Command::Get { keys, .. } if has_none(keys) => Some(Reply::End),
        Command::Version => Some(Reply::Version),
        Command::Verbosity { .. } | Command::Quit => Some(Reply::Done),
        Command::Noop => Some(Reply::Noop),
        _ => None,
    }
}

#[inline(always)]
fn request_of<'a>(command: Command<'a>) -> Request<'a>
    ensures is { result ≡ request_of command.entry }
    ensures fit { IsFit command.entry → requests.IsFitRequest result }
{
    if let Some(reply) = plain_reply(&command) {
        return Request::Said(Says::Line(reply));
    }
    match command {
        Command::Flush { due, .. } => Request::Flush(due),
        Command::Stats { topic } => Request::Stats(topic),
        _ => Request::Keys(Asks::of(command)),
    }
}

fn is_quit(command: &Command) -> bool
    ensures { result ≡ is_quit command.now }
{
    matches!(command, Command::Quit)
}

// How a command is replied to. A quit is not.
fn style_of<'a>(command: &Command) -> Style<'a>
    ensures { result ≡ style_of command.now }
{
    Style::Classic {
        quiet: command.is_quiet() || is_quit(command),
        unique: wants_numbers(command),
    }
}

// A line that is not carried out.
pub fn classic<'a>(quiet: bool) -> Style<'a>
    ensures { result ≡ Style.Classic quiet false }
{
    Style::Classic {
        quiet,
        unique: false,
    }
}

/// What the line at the front of bytes wants.
#[inline(always)]
pub fn of_line<'a>(next: memcached_text::Next<'a>) -> Next<'a>
    ensures is { result ≡ of_line next.entry }
    ensures fit { IsFitNext next.entry → requests.IsFitNext result }
{
    match next {
        memcached_text::Next::Command { command, len } => {
            let (style, is_last) = (style_of(&command), is_quit(&command));
            Next::Whole {
                request: request_of(command),
                style,
                len,
                is_last,
            }
        }
        memcached_text::Next::Refused {
            fault,
            stale,
            quiet,
            len,
        } => Next::Whole {
            request: refused(fault, stale),
            style: classic(quiet),
            len,
            is_last: false,
        },
        memcached_text::Next::More => Next::More,
        memcached_text::Next::LongLine => Next::Whole {
            request: Request::Said(Says::Line(Reply::LongLine)),
            style: classic(false),
            len: 0,
            is_last: true,
        },
    }
}
