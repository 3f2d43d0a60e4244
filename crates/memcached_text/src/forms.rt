//! Which line each command has.
ghost use Rattle.std.specs.Prelude.{◌≡◌, ◌∷◌};
ghost use Rattle.memcached_text.specs.Forms.{other_forms, forms, line_by, ends_as_http, line_of};

use crate::key_line::{count_line, delete_line, get_line, get_touch_line, touch_line};
use crate::line::{Line, refused};
use crate::server_line::{flush_line, stats_line, verbosity_line};
use crate::storage_line::{Verb, cas_line, drop_meta_line, set_line};
use crate::{Command, Direction, Fault, Side, Wants, Words};

// What a line of this name says, with these words behind it, where it is none that most clients send.
#[inline(never)]
fn other_line<'a>(name: &[u8], words: Words<'a>) -> Option<Line<'a>>
    ensures { result ≡ line_by other_forms name.now words.entry }
{
    if name == b"gat".as_slice() {
        get_touch_line(false, words)
    } else if name == b"gats".as_slice() {
        get_touch_line(true, words)
    } else if name == b"add".as_slice() {
        set_line(Verb::Store(Wants::Absent), words)
    } else if name == b"replace".as_slice() {
        set_line(Verb::Store(Wants::Present), words)
    } else if name == b"append".as_slice() {
        set_line(Verb::Join(Side::Back), words)
    } else if name == b"prepend".as_slice() {
        set_line(Verb::Join(Side::Front), words)
    } else if name == b"cas".as_slice() {
        cas_line(words)
    } else if name == b"incr".as_slice() {
        count_line(Direction::Up, words)
    } else if name == b"decr".as_slice() {
        count_line(Direction::Down, words)
    } else if name == b"delete".as_slice() {
        delete_line(words)
    } else if name == b"touch".as_slice() {
        touch_line(words)
    } else if name == b"flush_all".as_slice() {
        flush_line(words)
    } else if name == b"stats".as_slice() {
        stats_line(words)
    } else if name == b"version".as_slice() {
        Some(Line::Whole(Command::Version))
    } else if name == b"verbosity".as_slice() {
        verbosity_line(words)
    } else if name == b"mn".as_slice() {
        Some(Line::Whole(Command::Noop))
    } else if name == b"quit".as_slice() {
        Some(Line::Whole(Command::Quit))
    } else if name == b"ms".as_slice() {
        Some(drop_meta_line(words))
    } else {
        None
    }
}

// What a line of this name says, with these words behind it.
fn named_line<'a>(name: &[u8], words: Words<'a>) -> Option<Line<'a>>
    ensures { result ≡ line_by forms name.now words.entry }
{
    if name == b"get".as_slice() {
        get_line(false, words)
    } else if name == b"set".as_slice() {
        set_line(Verb::Store(Wants::Whatever), words)
    } else if name == b"gets".as_slice() {
        get_line(true, words)
    } else {
        other_line(name, words)
    }
}

// Whether the last word is what a request of HTTP has there.
#[tactic(auto, unfolding(crate::specs::Forms::ends_as_http))]
fn ends_as_http(mut words: Words) -> bool
    ensures { result ≡ ends_as_http words.entry }
{
    let mut last = b"".as_slice();
    while let Some(word) = words.next_word() {
        last = word;
    }
    last.starts_with(b"HTTP/")
}

// What a line of these words says by itself.
#[tactic(auto, unfolding(crate::specs::Forms::line_of))]
pub fn line_of(mut words: Words) -> Line
    ensures { result ≡ line_of words.entry }
{
    let all = words.again();
    let Some(name) = words.next_word() else {
        return refused(Fault::Unknown, false);
    };
    match named_line(name, words) {
        Some(line) => line,
        None if ends_as_http(all) => Line::Whole(Command::Quit),
        None => refused(Fault::Unknown, false),
    }
}
