//! What a frame of the binary protocol wants.
ghost use Rattle.std.specs.Prelude.{◌≡◌, ◌≤◌, length, true};
ghost use Rattle.std.specs.Int.{w32, w64, from_be_bytes};
ghost use Rattle.memcached_text.specs.declared.limits.TheConstants.{MAX_TEXT_LEN};
ghost use Rattle.memcached_text.specs.Fit.{IsWant};
ghost use Rattle.memcached_text.specs.Lifetimes.{IsDue, IsLifetime};
ghost use Rattle.memcached_commands.specs.Fit.{IsFitAsk, IsFitInitial};
ghost use Rattle.memcached_frames.specs.Fit as frames;
ghost use Rattle.memcached_frames.specs.Opcodes.{fits_extras};
ghost use Rattle.memcached_requests.specs.FrameRequests.{lifetime_at, due_at, due_in, wanted, wants_of, initial_of, store_of, count_of, join_of, touch_of, ask_by, stats_of, request_in, is_quit, fault_of, of_frame};
ghost use Rattle.memcached_requests.specs.Requests.{IsFitNext, IsFitRequest};

use crate::request::{Next, Request, Style, refused};
use byteorder::{BigEndian, ByteOrder};
use memcached_commands::{Ask, Asks, Initial, Says};
use memcached_frames::{Frame, FrameFault, FrameNext, Verb};
use memcached_text::{Direction, Due, Fault, Lifetime, Reply, Side, Topic, Wants, topic_of};

/// The most seconds that are counted from now on: thirty days. A greater number is a time of day.
const MOST_SECONDS: u32 = 2_592_000;

/// The expiry time of a count that makes no item.
const MAKES_NONE: u32 = u32::MAX;

// The lifetime that a number of seconds names. None is over at once: a number from 2^31 on is a time of day, too.
fn lifetime_at(number: u32) -> Lifetime
    ensures is { result ≡ lifetime_at number }
    ensures fit { IsLifetime result }
{
    if number == 0 {
        Lifetime::Forever
    } else if number <= MOST_SECONDS {
        Lifetime::For(number)
    } else {
        Lifetime::Until(number)
    }
}

// When a flush takes place that is given such a number.
fn due_at(number: u32) -> Due
    ensures is { result ≡ due_at number }
    ensures fit { IsDue result }
{
    if number == 0 {
        Due::Now
    } else if number <= MOST_SECONDS {
        Due::After(number)
    } else {
        Due::At(number)
    }
}

// When the flush is due of these extras, which may be none.
fn due_in(extras: &[u8]) -> Due
    ensures is { result ≡ due_in extras.now }
    ensures fit { IsDue result }
{
    if extras.len() < 4 {
        Due::Now
    } else {
        due_at(BigEndian::read_u32(extras))
    }
}

// The unique number that an item must have, where one is given.
fn wanted(unique: u64) -> Option<u64>
    ensures { result ≡ wanted unique }
{
    if unique == 0 { None } else { Some(unique) }
}

// What a store wants to find: the item of a number, where one is given, whatever the opcode wants.
fn wants_of(wants: Wants, unique: u64) -> Wants
    ensures is { result ≡ wants_of wants unique }
    ensures fit { IsWant wants → IsWant result }
{
    if unique == 0 {
        wants
    } else {
        Wants::Numbered(unique)
    }
}

fn store_of<'a>(wants: Wants, frame: &Frame<'a>) -> Ask<'a>
    requires extras { length frame.now.extras ≡ 8 }
    ensures is { result ≡ store_of wants frame.now }
    ensures fit { IsWant wants → length frame.now.value ≤ MAX_TEXT_LEN → IsFitAsk result }
{
    let extras = frame.extras.bytes();
    Ask::Store {
        wants: wants_of(wants, frame.unique),
        flags: BigEndian::read_u32(extras),
        lifetime: lifetime_at(BigEndian::read_u32(&extras[4..])),
        value: frame.value.bytes().into(),
    }
}

// What a count begins with where no item is there.
fn initial_of(extras: &[u8]) -> Option<Initial>
    requires { length extras.now ≡ 20 }
    ensures is { result ≡ initial_of extras.now }
    ensures fit { IsFitInitial result }
{
    let expiry = BigEndian::read_u32(&extras[16..]);
    if expiry == MAKES_NONE {
        return None;
    }
    Some(Initial {
        number: BigEndian::read_u64(&extras[8..]),
        lifetime: lifetime_at(expiry),
    })
}

fn count_of<'a>(direction: Direction, frame: &Frame<'a>) -> Ask<'a>
    requires extras { length frame.now.extras ≡ 20 }
    ensures is { result ≡ count_of direction frame.now }
    ensures fit { IsFitAsk result }
{
    let extras = frame.extras.bytes();
    Ask::Count {
        direction,
        delta: BigEndian::read_u64(extras),
        unique: wanted(frame.unique),
        lifetime: None,
        initial: initial_of(extras),
    }
}

fn join_of<'a>(side: Side, frame: &Frame<'a>) -> Ask<'a>
    ensures is { result ≡ join_of side frame.now }
    ensures fit { length frame.now.value ≤ MAX_TEXT_LEN → IsFitAsk result }
{
    Ask::Join {
        side,
        unique: wanted(frame.unique),
        more: frame.value.bytes().into(),
    }
}

fn touch_of<'a>(frame: &Frame) -> Ask<'a>
    requires extras { length frame.now.extras ≡ 4 }
    ensures is { result ≡ touch_of frame.now }
    ensures fit { IsFitAsk result }
{
    Ask::GetTouch(lifetime_at(BigEndian::read_u32(frame.extras.bytes())))
}

// What is asked of the key of a frame that has one.
fn ask_by<'a>(frame: &Frame<'a>) -> Ask<'a>
    requires extras { fits_extras frame.now.opcode.verb (length frame.now.extras) ≡ true }
    ensures is { result ≡ ask_by frame.now.opcode.verb frame.now }
    ensures fit { length frame.now.value ≤ MAX_TEXT_LEN → IsFitAsk result }
{
    match frame.opcode.verb {
        Verb::Set => store_of(Wants::Whatever, frame),
        Verb::Add => store_of(Wants::Absent, frame),
        Verb::Replace => store_of(Wants::Present, frame),
        Verb::Delete => Ask::Delete {
            unique: wanted(frame.unique),
        },
        Verb::Up => count_of(Direction::Up, frame),
        Verb::Down => count_of(Direction::Down, frame),
        Verb::Append => join_of(Side::Back, frame),
        Verb::Prepend => join_of(Side::Front, frame),
        Verb::Touch | Verb::GetTouch => touch_of(frame),
        _ => Ask::Get,
    }
}

fn stats_of<'a>(word: &[u8]) -> Request<'a>
    ensures is { result ≡ stats_of word.now }
    ensures fit { IsFitRequest result }
{
    if word.is_empty() {
        return Request::Stats(Topic::Server);
    }
    match topic_of(word) {
        Some(topic) => Request::Stats(topic),
        None => Request::Said(Says::Line(Reply::NotFound)),
    }
}

fn request_in<'a>(frame: &Frame<'a>) -> Request<'a>
    requires fit { frames.IsFitFrame MAX_TEXT_LEN frame.now }
    ensures is { result ≡ request_in frame.now }
    ensures fit { IsFitRequest result }
{
    match frame.opcode.verb {
        Verb::Quit => Request::Said(Says::Line(Reply::Done)),
        Verb::Flush => Request::Flush(due_in(frame.extras.bytes())),
        Verb::Noop => Request::Said(Says::Line(Reply::Noop)),
        Verb::Version => Request::Said(Says::Line(Reply::Version)),
        Verb::Stat => stats_of(frame.key.bytes()),
        _ => Request::Keys(Asks::one(frame.key.bytes().into(), ask_by(frame))),
    }
}

fn is_quit(verb: Verb) -> bool
    ensures { result ≡ is_quit verb }
{
    matches!(verb, Verb::Quit)
}

fn fault_of(fault: FrameFault) -> Fault
    ensures { result ≡ fault_of fault }
{
    match fault {
        FrameFault::Unknown => Fault::Unknown,
        FrameFault::Invalid => Fault::Format,
        FrameFault::TooLarge => Fault::TooLarge,
    }
}

/// What the frame at the front of bytes wants.
pub fn of_frame<'a>(next: FrameNext<'a>) -> Next<'a>
    requires fit { frames.IsFitNext MAX_TEXT_LEN next }
    ensures is { result ≡ of_frame next.entry }
    ensures fit { IsFitNext result }
{
    match next {
        FrameNext::Whole { frame, echo, len } => Next::Whole {
            request: request_in(&frame),
            style: Style::Frame(echo),
            len,
            is_last: is_quit(frame.opcode.verb),
        },
        FrameNext::Dropped {
            fault,
            stale,
            echo,
            len,
        } => Next::Whole {
            request: refused(fault_of(fault), stale),
            style: Style::Frame(echo),
            len,
            is_last: false,
        },
        FrameNext::More => Next::More,
        FrameNext::Over { fault, echo } => Next::Whole {
            request: Request::Said(Says::Refusal(fault_of(fault))),
            style: Style::Frame(echo),
            len: 0,
            is_last: true,
        },
    }
}
