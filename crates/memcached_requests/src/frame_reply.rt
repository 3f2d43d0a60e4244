//! The replies to frames.
ghost use Rattle.std.specs.Prelude.{◌≡◌, ◌==◌, ◌&&◌, ◌≤◌, ◌+◌, ◌++◌, length, OnOk, OnErr};
ghost use Rattle.std.specs.Int.{w64, to_be_bytes};
ghost use Rattle.memcached_text.specs.declared.limits.TheConstants.{MAX_FRAME_LEN, MAX_KEY_LEN, MAX_TEXT_LEN};
ghost use Rattle.memcached_commands.specs.Answers.{shown_len};
ghost use Rattle.memcached_frames.specs.Replies.{reply_text};
ghost use Rattle.memcached_requests.specs.FrameReplies.{done, failed, not_found, exists, refusal_frame, not_stored_frame, version_name, line_frame, missed_frame, shown_key, shown_value, found_frame, told_number, told_as, IsShort, unless_hidden, frame_text, count_frame};

use memcached_commands::Says;
use memcached_frames::{Echo, FrameReply, Opcode, Verb, opcode_of, put_reply};
use memcached_text::{Fault, Item, Reply, reply_line};
use outside::NoMemory;

/// The unique number that is told of an item that was to be gone at once. No item has it, and it is not 0, which a client would send back as no number.
pub const NO_ITEM: u64 = u64::MAX;

// The bytes of a version's name.
const NAME_LEN: usize = 6;

// All went as asked, and no more is told than this.
fn done<'a>(value: &'a [u8], unique: u64) -> FrameReply<'a>
    ensures { result ≡ done value.now unique }
{
    FrameReply {
        status: 0,
        unique,
        extras: b"".as_slice().into(),
        key: b"".as_slice().into(),
        value: value.into(),
    }
}

// It did not: a status, with its words.
fn failed<'a>(status: u16, words: &'static [u8]) -> FrameReply<'a>
    ensures { result ≡ failed status words.now }
{
    FrameReply {
        status,
        unique: 0,
        extras: b"".as_slice().into(),
        key: b"".as_slice().into(),
        value: words.into(),
    }
}

fn not_found<'a>() -> FrameReply<'a>
    ensures { result ≡ not_found }
{
    failed(1, b"Not found")
}

fn exists<'a>() -> FrameReply<'a>
    ensures { result ≡ exists }
{
    failed(2, b"Data exists for key.")
}

fn refusal_frame<'a>(fault: Fault) -> FrameReply<'a>
    ensures is { result ≡ refusal_frame fault }
    ensures short { IsShort result }
{
    match fault {
        Fault::Unknown => failed(129, b"Unknown command"),
        Fault::TooLarge => failed(3, b"Too large."),
        Fault::NotNumber => failed(6, b"Non-numeric server-side value for incr or decr"),
        _ => failed(4, b"Invalid arguments"),
    }
}

// A store that was not wanted.
fn not_stored_frame<'a>(verb: Verb) -> FrameReply<'a>
    ensures is { result ≡ not_stored_frame verb }
    ensures short { IsShort result }
{
    match verb {
        Verb::Add => exists(),
        Verb::Replace => not_found(),
        _ => failed(5, b"Not stored."),
    }
}

/// The name of the version, as its line tells it.
pub fn version_name() -> &'static [u8]
    ensures { result.now ≡ version_name }
{
    let (_, name) = reply_line(Reply::Version).split_at(8);
    let (name, _) = name.split_at(NAME_LEN);
    name
}

fn line_frame<'a>(verb: Verb, reply: Reply) -> FrameReply<'a>
    ensures is { result ≡ line_frame verb reply }
    ensures short { IsShort result }
{
    match reply {
        Reply::NotStored => not_stored_frame(verb),
        Reply::Exists => exists(),
        Reply::NotFound => not_found(),
        Reply::NoRoom | Reply::NoRoomToCount => failed(130, b"Out of memory"),
        Reply::Version => done(version_name(), 0),
        _ => done(b"", 0),
    }
}

// A get that found nothing.
fn missed_frame<'a>(named: bool, key: &'a [u8]) -> FrameReply<'a>
    ensures is { result ≡ missed_frame named key.now }
    ensures extras { length result.extras ≡ 0 }
    ensures key { length result.key ≤ length key.now }
    ensures value { length result.value ≤ 46 }
{
    if !named {
        return not_found();
    }
    FrameReply {
        status: 1,
        unique: 0,
        extras: b"".as_slice().into(),
        key: key.into(),
        value: b"".as_slice().into(),
    }
}

// The unique number that is told.
fn told_number(unique: Option<u64>) -> u64
    ensures { result ≡ told_number unique }
{
    match unique {
        Some(unique) => unique,
        None => NO_ITEM,
    }
}

// A touch shows no value.
fn shown_value<'a>(verb: Verb, value: &'a [u8]) -> &'a [u8]
    ensures shown { result.now ≡ shown_value verb value.now }
    ensures short { length result.now ≤ length value.now }
{
    match verb {
        Verb::Touch => b"".as_slice(),
        _ => value,
    }
}

fn shown_key<'a>(named: bool, key: &'a [u8]) -> &'a [u8]
    ensures shown { result.now ≡ shown_key named key.now }
    ensures short { length result.now ≤ length key.now }
{
    if named { key } else { b"".as_slice() }
}

// Appends a reply of words alone, which a quiet frame is told only where it did not go as asked.
fn put_words(out: &mut Vec<u8>, echo: Echo, quiet: bool, reply: &FrameReply) -> Result<(), NoMemory>
    requires short { IsShort reply.now }
    ensures ok { OnOk result (out.new.items ≡ out.old.items ++ unless_hidden ((reply.now.status == 0) && quiet) echo reply.now) }
    ensures err { OnErr result (out.new.items ≡ out.old.items) }
    ensures short { length out.new.items ≤ length out.old.items + MAX_FRAME_LEN }
{
    if reply.status == 0 && quiet {
        return Ok(());
    }
    put_reply(out, echo, reply)
}

// Appends the reply to a get that found an item.
fn put_found(
    out: &mut Vec<u8>,
    echo: Echo,
    opcode: Opcode,
    key: &[u8],
    item: &Item,
) -> Result<(), NoMemory>
    requires key { length key.now ≤ MAX_KEY_LEN }
    requires value { length item.now.value ≤ MAX_TEXT_LEN }
    ensures ok { OnOk result (out.new.items ≡ out.old.items ++ reply_text echo (found_frame opcode key.now item.now)) }
    ensures err { OnErr result (out.new.items ≡ out.old.items) }
    ensures short { length out.new.items ≤ length out.old.items + length key.now + length item.now.value + MAX_FRAME_LEN }
{
    let flags = item.flags.to_be_bytes();
    let reply = FrameReply {
        status: 0,
        unique: item.unique,
        extras: flags.as_slice().into(),
        key: shown_key(opcode.named, key).into(),
        value: shown_value(opcode.verb, item.value.bytes()).into(),
    };
    put_reply(out, echo, &reply)
}

// Appends the number that a count gave.
fn put_counted(
    out: &mut Vec<u8>,
    echo: Echo,
    quiet: bool,
    number: u64,
    unique: Option<u64>,
) -> Result<(), NoMemory>
    ensures ok { OnOk result (out.new.items ≡ out.old.items ++ unless_hidden quiet echo (done (to_be_bytes w64 number) (told_number unique))) }
    ensures err { OnErr result (out.new.items ≡ out.old.items) }
    ensures short { length out.new.items ≤ length out.old.items + MAX_FRAME_LEN }
{
    let bytes = number.to_be_bytes();
    let reply = done(bytes.as_slice(), told_number(unique));
    put_words(out, echo, quiet, &reply)
}

// Appends the reply to a get that found nothing, unless it is quiet.
fn put_missed(out: &mut Vec<u8>, echo: Echo, opcode: Opcode, key: &[u8]) -> Result<(), NoMemory>
    requires key { length key.now ≤ MAX_KEY_LEN }
    ensures ok { OnOk result (out.new.items ≡ out.old.items ++ unless_hidden opcode.quiet echo (missed_frame opcode.named key.now)) }
    ensures err { OnErr result (out.new.items ≡ out.old.items) }
    ensures short { length out.new.items ≤ length out.old.items + length key.now + MAX_FRAME_LEN }
{
    if opcode.quiet {
        return Ok(());
    }
    put_reply(out, echo, &missed_frame(opcode.named, key))
}

// As what the opcode of a frame is replied to.
fn told_as(echo: Echo) -> Opcode
    ensures { result ≡ told_as echo }
{
    match opcode_of(echo.opcode) {
        Some(opcode) => opcode,
        None => Opcode {
            verb: Verb::Noop,
            named: false,
            quiet: false,
        },
    }
}

/// Appends what is replied to a frame, by what was said of its key, or of none. When out of memory, nothing is appended.
#[tactic(auto, unfolding(crate::specs::FrameReplies::said_frame, crate::specs::FrameReplies::frame_text))]
pub fn put_frame(out: &mut Vec<u8>, echo: Echo, key: &[u8], says: &Says) -> Result<(), NoMemory>
    requires key { length key.now ≤ MAX_KEY_LEN }
    requires value { shown_len says.now ≤ MAX_TEXT_LEN }
    ensures ok { OnOk result (out.new.items ≡ out.old.items ++ frame_text echo key.now says.now) }
    ensures err { OnErr result (out.new.items ≡ out.old.items) }
    ensures short { length out.new.items ≤ length out.old.items + length key.now + shown_len says.now + MAX_FRAME_LEN }
{
    let opcode = told_as(echo);
    let quiet = opcode.quiet;
    match says {
        Says::Line(reply) => put_words(out, echo, quiet, &line_frame(opcode.verb, *reply)),
        Says::Refusal(fault) => put_words(out, echo, quiet, &refusal_frame(*fault)),
        Says::Stores(unique) => put_words(out, echo, quiet, &done(b"", told_number(*unique))),
        Says::Number { number, unique, .. } => put_counted(out, echo, quiet, *number, *unique),
        Says::Shows(item) | Says::Leases { item, .. } => put_found(out, echo, opcode, key, item),
        Says::Nothing => put_missed(out, echo, opcode, key),
    }
}

/// Appends one thing that is counted. When out of memory, nothing is appended.
pub fn put_count(out: &mut Vec<u8>, echo: Echo, name: &[u8], value: &[u8]) -> Result<(), NoMemory>
    requires name { length name.now ≤ MAX_KEY_LEN }
    requires value { length value.now ≤ MAX_TEXT_LEN }
    ensures ok { OnOk result (out.new.items ≡ out.old.items ++ reply_text echo (count_frame name.now value.now)) }
    ensures err { OnErr result (out.new.items ≡ out.old.items) }
    ensures short { length out.new.items ≤ length out.old.items + 24 + length name.now + length value.now }
{
    let reply = FrameReply {
        status: 0,
        unique: 0,
        extras: b"".as_slice().into(),
        key: name.into(),
        value: value.into(),
    };
    put_reply(out, echo, &reply)
}
