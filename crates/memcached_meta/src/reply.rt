//! The texts of replies to meta commands.
ghost use Rattle.std.specs.Prelude.{◌≡◌, ◌≤◌, ◌+◌, ◌++◌, ℕ, List, [], true, false, codes, decimal, length, OnOk, OnErr};
ghost use Rattle.memcached_commands.specs.Answers.{shown_len};
ghost use Rattle.memcached_meta.specs.Replies.{told, told_left, key_text, flag_text, flags_text, sets_time, mark, marks_text, status_text, shown_item, shown_count, line_text, is_expected, hides, head_text, block_text, front_text, expiry_text, debugged_text, numbers_text, debug_text, valued_text, said_text, meta_text};
ghost use Rattle.memcached_meta.specs.Lines.{is_base64};
ghost use Rattle.memcached_meta.specs.Short.{most_of_flag, most_of_flags};

use crate::flags::has_flag;
use crate::line::{Verb, is_base64};
use crate::manner::Manner;
use itoa::Buffer;
use memcached_commands::{Left, Says};
use memcached_text::{HEADER_LEN, Item, Reply, Words, fault_line, reply_line};
use outside::NoMemory;

/// The most bytes of a reply that are not of a value.
pub const MAX_SAID_LEN: usize = 760;

/// What flags of a command may tell beside its key and its opaque.
#[derive(Clone, Copy)]
pub struct Shown {
    pub len: Option<u64>,
    pub flags: Option<u64>,
    pub unique: Option<u64>,
    pub left: Option<Left>,
}

// Appends bytes.
fn put(out: &mut Vec<u8>, text: &[u8]) -> Result<(), NoMemory>
    ensures ok { OnOk result (out.new.items ≡ out.old.items ++ text.now) }
    ensures short { OnOk result (length out.new.items ≤ length out.old.items + length text.now) }
    ensures more { (text : List ℕ) × (out.new.items ≡ out.old.items ++ text) }
{
    Ok(out.extend_from_slice(text)?)
}

// Appends a number.
fn put_digits(out: &mut Vec<u8>, number: u64) -> Result<(), NoMemory>
    ensures ok { OnOk result (out.new.items ≡ out.old.items ++ decimal number) }
    ensures short { OnOk result (length out.new.items ≤ length out.old.items + 20) }
    ensures more { (text : List ℕ) × (out.new.items ≡ out.old.items ++ text) }
{
    let mut digits = Buffer::new();
    put(out, digits.format(number).as_bytes())
}

// Appends what a flag tells, where it tells a number.
fn put_told(out: &mut Vec<u8>, letter: &[u8], number: Option<u64>) -> Result<(), NoMemory>
    ensures ok { OnOk result (out.new.items ≡ out.old.items ++ told letter.now number) }
    ensures short { OnOk result (length out.new.items ≤ length out.old.items + length letter.now + 20) }
    ensures more { (text : List ℕ) × (out.new.items ≡ out.old.items ++ text) }
{
    let Some(number) = number else {
        return Ok(());
    };
    put(out, letter)?;
    put_digits(out, number)
}

// Appends the seconds that are left, and -1 for ever.
fn put_left(out: &mut Vec<u8>, left: Option<Left>, late: bool) -> Result<(), NoMemory>
    ensures ok { OnOk result (out.new.items ≡ out.old.items ++ told_left left late) }
    ensures short { OnOk result (length out.new.items ≤ length out.old.items + 22) }
    ensures more { (text : List ℕ) × (out.new.items ≡ out.old.items ++ text) }
{
    let Some(left) = left else {
        return Ok(());
    };
    match if late { left.after } else { left.before } {
        Some(seconds) => put_told(out, b" t", Some(seconds)),
        None => put(out, b" t-1"),
    }
}

// Appends the key as the client wrote it, and `b` where it wrote base64.
fn put_key(out: &mut Vec<u8>, base64: bool, word: &[u8]) -> Result<(), NoMemory>
    ensures ok { OnOk result (out.new.items ≡ out.old.items ++ key_text base64 word.now) }
    ensures short { OnOk result (length out.new.items ≤ length out.old.items + length word.now + 4) }
    ensures more { (text : List ℕ) × (out.new.items ≡ out.old.items ++ text) }
{
    put(out, b" k")?;
    put(out, word)?;
    if base64 { put(out, b" b") } else { Ok(()) }
}

// Appends what is told for one flag. Behind one that sets the time, that is the time which it sets.
fn put_flag(
    out: &mut Vec<u8>,
    word: &[u8],
    base64: bool,
    shown: &Shown,
    late: bool,
    flag: &[u8],
) -> Result<(), NoMemory>
    ensures ok { OnOk result (out.new.items ≡ out.old.items ++ flag_text word.now base64 shown.now late flag.now) }
    ensures short { OnOk result (length out.new.items ≤ length out.old.items + most_of_flag (length word.now) flag.now) }
    ensures more { (text : List ℕ) × (out.new.items ≡ out.old.items ++ text) }
{
    match flag {
        [b's', ..] => put_told(out, b" s", shown.len),
        [b't', ..] => put_left(out, shown.left, late),
        [b'c', ..] => put_told(out, b" c", shown.unique),
        [b'f', ..] => put_told(out, b" f", shown.flags),
        [b'k', ..] => put_key(out, base64, word),
        [b'O', ..] => {
            put(out, b" ")?;
            put(out, flag)
        }
        _ => Ok(()),
    }
}

fn sets_time(flag: &[u8]) -> bool
    ensures { result ≡ sets_time flag.now }
{
    match flag {
        [b'T' | b'N', ..] => true,
        _ => false,
    }
}

// Appends what is told for each flag, in their order.
#[tactic(auto, unfolding(crate::specs::Replies::flags_text, crate::specs::Short::most_of_flags))]
fn put_flags(
    out: &mut Vec<u8>,
    word: &[u8],
    base64: bool,
    shown: &Shown,
    mut flags: Words,
) -> Result<(), NoMemory>
    ensures ok { OnOk result (out.new.items ≡ out.old.items ++ flags_text word.now base64 shown.now false flags.entry) }
    ensures short { OnOk result (length out.new.items ≤ length out.old.items + most_of_flags (length word.now) flags.entry) }
    ensures more { (text : List ℕ) × (out.new.items ≡ out.old.items ++ text) }
{
    let mut late = false;
    while let Some(flag) = flags.next_word() {
        put_flag(out, word, base64, shown, late, flag)?;
        late = late || sets_time(flag);
    }
    Ok(())
}

// Appends a mark, where it is set.
fn put_mark(out: &mut Vec<u8>, set: bool, text: &[u8]) -> Result<(), NoMemory>
    ensures ok { OnOk result (out.new.items ≡ out.old.items ++ mark set text.now) }
    ensures short { OnOk result (length out.new.items ≤ length out.old.items + length text.now) }
    ensures more { (text : List ℕ) × (out.new.items ≡ out.old.items ++ text) }
{
    if set { put(out, text) } else { Ok(()) }
}

// Appends whether an item was won before, is stale, and is won now.
fn put_marks(out: &mut Vec<u8>, item: &Item, wins: bool) -> Result<(), NoMemory>
    ensures ok { OnOk result (out.new.items ≡ out.old.items ++ marks_text item.now wins) }
    ensures short { OnOk result (length out.new.items ≤ length out.old.items + 6) }
    ensures more { (text : List ℕ) × (out.new.items ≡ out.old.items ++ text) }
{
    put_mark(out, item.won, b" Z")?;
    put_mark(out, item.stale, b" X")?;
    put_mark(out, wins, b" W")
}

// Appends the first words of a reply: of one that has a value, with its length.
fn put_head(out: &mut Vec<u8>, valued: bool, len: usize) -> Result<(), NoMemory>
    ensures ok { OnOk result (out.new.items ≡ out.old.items ++ head_text valued len) }
    ensures short { OnOk result (length out.new.items ≤ length out.old.items + 23) }
    ensures more { (text : List ℕ) × (out.new.items ≡ out.old.items ++ text) }
{
    if valued {
        put(out, b"VA ")?;
        put_digits(out, len as u64)
    } else {
        put(out, b"HD")
    }
}

// Appends the end of the first line, and a value behind it where one is wanted.
fn put_block(out: &mut Vec<u8>, valued: bool, value: &[u8]) -> Result<(), NoMemory>
    ensures ok { OnOk result (out.new.items ≡ out.old.items ++ block_text valued value.now) }
    ensures short { OnOk result (length out.new.items ≤ length out.old.items + length value.now + 4) }
    ensures more { (text : List ℕ) × (out.new.items ≡ out.old.items ++ text) }
{
    if valued {
        put(out, b"\r\n")?;
        put(out, value)?;
    }
    put(out, b"\r\n")
}

// Appends a reply's first words, and what is told for each flag.
fn put_front(
    out: &mut Vec<u8>,
    word: &[u8],
    flags: &Words,
    shown: &Shown,
    len: usize,
) -> Result<(), NoMemory>
    ensures ok { OnOk result (out.new.items ≡ out.old.items ++ front_text word.now flags.now shown.now len) }
    ensures short { OnOk result (length out.new.items ≤ length out.old.items + most_of_flags (length word.now) flags.now + 23) }
    ensures more { (text : List ℕ) × (out.new.items ≡ out.old.items ++ text) }
{
    put_head(out, has_flag(b"v".as_slice(), flags.again()), len)?;
    put_flags(out, word, is_base64(flags.again()), shown, flags.again())
}

// Appends the item that a meta get found or made.
fn put_leased(
    out: &mut Vec<u8>,
    word: &[u8],
    flags: &Words,
    item: &Item,
    left: Left,
    wins: bool,
) -> Result<(), NoMemory>
    ensures ok { OnOk result (out.new.items ≡ out.old.items ++ valued_text word.now flags.now (shown_item item.now left) (marks_text item.now wins) item.now.value) }
    ensures short { OnOk result (length out.new.items ≤ length out.old.items + most_of_flags (length word.now) flags.now + length item.now.value + 33) }
    ensures more { (text : List ℕ) × (out.new.items ≡ out.old.items ++ text) }
{
    let value = item.value.bytes();
    let valued = has_flag(b"v".as_slice(), flags.again());
    let shown = Shown {
        len: Some(value.len() as u64),
        flags: Some(u64::from(item.flags)),
        unique: Some(item.unique),
        left: Some(left),
    };
    put_front(out, word, flags, &shown, value.len())?;
    put_marks(out, item, wins)?;
    put_block(out, valued, value)
}

// Appends the number that a count gave.
fn put_counted(
    out: &mut Vec<u8>,
    word: &[u8],
    flags: &Words,
    number: u64,
    unique: Option<u64>,
    left: Left,
) -> Result<(), NoMemory>
    ensures ok { OnOk result (out.new.items ≡ out.old.items ++ valued_text word.now flags.now (shown_count unique left) [] (decimal number)) }
    ensures short { OnOk result (length out.new.items ≤ length out.old.items + most_of_flags (length word.now) flags.now + 53) }
    ensures more { (text : List ℕ) × (out.new.items ≡ out.old.items ++ text) }
{
    let mut digits = Buffer::new();
    let digits = digits.format(number).as_bytes();
    let valued = has_flag(b"v".as_slice(), flags.again());
    let shown = Shown {
        len: None,
        flags: None,
        unique: Some(unique.unwrap_or(0)),
        left: Some(left),
    };
    put_front(out, word, flags, &shown, digits.len())?;
    put_block(out, valued, digits)
}

// The two letters of what came of a command.
fn status_of(reply: Reply) -> &'static [u8]
    ensures is { result.now ≡ status_text reply }
    ensures short { length result.now ≡ 2 }
{
    match reply {
        Reply::NotStored => b"NS",
        Reply::Exists => b"EX",
        Reply::NotFound => b"NF",
        _ => b"HD",
    }
}

// Appends a line of two letters and what the flags tell. A store tells also a number, which is 0 where nothing was stored.
fn put_status(
    out: &mut Vec<u8>,
    verb: Verb,
    word: &[u8],
    flags: &Words,
    status: &[u8],
    unique: u64,
) -> Result<(), NoMemory>
    ensures ok { OnOk result (out.new.items ≡ out.old.items ++ line_text verb word.now flags.now status.now unique) }
    ensures short { OnOk result (length out.new.items ≤ length out.old.items + most_of_flags (length word.now) flags.now + length status.now + 2) }
    ensures more { (text : List ℕ) × (out.new.items ≡ out.old.items ++ text) }
{
    let shown = Shown {
        len: None,
        flags: None,
        unique: match verb {
            Verb::Store => Some(unique),
            _ => None,
        },
        left: None,
    };
    put(out, status)?;
    put_flags(out, word, is_base64(flags.again()), &shown, flags.again())?;
    put(out, b"\r\n")
}

// Appends the key as the client wrote it, in front of what `me` tells.
fn put_debugged(out: &mut Vec<u8>, word: &[u8]) -> Result<(), NoMemory>
    ensures ok { OnOk result (out.new.items ≡ out.old.items ++ debugged_text word.now) }
    ensures short { OnOk result (length out.new.items ≤ length out.old.items + length word.now + 8) }
    ensures more { (text : List ℕ) × (out.new.items ≡ out.old.items ++ text) }
{
    put(out, b"ME ")?;
    put(out, word)?;
    put(out, b" exp=")
}

// Appends the second at which an item ends, and -1 where it does not.
fn put_expiry(out: &mut Vec<u8>, expires: u32) -> Result<(), NoMemory>
    ensures ok { OnOk result (out.new.items ≡ out.old.items ++ expiry_text expires) }
    ensures short { OnOk result (length out.new.items ≤ length out.old.items + 20) }
    ensures more { (text : List ℕ) × (out.new.items ≡ out.old.items ++ text) }
{
    if expires == 0 {
        put(out, b"-1")
    } else {
        put_digits(out, u64::from(expires))
    }
}

// Appends its numbers by their names.
fn put_numbers(out: &mut Vec<u8>, item: &Item) -> Result<(), NoMemory>
    ensures ok { OnOk result (out.new.items ≡ out.old.items ++ numbers_text item.now) }
    ensures short { OnOk result (length out.new.items ≤ length out.old.items + 53) }
    ensures more { (text : List ℕ) × (out.new.items ≡ out.old.items ++ text) }
{
    let size = HEADER_LEN + item.value.bytes().len();
    put_told(out, b" cas=", Some(item.unique))?;
    put_told(out, b" size=", Some(size as u64))?;
    put(out, b"\r\n")
}

// Appends what `me` tells of an item.
fn put_debug(out: &mut Vec<u8>, word: &[u8], item: &Item) -> Result<(), NoMemory>
    ensures ok { OnOk result (out.new.items ≡ out.old.items ++ debug_text word.now item.now) }
    ensures short { OnOk result (length out.new.items ≤ length out.old.items + length word.now + 100) }
    ensures more { (text : List ℕ) × (out.new.items ≡ out.old.items ++ text) }
{
    put_debugged(out, word)?;
    put_expiry(out, item.expires)?;
    put_numbers(out, item)
}

// Whether a quiet command leaves the reply out: what went as it should, and a get that found nothing.
fn is_expected(says: &Says) -> bool
    ensures { result ≡ is_expected says.now }
{
    match says {
        Says::Nothing
        | Says::Stores(_)
        | Says::Number { .. }
        | Says::Line(Reply::Deleted | Reply::Touched) => true,
        _ => false,
    }
}

// Appends what is said, whether a reply is wanted or not.
#[tactic(auto, unfolding(crate::specs::Replies::said_text))]
fn put_said(
    out: &mut Vec<u8>,
    verb: Verb,
    word: &[u8],
    flags: &Words,
    says: &Says,
) -> Result<(), NoMemory>
    ensures ok { OnOk result (out.new.items ≡ out.old.items ++ said_text verb word.now flags.now says.now) }
    ensures short { OnOk result (length out.new.items ≤ length out.old.items + most_of_flags (length word.now) flags.now + length word.now + shown_len says.now + 100) }
    ensures more { (text : List ℕ) × (out.new.items ≡ out.old.items ++ text) }
{
    match says {
        Says::Nothing => put_status(out, verb, word, flags, b"EN", 0),
        Says::Leases { item, left, wins } => put_leased(out, word, flags, item, *left, *wins),
        Says::Number {
            number,
            unique,
            left,
            ..
        } => put_counted(out, word, flags, *number, *unique, *left),
        Says::Shows(item) => put_debug(out, word, item),
        Says::Line(reply @ (Reply::NoRoom | Reply::NoRoomToCount)) => put(out, reply_line(*reply)),
        Says::Line(reply) => put_status(out, verb, word, flags, status_of(*reply), 0),
        Says::Stores(unique) => put_status(out, verb, word, flags, b"HD", unique.unwrap_or(0)),
        Says::Refusal(fault) => put(out, fault_line(*fault)),
    }
}

/// Appends what is replied to a meta command, which is nothing where its flags ask for no reply to that. When out of memory, nothing is appended.
#[tactic(auto, unfolding(crate::specs::Replies::meta_text), using(crate::proofs::ShortLaws::flags_short))]
pub fn put_meta(out: &mut Vec<u8>, manner: &Manner, says: &Says) -> Result<(), NoMemory>
    ensures ok { OnOk result (out.new.items ≡ out.old.items ++ meta_text manner.now says.now) }
    ensures err { OnErr result (out.new.items ≡ out.old.items) }
    ensures short { length out.new.items ≤ length out.old.items + shown_len says.now + MAX_SAID_LEN }
{
    let word = manner.word.bytes();
    let flags = &manner.flags;
    if is_expected(says) && has_flag(b"q".as_slice(), flags.again()) {
        return Ok(());
    }
    let start = out.len();
    let put = put_said(out, manner.verb, word, flags, says);
    if put.is_err() {
        out.truncate(start);
    }
    put
}
