//! What is replied to a command, as text.
ghost use Rattle.std.specs.Prelude.{◌≡◌, ◌≤◌, ◌+◌, ◌++◌, ◌∷◌, [], length, Some, None, if◌then◌else◌, flat_map, OnOk, OnErr};
ghost use Rattle.memcached_text.specs.declared.limits.TheConstants.{MAX_FRAME_LEN};
ghost use Rattle.memcached_text.specs.Answer.{part_text, last_text, answer_text};
ghost use Rattle.memcached_commands.specs.Answers.{parts_of, last_of, shown_len, answer_of, unless_quiet};

use crate::Says;
use memcached_text::{Item, Reply, fault_line, put_last_value, put_number, put_value, reply_line};
use outside::NoMemory;

// The unique number of an item, where it is asked for.
fn number_of(unique: bool, item: &Item) -> Option<u64>
    ensures { result ≡ (if unique then Some item.now.unique else None) }
{
    if unique { Some(item.unique) } else { None }
}

/// Appends the item that a get of this key shows, if it shows one. When out of memory, nothing is appended.
#[inline(always)]
pub fn put_part(out: &mut Vec<u8>, unique: bool, key: &[u8], says: &Says) -> Result<(), NoMemory>
    ensures ok { OnOk result (out.new.items ≡ out.old.items ++ flat_map part_text (parts_of unique key.now says.now)) }
    ensures err { OnErr result (out.new.items ≡ out.old.items) }
    ensures short { length out.new.items ≤ length out.old.items + length key.now + shown_len says.now + MAX_FRAME_LEN }
{
    let Says::Shows(item) = says else {
        return Ok(());
    };
    put_value(
        out,
        key,
        item.flags,
        item.value.bytes(),
        number_of(unique, item),
    )
}

// Appends a line.
fn put_line(out: &mut Vec<u8>, line: &[u8]) -> Result<(), NoMemory>
    ensures ok { OnOk result (out.new.items ≡ out.old.items ++ line.now) }
    ensures err { OnErr result (out.new.items ≡ out.old.items) }
    ensures short { length out.new.items ≤ length out.old.items + length line.now }
{
    Ok(out.extend_from_slice(line)?)
}

// Appends the last line of what is replied, which for a get is its end. When out of memory, nothing is appended.
fn put_last(out: &mut Vec<u8>, says: &Says) -> Result<(), NoMemory>
    ensures ok { OnOk result (out.new.items ≡ out.old.items ++ last_text (last_of says.now)) }
    ensures err { OnErr result (out.new.items ≡ out.old.items) }
    ensures short { length out.new.items ≤ length out.old.items + MAX_FRAME_LEN }
{
    match says {
        Says::Line(reply) => put_line(out, reply_line(*reply)),
        Says::Refusal(fault) => put_line(out, fault_line(*fault)),
        Says::Stores(_) => put_line(out, reply_line(Reply::Stored)),
        Says::Number { number, .. } => put_number(out, *number),
        Says::Shows(_) | Says::Leases { .. } | Says::Nothing => {
            put_line(out, reply_line(Reply::End))
        }
    }
}

/// Appends all that is replied to a command of one key, which for a get is the item that it shows, if it shows one, and its end. When out of memory, nothing is
/// appended.
#[inline(always)]
pub fn put_whole(out: &mut Vec<u8>, unique: bool, key: &[u8], says: &Says) -> Result<(), NoMemory>
    ensures ok { OnOk result (out.new.items ≡ out.old.items ++ (flat_map part_text (parts_of unique key.now says.now) ++ last_text (last_of says.now))) }
    ensures err { OnErr result (out.new.items ≡ out.old.items) }
    ensures short { length out.new.items ≤ length out.old.items + length key.now + shown_len says.now + MAX_FRAME_LEN }
{
    let Says::Shows(item) = says else {
        return put_last(out, says);
    };
    put_last_value(
        out,
        key,
        item.flags,
        item.value.bytes(),
        number_of(unique, item),
    )
}

/// Appends what is replied to a command of one key, unless it is quiet. When out of memory, nothing is appended.
pub fn put_answer(
    out: &mut Vec<u8>,
    quiet: bool,
    unique: bool,
    key: &[u8],
    says: &Says,
) -> Result<(), NoMemory>
    ensures ok { OnOk result (out.new.items ≡ out.old.items ++ unless_quiet quiet (answer_text (answer_of unique ((key.now, says.now) ∷ [])))) }
    ensures err { OnErr result (out.new.items ≡ out.old.items) }
{
    if quiet {
        return Ok(());
    }
    put_whole(out, unique, key, says)
}
