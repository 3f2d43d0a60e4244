//! What is replied, in whatever protocol.
ghost use Rattle.std.specs.Prelude.{◌≡◌, ◌≤◌, ◌+◌, ◌++◌, length, OnOk, OnErr};
ghost use Rattle.memcached_text.specs.declared.limits.TheConstants.{MAX_KEY_LEN, MAX_TEXT_LEN};
ghost use Rattle.memcached_meta.specs.declared.reply.TheConstants.{MAX_SAID_LEN};
ghost use Rattle.memcached_text.specs.Replies as lines;
ghost use Rattle.memcached_commands.specs.Answers.{shown_len};
ghost use Rattle.memcached_requests.specs.Replies.{said_text, stat_text};

use crate::frame_reply::{put_count, put_frame};
use crate::request::Style;
use memcached_commands::{Says, put_part, put_whole};
use memcached_meta::{meta_fault_line, put_meta};
use outside::NoMemory;

/// Appends what is replied where this is said of a key, or of none, by whether nothing more is said behind it. When out of memory, nothing is appended.
#[inline(always)]
#[tactic(auto, unfolding(crate::specs::Replies::said_text))]
pub fn put_said(
    out: &mut Vec<u8>,
    style: &Style,
    is_last: bool,
    key: &[u8],
    says: &Says,
) -> Result<(), NoMemory>
    requires key { length key.now ≤ MAX_KEY_LEN }
    requires value { shown_len says.now ≤ MAX_TEXT_LEN }
    ensures ok { OnOk result (out.new.items ≡ out.old.items ++ said_text style.now is_last key.now says.now) }
    ensures err { OnErr result (out.new.items ≡ out.old.items) }
    ensures short { length out.new.items ≤ length out.old.items + shown_len says.now + MAX_SAID_LEN }
{
    match style {
        Style::Classic { quiet: true, .. } => Ok(()),
        Style::Classic { unique, .. } if is_last => put_whole(out, *unique, key, says),
        Style::Classic { unique, .. } => put_part(out, *unique, key, says),
        Style::Frame(echo) => put_frame(out, *echo, key, says),
        Style::Meta(manner) => put_meta(out, manner, says),
        Style::Fault(fault) => Ok(out.extend_from_slice(meta_fault_line(*fault))?),
    }
}

// Appends one thing that is counted, as a line. When out of memory, nothing is appended.
fn put_line(out: &mut Vec<u8>, name: &[u8], value: &[u8]) -> Result<(), NoMemory>
    ensures ok { OnOk result (out.new.items ≡ out.old.items ++ lines.stat_text name.now value.now) }
    ensures err { OnErr result (out.new.items ≡ out.old.items) }
    ensures short { OnOk result (length out.new.items ≤ length out.old.items + 24 + length name.now + length value.now) }
{
    memcached_text::put_stat(out, name, value)
}

/// Appends one thing that the server counts. When out of memory, nothing is appended.
pub fn put_stat(out: &mut Vec<u8>, style: &Style, name: &[u8], value: &[u8]) -> Result<(), NoMemory>
    requires name { length name.now ≤ MAX_KEY_LEN }
    requires value { length value.now ≤ MAX_TEXT_LEN }
    ensures ok { OnOk result (out.new.items ≡ out.old.items ++ stat_text style.now name.now value.now) }
    ensures err { OnErr result (out.new.items ≡ out.old.items) }
    ensures short { OnOk result (length out.new.items ≤ length out.old.items + 24 + length name.now + length value.now) }
{
    match style {
        Style::Frame(echo) => put_count(out, *echo, name, value),
        Style::Classic { .. } => put_line(out, name, value),
        Style::Meta(_) => put_line(out, name, value),
        Style::Fault(_) => put_line(out, name, value),
    }
}
