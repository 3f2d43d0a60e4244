//! What a client's bytes begin with.
ghost use Rattle.std.specs.Prelude.{◌≡◌};
ghost use Rattle.memcached_requests.specs.Next.{is_frame, next_of};
ghost use Rattle.memcached_requests.specs.Requests.{IsFitNext};

use crate::frame::of_frame;
use crate::line::of_line;
use crate::meta::of_meta;
use crate::request::Next;
use memcached_frames::{REQUEST, next_frame};
use memcached_meta::next_meta;
use memcached_text::MAX_TEXT_LEN;

// Whether the bytes begin with a frame: with its byte no line begins that is a command.
#[inline(always)]
fn is_frame(from: &[u8]) -> bool
    ensures { result ≡ is_frame from.now }
{
    match from {
        [first, ..] => *first == REQUEST,
        [] => false,
    }
}

/// What the bytes begin with. It stays so whatever bytes follow, unless it is `More`.
#[inline(always)]
#[tactic(auto, unfolding(crate::specs::Next::next_of))]
pub fn next_command(from: &[u8]) -> Next
    ensures next { result ≡ next_of from.now }
    ensures fit { IsFitNext result }
{
    if is_frame(from) {
        of_frame(next_frame(from, MAX_TEXT_LEN))
    } else if let Some(next) = next_meta(from) {
        of_meta(next)
    } else {
        of_line(memcached_text::next_command(from))
    }
}
