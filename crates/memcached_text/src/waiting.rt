//! Bytes that wait for more.
ghost use Rattle.std.specs.Prelude.{◌≡◌, true};
ghost use Rattle.memcached_text.specs.Lines.{Lacks};
ghost use Rattle.memcached_text.specs.Next.{next_of};

use crate::next::{Next, is_binary, most_line};
use crate::split::split_at_byte;

/// Whether no byte is a line feed.
pub fn lacks_feed(from: &[u8]) -> bool
    ensures { result ≡ true → Lacks 10 from.now }
{
    match split_at_byte(from, b'\n') {
        Some(_) => false,
        None => true,
    }
}

/// Whether bytes with no line feed wait for more.
#[tactic(auto, using(crate::proofs::NextLaws::no_line_short))]
pub fn waits_for_line(from: &[u8]) -> bool
    requires { Lacks 10 from.now }
    ensures { result ≡ true → next_of from.now ≡ Next.More }
{
    from.len() <= most_line(from) && !is_binary(from)
}
