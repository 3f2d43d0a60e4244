//! How much room bytes get that wait for more.
ghost use Rattle.std.specs.Prelude.{◌<◌, ◌≤◌};
ghost use Rattle.memcached_text.specs.declared.limits.TheConstants.{MAX_WAITING_LEN};

use memcached_text::MAX_WAITING_LEN;

/// How much room so many bytes get that wait for more: for as many again, but for no more than may wait.
pub fn wider(len: usize) -> usize
    ensures least { len ≤ result }
    ensures more { len < MAX_WAITING_LEN → len < result }
{
    if len < MAX_WAITING_LEN {
        (2 * len + 1).min(MAX_WAITING_LEN)
    } else {
        len
    }
}
