//! What is told of other topics.
ghost use Rattle.std.specs.Prelude.{◌≡◌, ◌≤◌, length, map};
ghost use Rattle.std.specs.List.{All};
ghost use Rattle.memcached_stats.specs.Lines.{IsShort, stat_in};
ghost use Rattle.memcached_stats.specs.Stats.{fixed_stats, on_or_off, slab_stats, start_stats};

use crate::figures::About;
use crate::lines::{Line, told, told_word};
use memcached_text::MAX_TEXT_LEN;

fn on_or_off(is_on: bool) -> &'static [u8]
    ensures is { result.now ≡ on_or_off is_on }
    ensures short { length result.now ≤ 3 }
{
    if is_on { b"on" } else { b"off" }
}

/// What the server was started with.
pub(crate) fn start_lines(about: &About) -> [Line; 6]
    ensures are { map stat_in result ≡ start_stats about.now }
    ensures short { All IsShort result }
{
    [
        told(b"maxbytes", about.limit_maxbytes),
        told(b"maxconns", about.max_connections),
        told(b"tcpport", about.port),
        told_word(b"evictions", on_or_off(about.evicts)),
        told(b"num_threads", about.threads),
        told(b"idle_timeout", about.idle_timeout),
    ]
}

/// What never changes.
pub(crate) fn fixed_lines() -> [Line; 18]
    ensures are { map stat_in result ≡ fixed_stats }
    ensures short { All IsShort result }
{
    [
        told(b"udpport", 0),
        told(b"verbosity", 0),
        told(b"item_size_max", MAX_TEXT_LEN as u64),
        told_word(b"binding_protocol", b"auto-negotiate"),
        told_word(b"cas_enabled", b"yes"),
        told_word(b"maxconns_fast", b"yes"),
        told_word(b"flush_enabled", b"yes"),
        told_word(b"shutdown_command", b"no"),
        told_word(b"detail_enabled", b"no"),
        told_word(b"dump_enabled", b"no"),
        told_word(b"auth_enabled_sasl", b"no"),
        told_word(b"auth_enabled_ascii", b"no"),
        told_word(b"ssl_enabled", b"no"),
        told_word(b"slab_reassign", b"no"),
        told_word(b"lru_crawler", b"no"),
        told_word(b"lru_maintainer_thread", b"no"),
        told_word(b"lru_segmented", b"no"),
        told_word(b"track_sizes", b"no"),
    ]
}

/// The memory that items lie in.
pub(crate) fn slab_lines(about: &About) -> [Line; 2]
    ensures are { map stat_in result ≡ slab_stats about.now }
    ensures short { All IsShort result }
{
    [
        told(b"active_slabs", 0),
        told(b"total_malloced", about.malloced),
    ]
}
