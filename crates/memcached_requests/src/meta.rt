//! What a meta command wants.
ghost use Rattle.std.specs.Prelude.{◌≡◌};
ghost use Rattle.memcached_meta.specs.Fit.{IsFitMetaNext};
ghost use Rattle.memcached_requests.specs.MetaRequests.{of_meta, style_of, refused_by};
ghost use Rattle.memcached_requests.specs.Requests.{IsFitNext, IsFitRequest, IsFitStale};

use crate::line::classic;
use crate::request::{Next, Request, Style};
use memcached_commands::{Ask, Asks, Key, Says};
use memcached_meta::{Manner, MetaFault, MetaNext, is_base64, meta_ask};
use memcached_text::Fault;

// How a meta command that is refused is replied to: as a line, where its fault is one of lines.
fn style_of<'a>(fault: MetaFault) -> Style<'a>
    ensures { result ≡ style_of fault }
{
    match fault {
        MetaFault::Line(_) => classic(false),
        _ => Style::Fault(fault),
    }
}

// What is refused. The item of a key that is stale is to go.
fn refused_by<'a>(fault: MetaFault, stale: Option<Key<'a>>) -> Request<'a>
    ensures is { result ≡ refused_by fault stale.entry }
    ensures fit { IsFitStale stale.entry → IsFitRequest result }
{
    match (fault, stale) {
        (_, Some(key)) => Request::Keys(Asks::spelled(key, Ask::Spoil)),
        (MetaFault::Line(fault), None) => Request::Said(Says::Refusal(fault)),
        (_, None) => Request::Said(Says::Refusal(Fault::Format)),
    }
}

/// What the meta command at the front of bytes wants.
pub fn of_meta<'a>(next: MetaNext<'a>) -> Next<'a>
    requires fit { IsFitMetaNext next }
    ensures is { result ≡ of_meta next.entry }
    ensures fit { IsFitNext result }
{
    match next {
        MetaNext::Whole(meta, len) => {
            let style = Style::Meta(Manner::of(&meta));
            let ask = meta_ask(&meta);
            let key = Key::spelled(meta.word, is_base64(meta.flags));
            Next::Whole {
                request: Request::Keys(Asks::spelled(key, ask)),
                style,
                len,
                is_last: false,
            }
        }
        MetaNext::Dropped { fault, stale, len } => Next::Whole {
            request: refused_by(fault, stale),
            style: style_of(fault),
            len,
            is_last: false,
        },
        MetaNext::More => Next::More,
    }
}
