//! What a client wants.
ghost use Rattle.std.specs.Prelude.{◌≡◌};
ghost use Rattle.memcached_requests.specs.Requests.{IsFitRequest, IsFitStale, is_last, len_of, refused};

use memcached_commands::{Ask, Asks, Says};
use memcached_frames::Echo;
use memcached_meta::{Manner, MetaFault};
use memcached_text::{Due, Fault, Text, Topic};

/// What a client wants, in whatever way it is spelled.
#[derive(Drop)]
pub enum Request<'a> {
    /// This of some keys.
    Keys(Asks<'a>),
    /// All items that are stored before it is due are to go then.
    Flush(Due),
    /// What is told of this.
    Stats(Topic),
    /// Nothing but this reply. What is refused is told so.
    Said(Says<'a>),
}

/// How what was said is to be replied to.
#[derive(Drop)]
pub enum Style<'a> {
    /// As to lines with no flags.
    Classic {
        /// No reply is wanted.
        quiet: bool,
        /// Unique numbers are wanted.
        unique: bool,
    },
    /// As to a frame, whose opcode says what is told of what was said.
    Frame(Echo),
    /// As to a meta command, whose flags say what is told of what was said.
    Meta(Manner<'a>),
    /// By the line of this fault of a meta command, whatever was said.
    Fault(MetaFault),
}

impl<'a> Style<'a> {
    /// The same once more.
    #[inline(always)]
    pub fn again(&self) -> Style<'a>
        ensures { result ≡ self.now }
    {
        match self {
            Style::Classic { quiet, unique } => Style::Classic {
                quiet: *quiet,
                unique: *unique,
            },
            Style::Frame(echo) => Style::Frame(*echo),
            Style::Meta(manner) => Style::Meta(manner.again()),
            Style::Fault(fault) => Style::Fault(*fault),
        }
    }
}

/// What a client's bytes begin with.
#[derive(Drop)]
pub enum Next<'a> {
    /// A request, which takes so many bytes. Of what is refused, some of them may not have come yet.
    Whole {
        request: Request<'a>,
        style: Style<'a>,
        len: usize,
        /// The connection is to end behind it.
        is_last: bool,
    },
    /// The beginning of one.
    More,
}

impl<'a> Next<'a> {
    /// The bytes that it takes, or that are dropped.
    #[inline(always)]
    pub fn taken(&self) -> usize
        ensures { result ≡ len_of self.now }
    {
        match self {
            Next::Whole { len, .. } => *len,
            Next::More => 0,
        }
    }

    /// Whether it ends the connection.
    #[inline(always)]
    pub fn is_last(&self) -> bool
        ensures { result ≡ is_last self.now }
    {
        match self {
            Next::Whole { is_last, .. } => *is_last,
            Next::More => false,
        }
    }
}

/// What is refused. The item of a key that is stale is to go.
#[inline(always)]
pub fn refused<'a>(fault: Fault, stale: Option<Text<'a>>) -> Request<'a>
    ensures is { result ≡ refused fault stale.entry }
    ensures fit { IsFitStale stale.entry → IsFitRequest result }
{
    match stale {
        Some(key) => Request::Keys(Asks::one(key, Ask::Spoil)),
        None => Request::Said(Says::Refusal(fault)),
    }
}
