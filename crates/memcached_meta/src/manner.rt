//! How meta commands are replied to.
ghost use Rattle.std.specs.Prelude.{◌≡◌};
ghost use Rattle.memcached_meta.specs.Fit.{IsFitMeta, manner_of};

use crate::line::{Meta, Verb};
use memcached_text::{Text, Words};
use std::marker::Model;

/// How a meta command is replied to: by its verb, its key as the client wrote it, and its flags.
#[derive(Drop)]
pub struct Manner<'a> {
    pub verb: Verb,
    pub word: Text<'a>,
    pub flags: Words<'a>,
}

impl<'a> Model for Manner<'a> {
    ghost use Rattle.memcached_meta.specs.Replies.{Manner as How};
    ghost use Rattle.memcached_meta.specs.Fit.{IsFitManner};

    ghost Value = { How };

    ghost view = { λ m. record { verb = m.verb; word = m.word; flags = m.flags } };

    ghost invariant = { λ m. IsFitManner m.word m.flags };
}

impl<'a> Manner<'a> {
    /// That of a command.
    #[tactic(auto, using(crate::proofs::FitLaws::manner_fits))]
    pub fn of(meta: &Meta<'a>) -> Manner<'a>
        requires { IsFitMeta meta.now }
        ensures { result ≡ manner_of meta.now }
    {
        Manner {
            verb: meta.verb,
            word: meta.word.bytes().into(),
            flags: meta.flags.again(),
        }
    }

    /// The same once more.
    pub fn again(&self) -> Manner<'a>
        ensures { result ≡ self.now }
    {
        Manner {
            verb: self.verb,
            word: self.word.bytes().into(),
            flags: self.flags.again(),
        }
    }
}
