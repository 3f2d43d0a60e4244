//! What a client may rely on.
ghost use Rattle.memcached_meta.specs.Laws.{AskAsClassic, IsNeverHidden, IsOneSpelling, MetaStays};

/// Without flags, a meta command asks what a classic one asks.
pub fn as_classic()
    ensures { AskAsClassic }
{}

/// A quiet command leaves out what went as it should and a miss of a get, and nothing else.
pub fn never_hidden()
    ensures { IsNeverHidden }
{}

/// A key has one spelling in base64: what is echoed is what was sent.
pub fn one_spelling()
    ensures { IsOneSpelling }
{}

/// What bytes begin with stays so whatever follows.
pub fn whole_lines()
    ensures { MetaStays }
{}
