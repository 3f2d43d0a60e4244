//! What a client of any protocol may rely on.
ghost use Rattle.memcached_requests.specs.Laws.{AsksAlike, IsTold, MetaAsksAlike, NeverHidesFaults, NextStays, NextWaits, TakesSome};

/// What bytes begin with stays so whatever follows, so it does not matter in which pieces they come. What does not end the connection takes some of them, and few wait.
pub fn one_next()
    ensures stays { NextStays }
    ensures takes { TakesSome }
    ensures waits { NextWaits }
{}

/// A frame wants what its line wants, where there is one, and so does a meta command of no flags.
pub fn asks_alike()
    ensures frames { AsksAlike }
    ensures metas { MetaAsksAlike }
{}

/// Whoever is quiet is told what goes wrong, and whoever is not is told all.
pub fn told_replies()
    ensures faults { NeverHidesFaults }
    ensures told { IsTold }
{}
