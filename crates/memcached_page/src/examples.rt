//! What the page says of some talks: examples, as facts.
ghost use Rattle.std.specs.Prelude.{◌≡◌, ℕ, List, [], ◌∷◌, codes};
ghost use Rattle.partition_model.specs.declared.options.Mode.{Mode as OneMode};
ghost use Rattle.memcached_commands.specs.declared.ask.Ask.TheVariants.{Get};
ghost use Rattle.memcached_commands.specs.declared.ask.Says.TheVariants.{Nothing};
ghost use Rattle.memcached_commands.specs.Asks.{asked};
ghost use Rattle.memcached_page.specs.Shelf.{Shelf, empty};
ghost use Rattle.memcached_page.specs.Course.{carried, IsCourse};
ghost use Rattle.memcached_page.specs.Kept.{KeepsItems, RefusesWhereFull, shelf_in};
ghost use Rattle.memcached_page.specs.Talk.{Talks, done_for};
ghost use Rattle.memcached_page.specs.Examples.{counting, going, losing, losing_old, losing_read, options, refusing, refusing_as_long, refusing_delete, refusing_other, shown_behind_delete, shown_behind_refusal, shown_stale};

use partition_model::Mode;

/// A client sets `n` to 5, another counts it up by 2, and the first gets 7. That is a course, and each is sent what is due to it.
pub fn counts_over_two()
    ensures course { (mode : OneMode) → IsCourse mode empty counting (shelf_in empty counting) }
    ensures first { Talks 1 (codes "set n 0 0 1\r\n5\r\nget n\r\n") (codes "STORED\r\nVALUE n 0 1\r\n7\r\nEND\r\n") (done_for 0 counting) }
    ensures second { Talks 1 (codes "incr n 2\r\n") (codes "7\r\n") (done_for 1 counting) }
{}

/// What was deleted is not shown.
pub fn deleted_is_gone()
    ensures { (mode : OneMode) (left : Shelf) → IsCourse mode empty shown_behind_delete left → ⊥ }
{}

/// What a set that found no room was to replace is not shown behind it.
pub fn refused_is_gone()
    ensures { (mode : OneMode) (left : Shelf) → IsCourse mode empty shown_behind_refusal left → ⊥ }
{}

/// Of two values the one that was set last is shown, whoever set it.
pub fn newest_is_shown()
    ensures { (mode : OneMode) (left : Shelf) → IsCourse mode empty shown_stale left → ⊥ }
{}

/// No item goes as over that is there, and a store loses none.
pub fn store_keeps()
    ensures there { (mode : OneMode) (left : Shelf) → IsCourse mode empty going left → ⊥ }
    ensures none { (left : Shelf) → IsCourse Mode.Store empty losing left → ⊥ }
{}

/// A cache loses none at once, whichever keys may take each other's place, and none for gets. It may lose one once the log was written round behind it.
pub fn cache_keeps()
    ensures at_once { (class : List ℕ → ℕ) → KeepsItems (options Mode.Cache 256) class empty losing → ⊥ }
    ensures for_gets { (class : List ℕ → ℕ) → KeepsItems (options Mode.Cache 6) class empty losing_read → ⊥ }
    ensures round { (class : List ℕ → ℕ) → KeepsItems (options Mode.Cache 12) class empty losing_old }
{}

/// A store refuses nothing for want of room where nothing is stored; nor a value that is no longer than the old one, nor a delete, though all its words are taken. It may refuse another key then.
pub fn refuses_where_full()
    ensures at_once { RefusesWhereFull (options Mode.Store 256) empty refusing → ⊥ }
    ensures as_long { RefusesWhereFull (options Mode.Store 6) empty refusing_as_long → ⊥ }
    ensures delete { RefusesWhereFull (options Mode.Store 6) empty refusing_delete → ⊥ }
    ensures other { RefusesWhereFull (options Mode.Store 6) empty refusing_other }
{}

/// A client is not sent what is due to another.
pub fn own_reply()
    ensures { Talks 1 (codes "get n\r\n") (codes "VALUE m 0 1\r\n7\r\nEND\r\n") (carried 100 1 (asked Get (codes "n")) Nothing ∷ []) → ⊥ }
{}
