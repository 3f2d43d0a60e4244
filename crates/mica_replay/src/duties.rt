//! What may be handed to an owner and to a reader of the crew, and what comes back.
use crate::worker::{OwnerWork, ReaderWork};
use mica_trace::TraceLine;
use partition_model::Options;
use partition_table::ReaderSeat;
use partition_words::Partition;
use std::collections::LinkedList;
use std::marker::Brand;
use work_desk::{Terms, Work};

/// The trace and the options by which a reader works. No value of it is made.
pub struct ReadTerms {
    pub lines: LinkedList<TraceLine<'static>>,
    pub options: Options,
}

impl<'a, P: Partition + Drop> Work<()> for OwnerWork<'a, P> {
    ghost use Rattle.mica_replay.specs.Workers.{IsFedOwner, OwnerFed};

    ghost ready = { λ _ w. IsFedOwner w };

    ghost done = { λ _ w v. OwnerFed P.owner P.home w v };

    ghost unset = { tt };
}

impl Work<ReadTerms> for ReaderWork<ReaderSeat> {
    ghost use Rattle.partition_table.specs.Seats.{reader_state, reader_home};
    ghost use Rattle.mica_replay.specs.Workers.{IsReadyReader, ReaderRan};
    ghost use Rattle.mica_replay.specs.Crew.{no_terms};

    ghost ready = { λ terms r. IsReadyReader reader_state terms.lines terms.options r };

    ghost done = { λ terms r t. ReaderRan reader_state reader_home terms.lines terms.options r t };

    ghost unset = { no_terms };
}

impl Terms<ReadTerms> for Brand {
    ghost use Rattle.mica_replay.specs.Crew.{no_terms};

    ghost terms = { no_terms };
}
