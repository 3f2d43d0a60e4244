//! What a reader knows of its partition. Contracts alone see it: no value of these types is made.
use crate::shape::Shape;
use crate::state::Failure;
use partition_model::Write;
use std::collections::LinkedList;

/// What a try had when it loaded the stamp: the owner's history at that load, and the loads before it.
pub struct Cut {
    pub history: LinkedList<Write>,
    pub loads: LinkedList<(u64, u64)>,
}

/// An open try: its bucket, the even epoch that opened it, its loads of entries, links and item words, each
/// with the word's place and what was found there, and its cut, once the stamp was loaded.
pub struct Try {
    pub bucket: u64,
    pub first: u64,
    pub loads: LinkedList<(u64, u64)>,
    pub at: Option<Cut>,
}

/// What one of two joined seats had seen, and the part of it whose writes had ended.
pub struct Known {
    pub seen: LinkedList<Write>,
    pub done: LinkedList<Write>,
}

/// The state of a reader, or of a note: the history that it has seen, the part of it whose writes had ended,
/// what both seats of its last join knew, the number of its tries' loads and of its tries, its failures, the
/// number of its tries that loaded a stamp and found the first epoch again, and its open try. A look ahead is no
/// load of a try and is not counted.
pub struct ReaderState {
    pub shape: Shape,
    pub seen: LinkedList<Write>,
    pub done: LinkedList<Write>,
    pub met: LinkedList<Known>,
    pub loads: u64,
    pub tried: u64,
    pub fails: LinkedList<Failure>,
    pub closed: u64,
    pub current: Option<Try>,
}
