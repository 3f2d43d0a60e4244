//! What is told on standard error while the server goes on: what goes wrong, a line a minute at most for each kind.

use crate::host_causes::cause_of;
use daemon::{Told, Trouble, trouble_text};
use memcached_stats::{Board, Counter};
use std::alloc::Global;
use std::sync::OnceLock;
use tcp_connections::DoorTroubles;

// What goes wrong of a kind, and what was told of it.
#[derive(Clone, Copy)]
struct Kind {
    trouble: Trouble,
    told: Told,
}

impl Kind {
    fn untold(trouble: Trouble) -> Kind {
        Kind {
            trouble,
            told: Told::nothing(),
        }
    }
}

/// What goes wrong, and what was told of each kind.
#[derive(Drop)]
pub struct Journal<'a> {
    board: &'a OnceLock<Board>,
    doors: &'a DoorTroubles,
    kinds: [Kind; 4],
}

// How often it came.
fn count_of(trouble: Trouble, board: &Board, doors: &DoorTroubles) -> u64 {
    match trouble {
        Trouble::StoreRefused => board.count(Counter::StoresRefused),
        Trouble::TurnedAway => doors.turned_away(),
        Trouble::OutOfMemory => {
            // What is rejected was turned away, or there was no memory for it.
            let rejected = board.count(Counter::Rejected);
            let lacked = board.count(Counter::Lacked);
            lacked.saturating_add(rejected.saturating_sub(doors.turned_away()))
        }
        Trouble::NotAccepted => doors.refusals(),
    }
}

impl<'a> Journal<'a> {
    /// Nothing was told. The board is there once the server begins.
    pub fn new(board: &'a OnceLock<Board>, doors: &'a DoorTroubles) -> Journal<'a> {
        Journal {
            board,
            doors,
            kinds: [
                Kind::untold(Trouble::StoreRefused),
                Kind::untold(Trouble::TurnedAway),
                Kind::untold(Trouble::OutOfMemory),
                Kind::untold(Trouble::NotAccepted),
            ],
        }
    }

    /// Tells what came since it was told last, where a minute has passed since. What can't be told is left out.
    pub fn tell<R: Eprint>(&mut self, rt: &R, alloc: Global, second: u64) {
        let Some(board) = self.board.get() else {
            return;
        };
        let doors = self.doors;
        for kind in self.kinds.iter_mut() {
            let count = count_of(kind.trouble, board, doors);
            if let Some(more) = kind.told.due(count, second) {
                let cause = cause_of(&doors.last_refusal());
                if let Some(text) = trouble_text(alloc, kind.trouble, more, cause) {
                    let _ = eprintln!(rt; "micad: {text}");
                }
            }
        }
    }
}
