//! The room that a front has once, for all its connections.
ghost use Rattle.std.specs.Prelude.{◌≡◌, IfOk, vec_len};
ghost use Rattle.connection_loop.specs.declared.desk.TheConstants.{ROOM_LEN};

use crate::answer::LIMITS;
use command_answers::Buffers;
use memcached_stats::Board;
use memcached_text::MAX_REPLY_LEN;
use outside::NoMemory;
use std::alloc::Global;

/// The most bytes of replies that are kept of one client, until it takes them.
pub const MOST_UNSENT: usize = LIMITS.bytes + MAX_REPLY_LEN;

/// So many bytes lie in the room of the front at most: those that are kept of a client, and those that are read behind them.
pub const ROOM_LEN: usize = 65_536;

/// Room for what is looked at of a connection, for replies, and for values, and what the front counts.
#[derive(Drop)]
pub struct Desk<'a> {
    pub room: Vec<u8>,
    pub replies: Vec<u8>,
    pub buffers: Buffers<'a>,
}

impl<'a> Desk<'a> {
    /// That of a front which shows what it counts in this place of the board.
    pub fn new(alloc: Global, board: &'a Board, place: u32) -> Result<Desk<'a>, NoMemory>
        ensures { IfOk result (λ desk. vec_len desk.room ≡ ROOM_LEN) }
    {
        Ok(Desk {
            room: Vec::from_elem(alloc, 0, ROOM_LEN)?,
            replies: Vec::with_capacity(alloc, MOST_UNSENT)?,
            buffers: Buffers::new(alloc, board, place)?,
        })
    }
}
