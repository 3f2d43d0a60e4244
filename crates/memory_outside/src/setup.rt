//! What a port has before it is bound.
ghost use Rattle.std.specs.Prelude.{◌≡◌, []};

use crate::sent_room::SentRoom;
use outside::Bytes;

/// What a port has before an end is bound to it.
#[derive(Drop)]
pub struct Setup {
    pub datagrams: Vec<Bytes>,
    pub sent: SentRoom,
    pub recv_fails: Vec<u32>,
    pub reply_fails: Vec<u32>,
    pub ghost empty: { sent.sent ≡ [] },
}
