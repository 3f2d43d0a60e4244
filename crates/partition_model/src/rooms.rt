//! Which room an item keeps.
ghost use Rattle.std.specs.Prelude.{◌≡◌};
ghost use Rattle.partition_model.specs.Rooms.{keeps, KeepsSmallRooms};

use mica_words::{MAX_KEY_LEN, MAX_VALUE_LEN};

// The words of the largest item of a trace.
const LARGEST_ITEM: u64 = 2 + (MAX_KEY_LEN as u64 + 7) / 8 + (MAX_VALUE_LEN as u64 + 7) / 8;

/// Whether an item of so many words keeps the room that its key has.
pub fn keeps(size: u32, room: u32) -> bool
    ensures { result ≡ keeps size room }
{
    size <= room && u64::from(room) <= 2 * u64::from(size) + LARGEST_ITEM
}

/// No key of a trace loses its room.
pub fn small_rooms_stay()
    ensures { KeepsSmallRooms }
{}
