//! What the store machine keeps of a key.
ghost use Rattle.mica_words.specs.Item.{StoredFits};

use outside::Bytes;

// What a key has: its value, and how many words it may use.
#[derive(Drop)]
pub struct Cell {
    pub value: Bytes,
    pub room: u32,
    ghost fits: { StoredFits value },
}
