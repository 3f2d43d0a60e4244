//! What is stored of an item.
ghost use Rattle.std.specs.Prelude.{◌≡◌, ◌++◌, OnOk, OnErr, if◌then◌else◌};
ghost use Rattle.memcached_text.specs.Item.{marked, item_text, item_in};

use crate::Text;
use crate::append::append_parts;
use crate::limits::HEADER_LEN;
use byteorder::{ByteOrder, LittleEndian};
use outside::NoMemory;

/// An item, whose value lies in other bytes.
#[derive(Drop)]
pub struct Item<'a> {
    pub flags: u32,
    /// The second from which on it is not there, and 0 where it is kept for ever.
    pub expires: u32,
    /// Its unique number, of 62 bits.
    pub unique: u64,
    /// A newer one is wanted.
    pub stale: bool,
    /// A client was told to store that.
    pub won: bool,
    pub value: Text<'a>,
}

// How many unique numbers there are, which is the bit of the first mark.
const STALE: u64 = 1 << 62;

// The bit of the second mark.
const WON: u64 = 1 << 63;

// A bit, where it is set.
fn bit_if(set: bool, bit: u64) -> u64
    ensures { result ≡ (if set then bit else 0) }
{
    if set { bit } else { 0 }
}

/// The unique number of an item with its marks in the two bits above.
pub fn marked(item: &Item) -> u64
    ensures { result ≡ marked item.now }
{
    item.unique % STALE + bit_if(item.stale, STALE) + bit_if(item.won, WON)
}

/// Appends what is stored of an item. Where memory runs out, nothing is appended.
#[tactic(auto, unfolding(crate::specs::Item::item_text))]
pub fn put_item(out: &mut Vec<u8>, item: Item) -> Result<(), NoMemory>
    ensures ok { OnOk result (out.new.items ≡ out.old.items ++ item_text item.entry) }
    ensures err { OnErr result (out.new.items ≡ out.old.items) }
{
    append_parts(
        out,
        &[
            item.flags.to_le_bytes().as_slice(),
            item.expires.to_le_bytes().as_slice(),
            marked(&item).to_le_bytes().as_slice(),
            item.value.bytes(),
        ],
    )
}

/// The item of what is stored. It takes nothing for a fault, since another protocol may have stored it.
#[tactic(auto, unfolding(crate::specs::Item::item_in))]
pub fn read_item(stored: &[u8]) -> Item
    ensures { result ≡ item_in stored.now }
{
    if stored.len() < HEADER_LEN {
        return Item {
            flags: 0,
            expires: 0,
            unique: 0,
            stale: false,
            won: false,
            value: stored.into(),
        };
    }
    let word = LittleEndian::read_u64(&stored[8..]);
    Item {
        flags: LittleEndian::read_u32(stored),
        expires: LittleEndian::read_u32(&stored[4..]),
        unique: word % STALE,
        stale: word % WON >= STALE,
        won: word >= WON,
        value: stored[HEADER_LEN..].into(),
    }
}
