//! Items of a cache that were read stay: they are written anew before the log is written over there.
ghost use Rattle.std.specs.Prelude.{◌≡◌, ◌<◌, ◌≤◌, ◌+◌, ℕ};
ghost use Rattle.mica_words.specs.Item.{KeyFits};
ghost use Rattle.partition_model.specs.declared.options.Mode.TheVariants.{Cache};
ghost use Rattle.command_answers.specs.Sweeps.{SweepsBy};

use crate::noted::Noted;
use fronts::{Changes, Glances, Passed};
use partition_model::ItemBuf;

/// A sweep writes no more items anew once it has written so many words of them.
pub const MOST_MOVED: u32 = 131_072;

// How far a look goes, how many words it may still write anew, and whether it is over.
#[derive(Clone, Copy)]
struct Look {
    end: u64,
    words: u32,
    is_over: bool,
}

impl Look {
    // An item of so many words was written anew.
    fn took(&mut self, words: u32) {
        self.words = self.words.saturating_sub(words);
        self.is_over = self.words == 0;
    }
}

// Touches a key, in cache mode.
fn touch_key<F: Changes>(front: &mut F, key: &[u8])
    requires mode { (F.options front.old).mode ≡ Cache }
    requires key { KeyFits key.now }
    requires left { 0 < F.left front.old }
    ensures swept { (base second : ℕ) → SweepsBy (F.options front.old) F.is_alone base second 1 (F.sessions front.old) (F.left front.old) (F.sessions front.new) (F.left front.new) }
    ensures left { F.left front.old ≤ F.left front.new + 1 }
    ensures options { F.options front.new ≡ F.options front.old }
    ensures number { F.number front.new ≡ F.number front.old }
    ensures stands { F.stands front.new ≡ F.stands front.old }
{
    front.touch(key);
}

// Moves the hand of a partition on, and touches the item that it came by, if that was read.
fn keep_item<F: Glances>(front: &mut F, partition: u32, look: &mut Look, key: &mut ItemBuf)
    requires partition { partition < (F.options front.old).partitions }
    requires left { 0 < F.left front.old }
    ensures swept { (base second : ℕ) → SweepsBy (F.options front.old) F.is_alone base second 1 (F.sessions front.old) (F.left front.old) (F.sessions front.new) (F.left front.new) }
    ensures left { F.left front.old ≤ F.left front.new + 1 }
    ensures options { F.options front.new ≡ F.options front.old }
    ensures number { F.number front.new ≡ F.number front.old }
    ensures stands { F.stands front.new ≡ F.stands front.old }
{
    match front.pass_item(partition, look.end, key) {
        Passed::Read(words) => {
            touch_key(front, key.value());
            look.took(words);
        }
        Passed::Other => {}
        Passed::End => look.is_over = true,
    }
}

// Moves the hand of a partition on, by so many steps at most, and touches what was read, until so many words are written anew. Says how many steps it took.
fn keep_in<F: Glances>(
    front: &mut F,
    partition: u32,
    most: u32,
    words: &mut u32,
    key: &mut ItemBuf,
) -> u32
    requires partition { partition < (F.options front.old).partitions }
    requires left { most ≤ F.left front.old }
    ensures swept { (base second : ℕ) → SweepsBy (F.options front.old) F.is_alone base second result (F.sessions front.old) (F.left front.old) (F.sessions front.new) (F.left front.new) }
    ensures few { result ≤ most }
    ensures left { F.left front.old ≤ F.left front.new + result }
    ensures options { F.options front.new ≡ F.options front.old }
    ensures number { F.number front.new ≡ F.number front.old }
    ensures stands { F.stands front.new ≡ F.stands front.old }
{
    let mut look = Look {
        end: front.end_of_look(partition),
        words: *words,
        is_over: *words == 0,
    };
    let mut looked = 0;
    while looked < most && !look.is_over {
        keep_item(front, partition, &mut look, key);
        looked += 1;
    }
    *words = look.words;
    looked
}

// The same, where the partition was written.
#[tactic(auto, using(crate::proofs::Sweeping::none_swept))]
fn keep_written<F: Glances>(
    front: &mut F,
    partition: u32,
    most: u32,
    words: &mut u32,
    noted: &mut Noted,
    key: &mut ItemBuf,
) -> u32
    requires partition { partition < (F.options front.old).partitions }
    requires left { most ≤ F.left front.old }
    ensures swept { (base second : ℕ) → SweepsBy (F.options front.old) F.is_alone base second result (F.sessions front.old) (F.left front.old) (F.sessions front.new) (F.left front.new) }
    ensures few { result ≤ most }
    ensures left { F.left front.old ≤ F.left front.new + result }
    ensures options { F.options front.new ≡ F.options front.old }
    ensures number { F.number front.new ≡ F.number front.old }
    ensures stands { F.stands front.new ≡ F.stands front.old }
{
    if noted.take_written(partition) {
        keep_in(front, partition, most, words, key)
    } else {
        0
    }
}

/// Moves the hands on of the partitions that were written, and touches what was read. The first of them is another one each time. Says how many steps it took, no more than
/// so many.
pub fn keep_read<F: Glances>(
    front: &mut F,
    partitions: u32,
    most: u32,
    noted: &mut Noted,
    first: u32,
    key: &mut ItemBuf,
) -> u32
    requires partitions { partitions ≡ (F.options front.old).partitions }
    requires left { most ≤ F.left front.old }
    ensures swept { (base second : ℕ) → SweepsBy (F.options front.old) F.is_alone base second result (F.sessions front.old) (F.left front.old) (F.sessions front.new) (F.left front.new) }
    ensures few { result ≤ most }
    ensures left { F.left front.old ≤ F.left front.new + result }
    ensures options { F.options front.new ≡ F.options front.old }
    ensures number { F.number front.new ≡ F.number front.old }
    ensures stands { F.stands front.new ≡ F.stands front.old }
{
    let mut looked = 0;
    let mut words = MOST_MOVED;
    for at in 0..partitions {
        let partition = first.wrapping_add(at) % partitions;
        looked += keep_written(front, partition, most - looked, &mut words, noted, key);
    }
    looked
}
