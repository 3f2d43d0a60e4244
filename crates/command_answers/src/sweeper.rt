//! Items that are over give their room back, and items that are used stay.
ghost use Rattle.std.specs.Prelude.{◌≡◌, ◌<◌, ◌≤◌, ◌+◌, ℕ, false};
ghost use Rattle.mica_words.specs.Item.{KeyFits};
ghost use Rattle.mica_words.specs.Mark.{is_mark};
ghost use Rattle.command_answers.specs.Sweeps.{SweepsBy};

use crate::answer::Numbering;
use crate::keeping::keep_read;
use crate::noted::Noted;
use crate::pace::Pace;
use fronts::{Changed, Changes, Glances, Glimpse, When};
use memcached_decisions::{SweepOrder, is_over};
use outside::NoMemory;
use partition_model::ItemBuf;
use std::alloc::Global;

/// The most answers that one sweep gives: it takes so many steps at most, each of which is a look at an item or at a place.
pub const MOST_SWEPT: u32 = 4_096;

/// For so many items a look under a hold tells how late it is in their partition.
const FRESH: u32 = 64;

/// Where a front looks next for items that are over.
#[derive(Drop)]
pub struct Sweeper {
    partition: u32,
    // The next place of each partition.
    places: Vec<u64>,
    // How often the end of its partition was passed since it turned to it.
    laps: u32,
    pace: Pace,
    turns: u32,
    // When its partition was looked at under a hold last, and for how many more items that is taken for now.
    when: Option<When>,
    fresh: u32,
    key: ItemBuf,
    head: ItemBuf,
    found: ItemBuf,
    next: ItemBuf,
}

impl Sweeper {
    /// A sweeper that begins with the first place of each of so many partitions.
    pub fn new(alloc: Global, partitions: u32) -> Result<Sweeper, NoMemory> {
        Ok(Sweeper {
            partition: 0,
            places: Vec::from_elem(alloc, 0, partitions as usize)?,
            laps: 0,
            pace: Pace::new(),
            turns: 0,
            when: None,
            fresh: 0,
            key: ItemBuf::new(alloc)?,
            head: ItemBuf::new(alloc)?,
            found: ItemBuf::new(alloc)?,
            next: ItemBuf::new(alloc)?,
        })
    }

    // Turns to a partition, and goes on there where it was.
    fn turn_to(&mut self, partition: u32) {
        self.partition = partition;
        self.laps = 0;
        self.when = None;
    }

    // The next place of its partition.
    fn place(&self) -> u64 {
        self.places
            .get(self.partition as usize)
            .copied()
            .unwrap_or(0)
    }

    fn go_to(&mut self, place: u64) {
        if let Some(next) = self.places.get_mut(self.partition as usize) {
            *next = place;
        }
    }

    fn step(&mut self) {
        let place = self.place();
        self.go_to(place.saturating_add(1));
    }

    // Behind the last place: goes to the first one, and on to the next partition unless room is wanted here. It is not to be had where all places were passed.
    fn pass_end(&mut self, partitions: u32) {
        self.go_to(0);
        self.laps = self.laps.saturating_add(1);
        if self.laps > 1 {
            self.pace.rest();
        }
        if !self.pace.is_hurried() {
            let next = self.partition.saturating_add(1);
            self.turn_to(if next < partitions { next } else { 0 });
        }
    }

    // Turns to the partition where a write found no room, if one did.
    fn want_room(&mut self, full: Option<u32>) {
        if let Some(partition) = full {
            self.turn_to(partition);
            self.pace.hurry();
        }
    }

    // How often it went over the partitions that were written.
    fn next_turn(&mut self) -> u32 {
        self.turns = self.turns.wrapping_add(1);
        self.turns
    }

    // Whether the item that was glanced at seems to be there.
    fn seems_there(&self, base: u64) -> bool {
        match self.when {
            Some(when) => self.fresh > 0 && !is_over(base, when, self.head.value()),
            None => false,
        }
    }
}

// Looks at a key under a hold, and deletes what is over.
fn sweep_key<F: Changes>(
    front: &mut F,
    second: u64,
    base: u64,
    key: &[u8],
    found: &mut ItemBuf,
    next: &mut ItemBuf,
) -> Changed
    requires key { KeyFits key.now }
    requires mark { is_mark key.now ≡ false }
    requires left { 0 < F.left front.old }
    ensures swept { SweepsBy (F.options front.old) F.is_alone base second 1 (F.sessions front.old) (F.left front.old) (F.sessions front.new) (F.left front.new) }
    ensures left { F.left front.old ≤ F.left front.new + 1 }
    ensures options { F.options front.new ≡ F.options front.old }
    ensures number { F.number front.new ≡ F.number front.old }
    ensures stands { F.stands front.new ≡ F.stands front.old }
{
    let order = SweepOrder::new(base);
    front.change(second, key, &order, found, next)
}

// Takes away the item that was glanced at, unless it is there, and says whether it did. It looks under a hold once for so many items, and where one seems to be over.
fn sweep_item<F: Changes>(front: &mut F, second: u64, base: u64, sweeper: &mut Sweeper) -> bool
    requires key { KeyFits sweeper.old.key × (is_mark sweeper.old.key ≡ false) }
    requires left { 0 < F.left front.old }
    ensures swept { SweepsBy (F.options front.old) F.is_alone base second 1 (F.sessions front.old) (F.left front.old) (F.sessions front.new) (F.left front.new) }
    ensures left { F.left front.old ≤ F.left front.new + 1 }
    ensures options { F.options front.new ≡ F.options front.old }
    ensures number { F.number front.new ≡ F.number front.old }
    ensures stands { F.stands front.new ≡ F.stands front.old }
{
    if sweeper.seems_there(base) {
        sweeper.fresh = sweeper.fresh.saturating_sub(1);
        sweeper.step();
        return false;
    }
    let Sweeper {
        key,
        found,
        next,
        ..
    } = sweeper;
    let changed = sweep_key(front, second, base, key.value(), found, next);
    sweeper.when = Some(changed.when);
    sweeper.fresh = FRESH;
    let gone = changed.outcome.is_some_and(|outcome| outcome.is_accepted());
    if !gone {
        sweeper.step();
    }
    gone
}

// Looks at the next place, and says whether an item was taken away there.
fn sweep_place<F: Glances>(
    front: &mut F,
    second: u64,
    numbering: Numbering,
    sweeper: &mut Sweeper,
) -> bool
    requires partitions { numbering.partitions ≡ (F.options front.old).partitions }
    requires left { 0 < F.left front.old }
    ensures swept { SweepsBy (F.options front.old) F.is_alone numbering.base second 1 (F.sessions front.old) (F.left front.old) (F.sessions front.new) (F.left front.new) }
    ensures left { F.left front.old ≤ F.left front.new + 1 }
    ensures options { F.options front.new ≡ F.options front.old }
    ensures number { F.number front.new ≡ F.number front.old }
    ensures stands { F.stands front.new ≡ F.stands front.old }
{
    let (partition, place) = (sweeper.partition, sweeper.place());
    if partition >= numbering.partitions {
        sweeper.turn_to(0);
        return false;
    }
    match front.glance(partition, place, &mut sweeper.key, &mut sweeper.head) {
        Glimpse::Item => sweep_item(front, second, numbering.base, sweeper),
        Glimpse::Nothing => {
            sweeper.step();
            false
        }
        Glimpse::Beyond => {
            sweeper.pass_end(numbering.partitions);
            false
        }
    }
}

// Looks at the next places, so many at most, and takes away what is over. Says how many places it looked at.
fn sweep_places<F: Glances>(
    front: &mut F,
    second: u64,
    numbering: Numbering,
    most: u32,
    sweeper: &mut Sweeper,
) -> u32
    requires partitions { numbering.partitions ≡ (F.options front.old).partitions }
    requires left { most ≤ F.left front.old }
    ensures swept { SweepsBy (F.options front.old) F.is_alone numbering.base second result (F.sessions front.old) (F.left front.old) (F.sessions front.new) (F.left front.new) }
    ensures few { result ≤ most }
    ensures left { F.left front.old ≤ F.left front.new + result }
    ensures options { F.options front.new ≡ F.options front.old }
    ensures number { F.number front.new ≡ F.number front.old }
    ensures stands { F.stands front.new ≡ F.stands front.old }
{
    let mut looked = 0;
    let mut taken: u32 = 0;
    while looked < most && !sweeper.pace.is_enough(taken) {
        let gone = sweep_place(front, second, numbering, sweeper);
        taken = taken.saturating_add(u32::from(gone));
        looked += 1;
    }
    sweeper.pace.adapt(looked, taken);
    looked
}

/// Touches what was read and will be written over soon, in the partitions that were written, and looks at the next places of an index, as far as so many writes reach.
/// Takes away what is over there. Where a write found no room, it looks far in that partition. Says how many writes it may have made.
pub fn sweep<F: Glances>(
    front: &mut F,
    second: u64,
    numbering: Numbering,
    most: u64,
    noted: &mut Noted,
    sweeper: &mut Sweeper,
) -> u64
    requires partitions { numbering.partitions ≡ (F.options front.old).partitions }
    requires left { most ≤ F.left front.old }
    ensures swept { SweepsBy (F.options front.old) F.is_alone numbering.base second MOST_SWEPT (F.sessions front.old) (F.left front.old) (F.sessions front.new) (F.left front.new) }
    ensures few { result ≤ most }
    ensures left { F.left front.old ≤ F.left front.new + result }
    ensures options { F.options front.new ≡ F.options front.old }
    ensures number { F.number front.new ≡ F.number front.old }
    ensures stands { F.stands front.new ≡ F.stands front.old }
{
    let most = u32::try_from(most).unwrap_or(u32::MAX).min(MOST_SWEPT);
    let first = sweeper.next_turn();
    let kept = keep_read(
        front,
        numbering.partitions,
        most,
        noted,
        first,
        &mut sweeper.key,
    );
    sweeper.want_room(noted.take_full());
    let places = sweeper.pace.places(second).min(most - kept);
    let looked = sweep_places(front, second, numbering, places, sweeper);
    u64::from(kept + looked)
}
