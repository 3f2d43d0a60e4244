//! A bucket of sixteen keys in store mode, whose one spare bucket is taken, given back and taken again.

use crate::machine::Machine;
use crate::partitions::store_over;
use crate::same_as_machine::{agree_on_get, agreed};
use crate::scripts::Written;
use mica_words::Hashing;
use partition_model::{ItemBuf, Mode, Op, Options, Outcome};
use partition_words::{OwnerEvent, Partition};
use std::alloc::AllocGlobal;
use std::process::Abort;
use std::test::Fail;

const ONE_SPARE: Options = Options {
    mode: Mode::Store,
    partitions: 1,
    buckets: 1,
    spares: 1,
    words: 1024,
    readers: 1,
    tries: 1,
    wear: 68_719_476_736,
    hashing: Hashing::Fnv1a,
};

// Tag and offset: items of four words each, and `k17` where `k03` was.
const ENTRY_OF_K03: u64 = 0x1419_0000_0000_0008;

const ENTRY_OF_K16: u64 = 0x8119_0000_0000_003c;

const ENTRY_OF_K17: u64 = 0x8019_0000_0000_0008;

static WRITES: [Written; 19] = [
    Written(Op::Put, b"k01", b"1", Outcome::Stored),
    Written(Op::Put, b"k02", b"2", Outcome::Stored),
    Written(Op::Put, b"k03", b"3", Outcome::Stored),
    Written(Op::Put, b"k04", b"4", Outcome::Stored),
    Written(Op::Put, b"k05", b"5", Outcome::Stored),
    Written(Op::Put, b"k06", b"6", Outcome::Stored),
    Written(Op::Put, b"k07", b"7", Outcome::Stored),
    Written(Op::Put, b"k08", b"8", Outcome::Stored),
    Written(Op::Put, b"k09", b"9", Outcome::Stored),
    Written(Op::Put, b"k10", b"10", Outcome::Stored),
    Written(Op::Put, b"k11", b"11", Outcome::Stored),
    Written(Op::Put, b"k12", b"12", Outcome::Stored),
    Written(Op::Put, b"k13", b"13", Outcome::Stored),
    Written(Op::Put, b"k14", b"14", Outcome::Stored),
    Written(Op::Put, b"k15", b"15", Outcome::Stored),
    Written(Op::Put, b"k16", b"16", Outcome::Stored),
    Written(Op::Del, b"k03", b"", Outcome::Deleted),
    Written(Op::Put, b"k17", b"17", Outcome::Stored),
    Written(Op::Del, b"k16", b"", Outcome::Deleted),
];

// What happens to the third slot, to the spare bucket and to the link.
static CHANGES: [OwnerEvent; 11] = [
    OwnerEvent::PutEntry(0, 2, ENTRY_OF_K03),
    OwnerEvent::PutEntry(1, 0, ENTRY_OF_K16),
    OwnerEvent::PutLink(0, 1),
    OwnerEvent::PutEntry(0, 2, ENTRY_OF_K16),
    OwnerEvent::PutEntry(1, 0, 0),
    OwnerEvent::PutLink(0, 0),
    OwnerEvent::PutEntry(1, 0, ENTRY_OF_K17),
    OwnerEvent::PutLink(0, 1),
    OwnerEvent::PutEntry(0, 2, ENTRY_OF_K17),
    OwnerEvent::PutEntry(1, 0, 0),
    OwnerEvent::PutLink(0, 0),
];

// Makes the writes, after each of which the partition and the machine answer the same to both keys that are deleted.
fn expect_writes<P: Partition>(
    rt: &(impl Abort + AllocGlobal),
    partition: &mut P,
    machine: &mut Machine,
) -> Result<(), Fail> {
    let mut found = ItemBuf::new(rt.alloc())?;
    let mut wanted = ItemBuf::new(rt.alloc())?;
    for Written(op, key, value, outcome) in &WRITES {
        assert!(rt; agreed(rt.alloc(), partition, machine, *op, key, value)? == Some(*outcome));
        for read in [b"k03", b"k16"] {
            assert!(rt; agree_on_get(partition, machine, read, &mut found, &mut wanted));
        }
    }
    Ok(())
}

fn is_change(event: &OwnerEvent) -> bool {
    matches!(
        event,
        OwnerEvent::PutLink(..) | OwnerEvent::PutEntry(0, 2, _) | OwnerEvent::PutEntry(1, ..)
    )
}

#[test]
fn the_last_entry_moves_and_the_spare_is_taken_again(rt: HostRuntime) -> Result<(), Fail> {
    let mut partition = store_over(&rt, &ONE_SPARE, 256)?;
    let mut machine = Machine::new(rt.alloc(), &ONE_SPARE)?;
    expect_writes(&rt, &mut partition, &mut machine)?;
    let words = partition.into_words();
    assert!(rt;
        words
            .events()
            .iter()
            .filter(|event| is_change(event))
            .eq(CHANGES.iter())
    );
    Ok(())
}
