//! The partition of store mode and the plain machine, on the same drawn writes and gets.

use crate::machine::Machine;
use crate::partitions::{read, store_over, write};
use mica_words::Hashing;
use outside::NoMemory;
use partition_model::{ItemBuf, Mode, Op, Options, Outcome};
use partition_words::Partition;
use std::alloc::Global;
use std::process::Abort;
use std::test::Fail;

const OPTIONS: Options = Options {
    mode: Mode::Store,
    partitions: 1,
    buckets: 2,
    spares: 1,
    words: 320,
    readers: 1,
    tries: 1,
    wear: 1900,
    hashing: Hashing::Fnv1a,
};

/// How often a write was refused, for each cause.
#[derive(Clone, Copy)]
struct Refused {
    spare: u32,
    block: u32,
    worn: u32,
    exists: u32,
}

impl Refused {
    // Whether there is an outcome. Counts it where it is a refusal.
    fn counts(&mut self, outcome: Option<Outcome>) -> bool {
        match outcome {
            Some(Outcome::FullSpare) => self.spare = self.spare.saturating_add(1),
            Some(Outcome::FullBlock) => self.block = self.block.saturating_add(1),
            Some(Outcome::Worn) => self.worn = self.worn.saturating_add(1),
            Some(Outcome::Exists) => self.exists = self.exists.saturating_add(1),
            Some(Outcome::Stored | Outcome::Deleted | Outcome::Absent | Outcome::Touched) => {}
            None => return false,
        }
        true
    }
}

/// What the partition does with the write, where the machine does the same. In store mode the machine might choose another answer
/// where the partition finds no block, and has to allow this one.
pub(crate) fn agreed<P: Partition>(
    alloc: Global,
    partition: &mut P,
    machine: &mut Machine,
    op: Op,
    key: &[u8],
    value: &[u8],
) -> Result<Option<Outcome>, NoMemory> {
    let outcome = write(partition, op, key, value);
    let agrees = if outcome == Some(Outcome::FullBlock) && machine.is_store() {
        machine.allows(op, key, value, Outcome::FullBlock)
    } else {
        outcome == machine.apply(alloc, op, key, value)?
    };
    Ok(if agrees { outcome } else { None })
}

/// Whether both answer the same to the key.
pub(crate) fn agree_on_get<P: Partition>(
    partition: &mut P,
    machine: &Machine,
    key: &[u8],
    found: &mut ItemBuf,
    wanted: &mut ItemBuf,
) -> bool {
    read(partition, key, found) == Some(machine.answer(key, wanted))
        && found.value() == wanted.value()
}

static VALUE: [u8; 90] = [b'x'; 90];

// Whether both do the same with a write or a get of one of 60 keys.
fn agree<P: Partition>(
    alloc: Global,
    partition: &mut P,
    machine: &mut Machine,
    draw: u64,
    refused: &mut Refused,
) -> Result<bool, NoMemory> {
    let number = (draw % 60) as u8;
    let key = [b'k', b'0' + number / 10, b'0' + number % 10];
    let value = &VALUE[..(draw / 600 % 90) as usize];
    match draw / 60 % 10 {
        0 | 1 | 2 | 3 => {
            Ok(refused.counts(agreed(alloc, partition, machine, Op::Put, &key, value)?))
        }
        4 => Ok(refused.counts(agreed(alloc, partition, machine, Op::Add, &key, value)?)),
        5 => Ok(agreed(alloc, partition, machine, Op::Touch, &key, b"")?.is_some()),
        6 | 7 => Ok(agreed(alloc, partition, machine, Op::Del, &key, b"")?.is_some()),
        _ => {
            let mut found = ItemBuf::new(alloc)?;
            let mut wanted = ItemBuf::new(alloc)?;
            Ok(agree_on_get(partition, machine, &key, &mut found, &mut wanted))
        }
    }
}

// Draws so many writes and gets.
fn expect_same<P: Partition>(
    rt: &(impl Abort + AllocGlobal),
    partition: &mut P,
    machine: &mut Machine,
    count: u32,
) -> Result<Refused, Fail> {
    let mut refused = Refused {
        spare: 0,
        block: 0,
        worn: 0,
        exists: 0,
    };
    let mut state = 1u64;
    for _ in 0..count {
        state = state
            .wrapping_mul(6_364_136_223_846_793_005)
            .wrapping_add(1_442_695_040_888_963_407);
        let draw = (state >> 33) % 0x4000_0000;
        let agrees = agree(rt.alloc(), partition, machine, draw, &mut refused)?
            && partition.stamp() == machine.stamp()
            && partition.accepted() == machine.accepted();
        assert!(rt; agrees, "draw {draw}");
    }
    Ok(refused)
}

#[test]
fn a_partition_does_what_the_machine_does(rt: HostRuntime) -> Result<(), Fail> {
    let mut partition = store_over(&rt, &OPTIONS, 0)?;
    let mut machine = Machine::new(rt.alloc(), &OPTIONS)?;
    let refused = expect_same(&rt, &mut partition, &mut machine, 4000)?;
    assert!(rt; refused.spare > 0 && refused.block > 0 && refused.worn > 0 && refused.exists > 0);
    Ok(())
}
