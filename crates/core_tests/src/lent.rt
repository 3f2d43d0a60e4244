//! Seats and notes that an owner lends to threads, and takes back.
ghost use Rattle.std.specs.Prelude.{◌≡◌};

use crate::partitions::write;
use mica_words::Hashing;
use optimistic_get::{Got, get};
use partition_model::{ItemBuf, Mode, Op, Options, Outcome};
use partition_table::{OwnerSeat, Tables, make};
use partition_words::{LendPartition, Partition, Shape};
use std::alloc::AllocGlobal;
use std::process::Abort;
use std::test::Fail;
use std::thread::{Threads, join};
use store_partition::StorePartition;

const ONE_BUCKET: Options = Options {
    mode: Mode::Store,
    partitions: 1,
    buckets: 1,
    spares: 1,
    words: 1024,
    readers: 1,
    tries: 1,
    wear: 68_719_476_736,
    hashing: Hashing::Fnv1a,
};

// The options of a partition, and how many words it has: one bucket, and the most of all.
static TABLES: [(Options, usize); 2] = [
    (ONE_BUCKET, 1_058),
    (
        Options {
            buckets: 65_536,
            spares: 65_536,
            words: 1_048_576,
            ..ONE_BUCKET
        },
        3_211_265,
    ),
];

/// An empty partition of store mode over a table of so many words.
fn store_table(
    rt: &(impl Abort + AllocGlobal),
    options: &Options,
    count: usize,
) -> Result<StorePartition<OwnerSeat>, Fail> {
    assert!(rt; options.is_valid() && options.mode == Mode::Store);
    let shape = Shape::of(options);
    assert!(rt; shape.word_count() == count);
    let words = make(rt.alloc(), &shape)?;
    Ok(StorePartition::new(rt.alloc(), words)?)
}

/// Whether a put of `a` is stored.
fn is_stored<P: Partition>(partition: &mut P, value: &[u8]) -> bool
    ensures { P.home partition.new ≡ P.home partition.old }
{
    write(partition, Op::Put, b"a", value) == Some(Outcome::Stored)
}

/// The partition after a get beside a put, what the get answered, and whether both puts were stored.
#[derive(Drop)]
struct Lent {
    partition: StorePartition<OwnerSeat>,
    got: Got,
    out: ItemBuf,
    are_stored: bool,
}

/// Lends a seat, puts `1` to `a` and notes it. Then a thread tells the seat this note and a note of the seat's own, and
/// gets `a` by it without a runtime, while the owner puts `22`. The owner takes the seat back.
fn get_beside_put(
    rt: &(impl AllocGlobal + Threads + Sync),
    partition: StorePartition<OwnerSeat>,
) -> Result<Lent, Fail> {
    let mut partition = partition;
    let mut out = ItemBuf::new(rt.alloc())?;
    let mut seat = partition.lend()?;
    let is_first_stored = is_stored(&mut partition, b"1");
    let note = partition.note();
    let ((got, out, seat), (is_second_stored, mut partition)) = join(
        rt,
        move || {
            seat.tell(note);
            let own = seat.note();
            seat.tell(own);
            let got = get(&mut seat, b"a", u32::MAX, &mut out);
            (got, out, seat)
        },
        move || (is_stored(&mut partition, b"22"), partition),
    );
    partition.meet(seat);
    Ok(Lent {
        partition,
        got,
        out,
        are_stored: is_first_stored && is_second_stored,
    })
}

/// Whether the get is answered by the value before the second put or by the one after it, each with its own stamp.
fn is_one_of_both(got: Got, value: &[u8]) -> bool {
    match got {
        Got::Hit { stamp: 1 } => value == b"1".as_slice(),
        Got::Hit { stamp: 2 } => value == b"22".as_slice(),
        _ => false,
    }
}

// The owner deletes the key after it took the seat back, and then its seat is kept.
fn expect_lent(
    rt: &(impl Abort + AllocGlobal + Threads + Sync),
    options: &Options,
    count: usize,
) -> Result<(), Fail> {
    let lent = get_beside_put(rt, store_table(rt, options, count)?)?;
    assert!(rt; lent.are_stored && is_one_of_both(lent.got, lent.out.value()));
    let mut partition = lent.partition;
    assert!(rt; write(&mut partition, Op::Del, b"a", b"") == Some(Outcome::Deleted));
    let mut tables = Tables::new();
    assert!(rt; tables.len() == 0);
    tables.keep(partition.into_words());
    assert!(rt; tables.len() == 1);
    Ok(())
}

#[test]
fn a_lent_seat_reads_in_a_thread_beside_a_put(rt: HostRuntime) -> Result<(), Fail> {
    for (options, count) in &TABLES {
        expect_lent(&rt, options, *count)?;
    }
    Ok(())
}
