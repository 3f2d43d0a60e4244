//! Single datagrams through a front that owns its partitions.

use datagram_answers::serve_batch;
use mica_words::Hashing;
use outside::FreeGate;
use partition_model::{Mode, Options};
use queue_front::SoloFront;
use std::process::Abort;
use std::test::Fail;

const OPTIONS: Options = Options {
    mode: Mode::Store,
    partitions: 4,
    buckets: 1_024,
    spares: 1_024,
    words: 65_536,
    readers: 1,
    tries: 100,
    wear: 68_719_476_736,
    hashing: Hashing::Fnv1a,
};

/// A datagram, and the reply to it.
type Row = (&'static [u8], &'static [u8]);

/// A put and a get of one key; an add and a touch, which are of version 2 alone; and what is no batch, since its end is cut off, and since another
/// magic stands there.
static ROWS: [Row; 4] = [
    (
        b"\
            MICA\x01\x02\x07\x00\x00\x00\
            \x01\x01\x01\x00\x01\x00\x00\x00a1\
            \x00\x01\x00\x00\x02\x00\x00\x00a",
        b"\
            MICR\x01\x02\x07\x00\x00\x00\
            \x02\x00\x00\x00\x01\x00\x00\x00\x01\x00\x00\x00\x00\x00\x00\x00\
            \x00\x00\x01\x00\x02\x00\x00\x00\x01\x00\x00\x00\x00\x00\x00\x001",
    ),
    (
        b"\
            MICA\x02\x02\x07\x00\x00\x00\
            \x03\x01\x01\x00\x01\x00\x00\x00a1\
            \x04\x01\x00\x00\x02\x00\x00\x00a",
        b"\
            MICR\x02\x02\x07\x00\x00\x00\
            \x02\x00\x00\x00\x01\x00\x00\x00\x01\x00\x00\x00\x00\x00\x00\x00\
            \x0c\x00\x00\x00\x02\x00\x00\x00\x02\x00\x00\x00\x00\x00\x00\x00",
    ),
    (
        b"\
            MICA\x01\x02\x07\x00\x00\x00\
            \x01\x01\x01\x00\x01\x00\x00\x00a1\
            \x00\x01\x00\x00\x02\x00\x00\x00",
        BAD_BATCH,
    ),
    (
        b"\
            NICA\x01\x02\x07\x00\x00\x00\
            \x01\x01\x01\x00\x01\x00\x00\x00a1\
            \x00\x01\x00\x00\x02\x00\x00\x00a",
        BAD_BATCH,
    ),
];

/// The reply to bytes that are no batch.
const BAD_BATCH: &[u8] = b"\
    MICR\x01\x01\x00\x00\x00\x00\
    \x09\x00\x00\x00\x00\x00\x00\x00\x00\x00\x00\x00\x00\x00\x00\x00";

// A new front answers the datagram with this one.
fn expect_reply(rt: &(impl Abort + AllocGlobal), row: &Row) -> Result<(), Fail> {
    assert!(rt; OPTIONS.is_valid());
    let mut front = SoloFront::new(rt.alloc(), &OPTIONS)?;
    let replies = serve_batch(rt.alloc(), &mut front, row.0, &FreeGate)?;
    assert!(rt; replies.len() == 1 && replies[0].bytes() == row.1);
    Ok(())
}

#[test]
fn a_front_that_owns_its_partitions_answers(rt: HostRuntime) -> Result<(), Fail> {
    for row in &ROWS {
        expect_reply(&rt, row)?;
    }
    Ok(())
}
