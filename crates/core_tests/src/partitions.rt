//! Partitions over plain words, and calls of theirs that look at their arguments.
ghost use Rattle.std.specs.Prelude.{◌≡◌};

use cache_partition::CachePartition;
use mica_words::{key_fits, stored_fits};
use partition_model::{Answer, ItemBuf, Mode, Op, Options, Outcome};
use partition_words::{Partition, PlainWords, Shape};
use std::alloc::AllocGlobal;
use std::process::Abort;
use std::test::Fail;
use store_partition::StorePartition;

/// An empty partition of cache mode, whose words keep so many events.
pub(crate) fn cache_over(
    rt: &(impl Abort + AllocGlobal),
    options: &Options,
    room: u32,
) -> Result<CachePartition<PlainWords>, Fail> {
    assert!(rt; options.is_valid() && options.mode == Mode::Cache);
    Ok(CachePartition::new(PlainWords::new(rt.alloc(), &Shape::of(options), room)?))
}

/// An empty partition of store mode, whose words keep so many events.
pub(crate) fn store_over(
    rt: &(impl Abort + AllocGlobal),
    options: &Options,
    room: u32,
) -> Result<StorePartition<PlainWords>, Fail> {
    assert!(rt; options.is_valid() && options.mode == Mode::Store);
    let words = PlainWords::new(rt.alloc(), &Shape::of(options), room)?;
    Ok(StorePartition::new(rt.alloc(), words)?)
}

/// Makes the write, where its key and its value fit. A touch and a delete leave the value unread.
pub(crate) fn write<P: Partition>(
    partition: &mut P,
    op: Op,
    key: &[u8],
    value: &[u8],
) -> Option<Outcome>
    ensures { P.home partition.new ≡ P.home partition.old }
{
    if !key_fits(key) || !stored_fits(value) {
        return None;
    }
    match op {
        Op::Put => Some(partition.put(key, value)),
        Op::Add => Some(partition.add(key, value)),
        Op::Touch => Some(partition.touch(key)),
        Op::Del => Some(partition.del(key)),
    }
}

/// Gets the key, where it fits.
pub(crate) fn read<P: Partition>(
    partition: &mut P,
    key: &[u8],
    out: &mut ItemBuf,
) -> Option<Answer> {
    if !key_fits(key) {
        return None;
    }
    Some(partition.get(key, out))
}
