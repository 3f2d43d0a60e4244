//! One put in cache mode, event by event.

ghost use Rattle.std.specs.Prelude.{◌≡◌, ◌<◌};
ghost use Rattle.partition_words.specs.OwnerState.{as_made};
ghost use Rattle.core_tests.specs.CachePut.{one_bucket, IsMarked};

use crate::scripts::{Script, Written, stored_words};
use mica_words::Hashing;
use partition_model::{Mode, Op, Options, Outcome};
use partition_words::{OwnerEvent, OwnerWords, PlainWords, Shape, WordAt, holds_key, write_item};
use std::test::Fail;

const ONE_BUCKET: Shape = Shape {
    mode: Mode::Cache,
    buckets: 1,
    spares: 0,
    words: 1024,
    wear: 68_719_476_736,
    hashing: Hashing::Fnv1a,
};

const STAMP: u64 = 262_144;

// The room is 4 words, the key and the value have a byte each.
const HEADER: u64 = 0x0000_0001_0001_0004;

const HASH_OF_A: u64 = 0xaf63_dc4c_8601_ec8c;

const ENTRY_OF_A: u64 = 0xdc4c_0000_0000_0000;

/// What the put of `a` with `1` does to the words.
static EVENTS: [OwnerEvent; 8] = [
    OwnerEvent::Begin(0),
    OwnerEvent::Mark(STAMP),
    OwnerEvent::PutWord(0, HEADER),
    OwnerEvent::PutWord(1, HASH_OF_A),
    OwnerEvent::PutWord(2, 0x61),
    OwnerEvent::PutWord(3, 0x31),
    OwnerEvent::PutEntry(0, 0, ENTRY_OF_A),
    OwnerEvent::End(0),
];

/// Begins the put of `a` with `1` and marks it.
fn mark_put<W: OwnerWords>(words: &mut W)
    requires { W.owner words.old ≡ as_made one_bucket }
    ensures { IsMarked (W.owner words.new) }
{
    words.begin_write(0);
    words.mark(Op::Put, b"a", b"1", STAMP);
}

/// Stores the item and the entry of the marked put, and ends it.
fn finish_put<W: OwnerWords>(words: &mut W)
    requires { IsMarked (W.owner words.old) }
    ensures { (W.owner words.new).shape ≡ one_bucket }
{
    write_item(words, 0, 4, b"a", b"1");
    words.put_entry(0, 0, ENTRY_OF_A);
    words.end_write(0);
}

/// Stores one of the four words of the item.
fn put_item_word<W: OwnerWords>(words: &mut W, offset: u64, word: u64)
    requires marked { IsMarked (W.owner words.old) }
    requires offset { offset < 4 }
    ensures { IsMarked (W.owner words.new) }
{
    words.put_word(offset, word);
}

fn has_words_of_the_put<W: OwnerWords>(words: &mut W) -> bool
    requires { (W.owner words.old).shape ≡ one_bucket }
    ensures { W.owner words.new ≡ W.owner words.old }
{
    words.read(WordAt::Stamp) == STAMP
        && words.read(WordAt::Epoch(0)) == 2
        && words.read(WordAt::Entry(0, 0)) == ENTRY_OF_A
        && words.read(WordAt::Item(0)) == HEADER
        && words.read(WordAt::Item(1)) == HASH_OF_A
        && words.read(WordAt::Item(2)) == 0x61
        && words.read(WordAt::Item(3)) == 0x31
}

#[test]
fn the_words_and_events_of_a_put(rt: HostRuntime) -> Result<(), Fail> {
    let mut words = PlainWords::new(rt.alloc(), &ONE_BUCKET, 8)?;
    mark_put(&mut words);
    finish_put(&mut words);
    assert!(rt; has_words_of_the_put(&mut words) && words.events() == EVENTS.as_slice());
    assert!(rt;
        holds_key(&mut words, 0, b"a")
            && !holds_key(&mut words, 0, b"b")
            && !holds_key(&mut words, 0, b"aa")
    );
    Ok(())
}

// The item has the key word of `b`, and the hash word of `a`.
#[test]
fn a_key_under_another_hash(rt: HostRuntime) -> Result<(), Fail> {
    let mut words = PlainWords::new(rt.alloc(), &ONE_BUCKET, 8)?;
    mark_put(&mut words);
    put_item_word(&mut words, 0, HEADER);
    put_item_word(&mut words, 1, HASH_OF_A);
    put_item_word(&mut words, 2, 0x62);
    put_item_word(&mut words, 3, 0x31);
    assert!(rt; !holds_key(&mut words, 0, b"a"));
    assert!(rt; !holds_key(&mut words, 0, b"b"));
    Ok(())
}

static PUT: Script = Script {
    options: Options {
        mode: Mode::Cache,
        partitions: 1,
        buckets: 1,
        spares: 0,
        words: 1024,
        readers: 1,
        tries: 1,
        wear: 68_719_476_736,
        hashing: Hashing::Fnv1a,
    },
    writes: &[Written(Op::Put, b"a", b"1", Outcome::Stored)],
    key: b"a",
};

#[test]
fn a_partition_stores_the_same_words(rt: HostRuntime) -> Result<(), Fail> {
    let words = stored_words(&rt, &PUT)?;
    assert!(rt; words.events() == EVENTS.as_slice());
    Ok(())
}
