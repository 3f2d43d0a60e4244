//! Seven scripts, and gets of one try between their events, judged by the plain machine at the carried stamp.

use crate::scripts::{Cuts, Script, Written, expect_script};
use mica_words::Hashing;
use partition_model::{Mode, Op, Options, Outcome};
use std::test::Fail;

const CACHE: Options = Options {
    mode: Mode::Cache,
    partitions: 1,
    buckets: 1,
    spares: 0,
    words: 256,
    readers: 1,
    tries: 1,
    wear: 68_719_476_736,
    hashing: Hashing::Fnv1a,
};

const STORE: Options = Options {
    mode: Mode::Store,
    spares: 1,
    ..CACHE
};

const EVERY_TWO: Cuts = Cuts {
    every_two: true,
    loads: 25,
};

// One try of a long item makes fewer loads.
const LONG: Cuts = Cuts {
    every_two: false,
    loads: 180,
};

// One try of a short item in the second bucket of a chain makes fewer loads.
const ALONG_THE_CHAIN: Cuts = Cuts {
    every_two: false,
    loads: 48,
};

static CACHE_WRITES: Script = Script {
    options: Options { wear: 100, ..CACHE },
    writes: &[
        Written(Op::Put, b"a", b"1", Outcome::Stored),
        Written(Op::Put, b"a", b"2", Outcome::Stored),
        Written(Op::Del, b"a", b"", Outcome::Deleted),
    ],
    key: b"a",
};

#[test]
fn every_cut_of_cache_mode(rt: HostRuntime) -> Result<(), Fail> {
    expect_script(&rt, &CACHE_WRITES, EVERY_TWO)
}

static STORE_WRITES: Script = Script {
    options: Options { wear: 100, ..STORE },
    writes: &[
        Written(Op::Put, b"a", b"1", Outcome::Stored),
        Written(Op::Del, b"a", b"", Outcome::Deleted),
        Written(Op::Put, b"b", b"2", Outcome::Stored),
    ],
    key: b"a",
};

#[test]
fn every_cut_of_store_mode(rt: HostRuntime) -> Result<(), Fail> {
    expect_script(&rt, &STORE_WRITES, EVERY_TWO)
}

static PASSED: Script = Script {
    options: Options {
        buckets: 2,
        ..CACHE
    },
    writes: &[
        Written(Op::Put, b"a", &[b'x'; 1000], Outcome::Stored),
        Written(Op::Put, b"b", &[b'x'; 1000], Outcome::Stored),
        Written(Op::Put, b"b", &[b'x'; 1001], Outcome::Stored),
    ],
    key: b"a",
};

// The last put passes `a`, and changes nothing of the bucket that is read.
#[test]
fn an_item_is_passed(rt: HostRuntime) -> Result<(), Fail> {
    expect_script(&rt, &PASSED, LONG)
}

static TOUCHED: Script = Script {
    options: CACHE,
    writes: &[
        Written(Op::Put, b"a", &[b'x'; 1000], Outcome::Stored),
        Written(Op::Put, b"b", &[b'x'; 1000], Outcome::Stored),
        Written(Op::Touch, b"a", b"", Outcome::Touched),
    ],
    key: b"a",
};

// The touch writes the item of `a` over itself.
#[test]
fn a_touched_item_is_read_while_it_is_written(rt: HostRuntime) -> Result<(), Fail> {
    expect_script(&rt, &TOUCHED, LONG)
}

static KEPT: Script = Script {
    options: Options { wear: 2, ..CACHE },
    writes: &[
        Written(Op::Put, b"a", b"1", Outcome::Stored),
        Written(Op::Put, b"a", b"2", Outcome::Stored),
        Written(Op::Put, b"a", b"3", Outcome::Worn),
    ],
    key: b"a",
};

// The third put comes to a worn partition.
#[test]
fn an_item_is_kept_in_place(rt: HostRuntime) -> Result<(), Fail> {
    expect_script(&rt, &KEPT, LONG)
}

const MOVED: &[Written] = &[
    Written(Op::Put, b"k01", b"1", Outcome::Stored),
    Written(Op::Put, b"k02", b"1", Outcome::Stored),
    Written(Op::Put, b"k03", b"1", Outcome::Stored),
    Written(Op::Put, b"k04", b"1", Outcome::Stored),
    Written(Op::Put, b"k05", b"1", Outcome::Stored),
    Written(Op::Put, b"k06", b"1", Outcome::Stored),
    Written(Op::Put, b"k07", b"1", Outcome::Stored),
    Written(Op::Put, b"k08", b"1", Outcome::Stored),
    Written(Op::Put, b"k09", b"1", Outcome::Stored),
    Written(Op::Put, b"k10", b"1", Outcome::Stored),
    Written(Op::Put, b"k11", b"1", Outcome::Stored),
    Written(Op::Put, b"k12", b"1", Outcome::Stored),
    Written(Op::Put, b"k13", b"1", Outcome::Stored),
    Written(Op::Put, b"k14", b"1", Outcome::Stored),
    Written(Op::Put, b"k15", b"1", Outcome::Stored),
    Written(Op::Put, b"k16", b"1", Outcome::Stored),
    Written(Op::Del, b"k03", b"", Outcome::Deleted),
];

static LAST_KEY: Script = Script {
    options: Options {
        words: 1024,
        ..STORE
    },
    writes: MOVED,
    key: b"k16",
};

static DELETED_KEY: Script = Script {
    options: Options {
        words: 1024,
        ..STORE
    },
    writes: MOVED,
    key: b"k03",
};

// The sixteenth key goes to a spare, and comes back to the slot of the third.
#[test]
fn an_entry_moves_along_its_chain(rt: HostRuntime) -> Result<(), Fail> {
    expect_script(&rt, &LAST_KEY, ALONG_THE_CHAIN)?;
    expect_script(&rt, &DELETED_KEY, ALONG_THE_CHAIN)
}

static FREED: Script = Script {
    options: Options { spares: 0, ..STORE },
    writes: &[
        Written(Op::Put, b"a", &[b'x'; 1024], Outcome::Stored),
        Written(Op::Del, b"a", b"", Outcome::Deleted),
        Written(Op::Put, b"b", &[b'x'; 1000], Outcome::Stored),
    ],
    key: b"a",
};

// The words of `a` are given back, and written again as those of `b`.
#[test]
fn a_freed_block_is_used_again(rt: HostRuntime) -> Result<(), Fail> {
    expect_script(&rt, &FREED, LONG)
}
