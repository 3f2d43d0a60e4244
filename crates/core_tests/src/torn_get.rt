//! Gets of a key whose put happens meanwhile, and gets once no event is left.

use crate::scripts::{Script, Written, seat_of};
use mica_words::Hashing;
use optimistic_get::{Got, get, get_settled};
use partition_model::{Answer, ItemBuf, Mode, Op, Options, Outcome};
use scripted_reader::Scripted;
use std::alloc::AllocGlobal;
use std::process::Abort;
use std::test::Fail;

/// A put that makes eight events.
static PUT: Script = Script {
    options: Options {
        mode: Mode::Store,
        partitions: 1,
        buckets: 1,
        spares: 1,
        words: 1024,
        readers: 1,
        tries: 1,
        wear: 68_719_476_736,
        hashing: Hashing::Fnv1a,
    },
    writes: &[Written(Op::Put, b"a", b"1", Outcome::Stored)],
    key: b"a",
};

/// A get of `a` with so many tries, between whose loads the put happens: so many of its events before the first load, the
/// second and so on. Then no event is left, if no write is begun, and a settled get has an answer.
struct Torn {
    cuts: &'static [u32],
    settled_before: bool,
    tries: u32,
    got: Got,
    value: &'static [u8],
    settled: Option<(Answer, &'static [u8])>,
}

static TORN: [Torn; 9] = [
    // The put comes between the first two loads.
    Torn {
        cuts: &[0, 8, 8],
        settled_before: false,
        tries: 1,
        got: Got::Again { first: 0, last: 2 },
        value: b"",
        settled: Some((Answer::Hit, b"1")),
    },
    Torn {
        cuts: &[0, 8, 8],
        settled_before: false,
        tries: 2,
        got: Got::Hit { stamp: 1 },
        value: b"1",
        settled: Some((Answer::Hit, b"1")),
    },
    // It is under way.
    Torn {
        cuts: &[1, 1, 1],
        settled_before: false,
        tries: 1,
        got: Got::Again { first: 1, last: 1 },
        value: b"",
        settled: None,
    },
    // It has not begun.
    Torn {
        cuts: &[0, 0, 0],
        settled_before: true,
        tries: 1,
        got: Got::Miss { stamp: 0 },
        value: b"",
        settled: Some((Answer::Miss, b"")),
    },
    // Two tries find it begun and marked, the third one finds it done.
    Torn {
        cuts: &[1, 2, 8],
        settled_before: false,
        tries: 2,
        got: Got::Again { first: 1, last: 1 },
        value: b"",
        settled: None,
    },
    Torn {
        cuts: &[1, 2, 8],
        settled_before: false,
        tries: 3,
        got: Got::Hit { stamp: 1 },
        value: b"1",
        settled: Some((Answer::Hit, b"1")),
    },
    // All of it comes before the first load.
    Torn {
        cuts: &[8],
        settled_before: false,
        tries: 1,
        got: Got::Hit { stamp: 1 },
        value: b"1",
        settled: Some((Answer::Hit, b"1")),
    },
    // No event comes.
    Torn {
        cuts: &[],
        settled_before: true,
        tries: 1,
        got: Got::Miss { stamp: 0 },
        value: b"",
        settled: Some((Answer::Miss, b"")),
    },
    // The write has begun, and does not end.
    Torn {
        cuts: &[1],
        settled_before: false,
        tries: 1,
        got: Got::Again { first: 1, last: 1 },
        value: b"",
        settled: None,
    },
];

// Whether the seat is settled as the row says, and then a settled get answers so and leaves the seat settled.
fn is_settled_so(seat: &mut Scripted, torn: &Torn, out: &mut ItemBuf) -> bool {
    if !seat.is_settled() {
        return torn.settled.is_none();
    }
    let answer = get_settled(seat, b"a", out);
    torn.settled == Some((answer, out.value())) && seat.is_settled()
}

fn expect_torn(rt: &(impl Abort + AllocGlobal), torn: &Torn) -> Result<(), Fail> {
    let mut seat = seat_of(rt, &PUT, torn.cuts)?;
    let mut out = ItemBuf::new(rt.alloc())?;
    assert!(rt; torn.tries > 0 && seat.is_settled() == torn.settled_before);
    let got = get(&mut seat, b"a", torn.tries, &mut out);
    assert!(rt; got == torn.got && out.value() == torn.value);
    assert!(rt; is_settled_so(&mut seat, torn, &mut out));
    Ok(())
}

#[test]
fn a_put_happens_during_a_get(rt: HostRuntime) -> Result<(), Fail> {
    for torn in &TORN {
        expect_torn(&rt, torn)?;
    }
    Ok(())
}
