//! Two threads hold one lock, each many times. No clause says that who sleeps is woken.
use crate::{Numbered, NumberedLock};
use std::sync::Wait;
use std::test::Fail;
use std::thread::join;

// How often each holds it.
const TIMES: u32 = 10_000;

#[derive(Drop)]
struct Thing {
    number: u32,
}

impl Numbered for Thing {
    ghost number = { λ t. t.number };
}

fn hold_often<R: Wait>(rt: &R, lock: &NumberedLock<Thing>) {
    for _ in 0..TIMES {
        let held = lock.hold(rt);
        lock.let_go(held);
    }
}

#[test]
fn two_threads_take_turns(rt: HostRuntime) -> Result<(), Fail> {
    let lock = NumberedLock::new(rt.alloc(), 7, Thing { number: 7 })?;
    join(
        &rt,
        || { hold_often(&rt, &lock) },
        || { hold_often(&rt, &lock) },
    );
    assert!(rt; lock.into_inner(&rt).number == 7);
    Ok(())
}
