//! Whether a run can have its threads, asked before its first worker starts.
//!
//! A worker that gets no thread of its own is run inside another one, which may wait for it for ever. So a run
//! begins here.

use crate::NoMemory;
use std::alloc::Global;
use std::sync::{Mutex, Wait};
use std::thread::{self, Threads};

/// Has twice as many threads as workers, all at once, and lets them go again: beside the workers run those that make
/// their partitions, and those that lead them. Where the system refuses one, there is no room for the run.
pub fn rehearse<W: Threads + Wait + Sync>(
    rt: &W,
    alloc: Global,
    workers: u32,
) -> Result<(), NoMemory> {
    let count = 2 * workers as usize;
    let start = Mutex::new(());
    thread::scope(thread::scope_env(), rt, |scope| -> Result<(), NoMemory> {
        let held = start.lock(rt);
        let mut threads = Vec::with_capacity(alloc, count)?;
        for _ in 0..count {
            match scope.spawn(|| drop(start.lock(rt))) {
                Ok(thread) => threads.push(thread)?,
                Err(_) => return Err(NoMemory),
            }
        }
        drop(held);
        for thread in threads {
            thread.join(rt);
        }
        Ok(())
    })
}
