//! The signals that ask a process for its end, by what the system's files tell.

use crate::SystemFiles;
use crate::proc_files::behind;
use std::alloc::Global;

// INT is signal 2 and TERM is 15, and the first bit is of signal 1.
const STOPS: u64 = 1 << 1 | 1 << 14;

/// Whether INT and TERM are blocked, so that one that comes waits to be seen; and whether one waits.
#[derive(Clone, Copy)]
pub struct StopSignals {
    pub are_blocked: bool,
    pub one_waits: bool,
}

// The signals of a line of `/proc/self/status`, a bit for each.
fn signals_of(status: &[u8], name: &str) -> Option<u64> {
    let (number, _) = behind(status, name)?.split_once('\n')?;
    u64::from_str_radix(number, 16).ok()
}

/// What the system tells of them, where it does.
pub fn stop_signals<S: SystemFiles>(alloc: Global, system: &S) -> Option<StopSignals> {
    let status = system.short_file(alloc, "/proc/self/status")?;
    let blocked = signals_of(status.as_slice(), "\nSigBlk:")?;
    let waiting = signals_of(status.as_slice(), "\nShdPnd:")?;
    Some(StopSignals {
        are_blocked: blocked & STOPS == STOPS,
        one_waits: waiting & STOPS != 0,
    })
}
