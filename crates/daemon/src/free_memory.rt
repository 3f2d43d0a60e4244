//! How much memory is free, from what the system writes of it.

use option_words::number_of;
use std::alloc::Global;
use std::str;

// More KiB than any machine has.
const MOST_KIBIBYTES: u64 = 1 << 53;

/// What tells the system's files by their names.
pub trait SystemFiles {
    /// All bytes of a file, where it can be read and is not long.
    fn short_file(&self, alloc: Global, name: &str) -> Option<Vec<u8>>;
}

// The files of the control group that a container sees as its own: how many bytes its processes may take, how many they take,
// and what these are.
struct GroupFiles {
    bound: &'static str,
    usage: &'static str,
    parts: &'static str,
}

// Those of version 2, and those of version 1.
static GROUPS: [GroupFiles; 2] = [
    GroupFiles {
        bound: "/sys/fs/cgroup/memory.max",
        usage: "/sys/fs/cgroup/memory.current",
        parts: "/sys/fs/cgroup/memory.stat",
    },
    GroupFiles {
        bound: "/sys/fs/cgroup/memory/memory.limit_in_bytes",
        usage: "/sys/fs/cgroup/memory/memory.usage_in_bytes",
        parts: "/sys/fs/cgroup/memory/memory.stat",
    },
];

// The bytes that `/proc/meminfo` has behind `MemAvailable:`, which are told in KiB.
fn free_in(bytes: &[u8]) -> Option<u64> {
    let text = str::from_utf8(bytes).ok()?;
    let (_, rest) = text.split_once("MemAvailable:")?;
    let (kibibytes, _) = rest.trim_start().split_once(" kB")?;
    number_of(kibibytes, 0, MOST_KIBIBYTES)?.checked_mul(1_024)
}

// The number of bytes that a file of a control group has alone. A bound is `max` in version 2 where there is none.
fn bytes_in(text: &[u8]) -> Option<u64> {
    number_of(str::from_utf8(text).ok()?.trim_end(), 0, u64::MAX)
}

// The bytes of files' pages that a control group can let go, by its `memory.stat`.
fn idle_in(bytes: &[u8]) -> Option<u64> {
    let text = str::from_utf8(bytes).ok()?;
    let (_, rest) = text.split_once("\ninactive_file ")?;
    let (idle, _) = rest.split_once("\n")?;
    number_of(idle, 0, u64::MAX)
}

// What a control group leaves of its bound, where it has one.
fn left_of<S: SystemFiles>(alloc: Global, system: &S, group: &GroupFiles) -> Option<u64> {
    let bound = bytes_in(system.short_file(alloc, group.bound)?.as_slice())?;
    let usage = match system.short_file(alloc, group.usage) {
        Some(bytes) => bytes_in(bytes.as_slice()).unwrap_or(0),
        None => 0,
    };
    let idle = match system.short_file(alloc, group.parts) {
        Some(bytes) => idle_in(bytes.as_slice()).unwrap_or(0),
        None => 0,
    };
    Some(bound.saturating_sub(usage.saturating_sub(idle)))
}

/// How many bytes are free by the system's files: what the machine has, and no more than control groups leave.
pub fn free_by<S: SystemFiles>(alloc: Global, system: &S) -> Option<u64> {
    let mut free = free_in(system.short_file(alloc, "/proc/meminfo")?.as_slice())?;
    for group in &GROUPS {
        if let Some(left) = left_of(alloc, system, group) {
            free = free.min(left);
        }
    }
    Some(free)
}
