//! What the system's files tell of the process: who runs it, how many descriptors it may have, and how much processors worked for it.

use crate::SystemFiles;
use std::alloc::Global;
use std::str;

// The text behind a name and the spaces that follow it, in a file.
pub(crate) fn behind<'a>(bytes: &'a [u8], name: &str) -> Option<&'a str> {
    let text = str::from_utf8(bytes).ok()?;
    let (_, rest) = text.split_once(name)?;
    Some(rest.trim_start())
}

/// The most descriptors that the process may have, where that is told and bounded.
pub(crate) fn open_limit<S: SystemFiles>(alloc: Global, system: &S) -> Option<u64> {
    let file = system.short_file(alloc, "/proc/self/limits")?;
    let (soft, _) = behind(file.as_slice(), "Max open files")?.split_once(' ')?;
    soft.parse().ok()
}

// The fields that stand before the work of processors in `/proc/self/stat`, behind the name of the program.
const BEFORE_WORK: usize = 11;

/// How much processors worked for the process, where the system tells it: by its own code and by the system's. Linux tells it in hundredths of a second.
pub fn work_done<S: SystemFiles>(alloc: Global, system: &S) -> Option<(u64, u64)> {
    let file = system.short_file(alloc, "/proc/self/stat")?;
    let text = str::from_utf8(file.as_slice()).ok()?;
    let (_, fields) = text.rsplit_once(')')?;
    let mut work = fields.split_ascii_whitespace().skip(BEFORE_WORK);
    Some((work.next()?.parse().ok()?, work.next()?.parse().ok()?))
}

// The number of the user whose rights the process has, as it is written.
fn user_in(status: &[u8]) -> Option<&str> {
    let (_, rest) = behind(status, "\nUid:")?.split_once('\t')?;
    let (number, _) = rest.split_once('\t')?;
    Some(number)
}

// Whether a line of `/etc/passwd` gives a name this number.
fn is_of(line: &str, name: &str, number: &str) -> bool {
    let mut parts = line.split(':');
    parts.next() == Some(name) && parts.next().is_some() && parts.next() == Some(number)
}

/// Whether the process has the rights of the user of this name.
pub fn is_run_by<S: SystemFiles>(alloc: Global, system: &S, name: &str) -> bool {
    let Some(status) = system.short_file(alloc, "/proc/self/status") else {
        return false;
    };
    let Some(number) = user_in(status.as_slice()) else {
        return false;
    };
    let Some(users) = system.short_file(alloc, "/etc/passwd") else {
        return false;
    };
    match str::from_utf8(users.as_slice()) {
        Ok(text) => text.lines().any(|line| is_of(line, name, number)),
        Err(_) => false,
    }
}
