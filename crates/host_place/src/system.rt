//! What is asked of the system.

use std::fs::{self, File, OpenOptions, TryLockError};
use std::io::{self, ErrorKind};
use std::os::unix::fs::OpenOptionsExt;
use std::rt::Files;

// Only the owner reads what it holds, the secret among it.
const MODE: u32 = 0o600;

// The folder that a path lies in.
pub(crate) fn folder_of(path: &str) -> &str {
    match path.rsplit_once('/') {
        None => ".",
        Some(("", _)) => "/",
        Some((folder, _)) => folder,
    }
}

// None where there is no file of this name.
pub(crate) fn open_there<R: Files<File = File>>(rt: &R, path: &str) -> io::Result<Option<File>> {
    match fs::open(rt, path) {
        Ok(file) => Ok(Some(file)),
        Err(error) if error.kind() == ErrorKind::NotFound => Ok(None),
        Err(error) => Err(error),
    }
}

// There is no file of this name then.
pub(crate) fn remove_there<R: Files>(rt: &R, path: &str) -> io::Result<()> {
    match fs::remove_file(rt, path) {
        Err(error) if error.kind() != ErrorKind::NotFound => Err(error),
        _ => Ok(()),
    }
}

// A new file of this name, where there is none.
pub(crate) fn create<R: Files<File = File>>(rt: &R, path: &str) -> io::Result<File> {
    let mut how = OpenOptions::new();
    how.write(true).create_new(true).mode(MODE);
    how.open(rt, path)
}

// The lock of the file of this name, which is made where there is none. None where another has it.
pub(crate) fn take_lock<R: Files<File = File>>(rt: &R, path: &str) -> io::Result<Option<File>> {
    let mut how = OpenOptions::new();
    how.write(true).create(true).mode(MODE);
    let file = how.open(rt, path)?;
    match file.try_lock() {
        Ok(()) => Ok(Some(file)),
        Err(TryLockError::WouldBlock) => Ok(None),
        Err(TryLockError::Error(error)) => Err(error),
    }
}
