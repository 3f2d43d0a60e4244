//! Why words give nothing.

use outside::NoMemory;
use std::error::Error;
use std::fmt;

/// Why there is no command: the words give none, or there was no memory to read them.
#[derive(Clone, Copy, Debug, PartialEq, Eq)]
pub enum WordsFault {
    Usage,
    NoMemory,
}

impl fmt::Display for WordsFault {
    fn fmt<W: fmt::Write>(&self, f: &mut fmt::Formatter<W>) -> fmt::Result {
        match self {
            WordsFault::Usage => f.write_str("the words are no command"),
            WordsFault::NoMemory => fmt::Display::fmt(&NoMemory, f),
        }
    }
}

impl Error for WordsFault {}
