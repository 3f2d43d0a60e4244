//! The doors that the words name beside the address of the place, and how long a connection may be silent. An adapter is told these; no contract can say who comes there.

use daemon_words::{Host, doors_given, long_words, question_of, read_daemon, refusal_text};
use option_words::{all_words, behind_name};
use outside::NoMemory;
use std::alloc::Global;
use std::env;
use std::rt::Env;
use tcp_connections::Door;

/// What an adapter is told beside the place.
#[derive(Drop)]
pub struct Asked {
    pub doors: Vec<Door>,
    /// For how many seconds a connection may be silent, where that is not 0.
    pub idle: u32,
}

// What words ask for, where they give a server; and whether their doors are such.
fn asked_by(alloc: Global, words: &[String], host: Host) -> Result<(Asked, bool), NoMemory> {
    let mut asked = Asked {
        doors: Vec::new(alloc),
        idle: 0,
    };
    let long = long_words(alloc, words)?;
    let Ok(read) = read_daemon(alloc, long.as_slice(), host) else {
        return Ok((asked, true));
    };
    asked.idle = read.streams.idle;
    let Some(doors) = doors_given(alloc, long.as_slice(), &read.streams)? else {
        return Ok((asked, false));
    };
    // The first address is the place's own, where it is one of IPv4.
    let own = usize::from(read.streams.address.is_some());
    for address in doors.addresses.iter().skip(own) {
        asked.doors.push(Door::Address(*address))?;
    }
    if let Some(path) = doors.socket {
        let path = String::from_str(alloc, path)?;
        asked.doors.push(Door::Path(path, doors.mode))?;
    }
    Ok((asked, true))
}

/// Says so where the words name a door that is none. Whether they name none such.
pub fn has_doors<R: Eprint>(rt: &R, alloc: Global, words: &[String], host: Host) -> bool {
    if question_of(words).is_some() {
        return true;
    }
    if let Ok((_, false)) = asked_by(alloc, words, host) {
        if let Ok(text) = refusal_text(alloc, words) {
            let _ = eprintln!(rt; "micad: {text}");
        }
        return false;
    }
    true
}

/// What the words ask for that the program was started with.
pub fn asked_on_host<R: AllocGlobal + Env>(rt: &R, host: Host) -> Result<Asked, NoMemory> {
    let alloc = rt.alloc();
    let words = all_words(alloc, env::args(rt))?;
    Ok(asked_by(alloc, behind_name(words.as_slice()), host)?.0)
}
