//! What is told at the start, for whoever reads the journal.
ghost use Rattle.std.specs.Prelude.{◌≡◌};

use crate::proc_files::open_limit;
use crate::{Machine, SystemFiles};
use daemon_words::{
    DaemonOptions, Doors, VERSION, doors_given, long_words, question_of, read_daemon, value_given,
    verbosity,
};
use outside::NoMemory;
use partition_model::{Mode, Options};
use partition_sizes::ITEM_WORDS;
use std::alloc::Global;
use std::fmt;

// How many descriptors a server wants.
fn descriptors_of(asked: &DaemonOptions<'_>) -> u64 {
    let fronts = u64::from(asked.streams.ports.fronts);
    let sockets = u64::from(asked.streams.ports.has_socket);
    u64::from(asked.streams.connections)
        .saturating_mul(sockets.saturating_add(1))
        .saturating_add(2u64.saturating_mul(fronts))
        .saturating_add(u64::from(asked.ports.fronts))
        .saturating_add(4)
}

// How many items of 16 bytes of key and 64 of value its words have room for.
fn items_of(options: &Options) -> u64 {
    u64::from(options.partitions).saturating_mul(u64::from(options.words)) / ITEM_WORDS
}

// The lines of a start.
#[derive(Drop)]
struct StartText<'a> {
    asked: &'a DaemonOptions<'a>,
    doors: Doors<'a>,
    /// As it was typed, where it was.
    memory: Option<&'a str>,
    process: u32,
    /// The most descriptors that the system allows, where it is known.
    allowed: Option<u64>,
    verbosity: u32,
}

impl StartText<'_> {
    fn write_memory<W: fmt::Write>(&self, f: &mut fmt::Formatter<W>) -> fmt::Result {
        let options = &self.asked.options;
        let mode = match options.mode {
            Mode::Cache => "cache",
            Mode::Store => "store",
        };
        let memory = self.memory.unwrap_or("by its sizes");
        let partitions = options.partitions;
        let items = items_of(options);
        write!(
            f,
            "micad: {mode} mode, memory {memory} in {partitions} partitions: room for {items} items of 16 and 64 bytes (key and value)\n"
        )
    }

    fn write_sizes<W: fmt::Write>(&self, f: &mut fmt::Formatter<W>) -> fmt::Result {
        let options = &self.asked.options;
        let buckets = options.buckets;
        let spares = options.spares;
        let words = options.words;
        write!(
            f,
            "micad: each partition has {buckets} buckets, {spares} spares and {words} words\n"
        )
    }

    fn write_streams<W: fmt::Write>(&self, f: &mut fmt::Formatter<W>) -> fmt::Result {
        let streams = &self.asked.streams;
        if streams.ports.fronts == 0 {
            return Ok(());
        }
        let doors = &self.doors;
        let threads = streams.ports.fronts;
        let most = streams.connections;
        write!(
            f,
            "micad: memcached's clients at {doors}, by {threads} threads, {most} connections in all\n"
        )?;
        let seconds = streams.idle;
        if seconds > 0 {
            write!(
                f,
                "micad: a connection that is silent for {seconds} seconds is closed\n"
            )?;
        }
        Ok(())
    }

    fn write_ports<W: fmt::Write>(&self, f: &mut fmt::Formatter<W>) -> fmt::Result {
        let ports = &self.asked.ports;
        if ports.fronts == 0 {
            return Ok(());
        }
        let first = u64::from(ports.port);
        let last = first
            .saturating_add(u64::from(ports.fronts))
            .saturating_sub(1);
        write!(
            f,
            "micad: batches over UDP at 127.0.0.1:{first} to {last}, a thread at each\n"
        )
    }

    fn write_descriptors<W: fmt::Write>(&self, f: &mut fmt::Formatter<W>) -> fmt::Result {
        let wanted = descriptors_of(self.asked);
        match self.allowed {
            Some(allowed) if allowed < wanted => write!(
                f,
                "micad: {wanted} descriptors are wanted, and only {allowed} allowed: some connections will wait; see LimitNOFILE= or ulimit -n\n"
            ),
            Some(allowed) if self.verbosity > 0 => {
                write!(
                    f,
                    "micad: {wanted} descriptors are wanted, and {allowed} allowed\n"
                )
            }
            _ => Ok(()),
        }
    }
}

impl fmt::Display for StartText<'_> {
    fn fmt<W: fmt::Write>(&self, f: &mut fmt::Formatter<W>) -> fmt::Result {
        let version = VERSION.trim_end();
        let process = self.process;
        write!(f, "{version}, process {process}\n")?;
        self.write_memory(f)?;
        if self.verbosity > 0 {
            self.write_sizes(f)?;
        }
        if let Some(image) = self.asked.image {
            write!(f, "micad: begins with the pairs of {image}\n")?;
        }
        self.write_streams(f)?;
        self.write_ports(f)?;
        self.write_descriptors(f)
    }
}

// The same, of words that are long.
fn text_of<S: SystemFiles>(
    alloc: Global,
    system: &S,
    long: &[String],
    verbosity: u32,
    machine: Machine,
) -> Option<String> {
    let asked = read_daemon(alloc, long, machine.host).ok()?;
    let doors = doors_given(alloc, long, &asked.streams).ok()??;
    let sizes = ["--partitions", "--buckets", "--spares", "--words"];
    let is_sized = sizes.iter().any(|name| value_given(long, name).is_some());
    let memory = if is_sized {
        None
    } else {
        Some(value_given(long, "--memory").unwrap_or("64M"))
    };
    let text = StartText {
        asked: &asked,
        doors,
        memory,
        process: machine.process,
        allowed: open_limit(alloc, system),
        verbosity,
    };
    format!(in alloc; "{text}").ok()
}

/// What is told where words give a server: a line each of the version, of what its items have, and of its ports.
pub fn start_text<S: SystemFiles>(
    alloc: Global,
    system: &S,
    words: &[String],
    machine: Machine,
) -> Option<String> {
    if question_of(words).is_some() {
        return None;
    }
    match long_words(alloc, words) {
        Ok(long) => text_of(alloc, system, long.as_slice(), verbosity(words), machine),
        Err(NoMemory) => None,
    }
}
