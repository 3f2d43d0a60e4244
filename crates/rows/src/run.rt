//! A row's runs of the top call, over memory.

use anyhow::Result;
use memory_outside::{MemNet, MemSink, MemSource};
use mica_client::MemLink;
use mica_cmd::mica;
use outside::NoMemory;
use partition_table::Tables;
use row_parts::{Entry, Row, RowGate, at_least_one, has_sent, is_one_of, net_of};
use std::alloc::Global;
use std::sync::Wait;
use std::thread::Threads;

/// How a run ended, what it wrote, how many tables it kept, and the net, the link and the gate that it leaves.
#[derive(Drop)]
struct End {
    status: u32,
    sink: MemSink,
    tables: u32,
    net: MemNet,
    link: MemLink,
    gate: RowGate,
}

/// The link that the row has, or one with nothing. What it gives stands behind it.
fn link_of(alloc: Global, row: &Row) -> Result<MemLink, NoMemory> {
    let room = row.number("link", 1, 0);
    let recv_fails = row.number("link", 2, 0);
    let send_fails = row.number("link", 3, 0);
    let mut link = MemLink::new(alloc, room, &[send_fails], &[recv_fails])?;
    let mut is_behind = false;
    for entry in &row.entries {
        if entry.is_place() {
            is_behind = entry.is("link");
        }
        if is_behind && entry.is("gives") {
            link.add(alloc, entry.text())?;
        }
    }
    Ok(link)
}

/// Runs the words over an input and the outside that the row says.
fn run(
    rt: &(impl AllocGlobal + Threads + Wait + Sync),
    words: &[String],
    input: &[u8],
    row: &Row,
) -> Result<End, NoMemory> {
    let alloc = rt.alloc();
    let mut source = MemSource::new(
        alloc,
        input,
        at_least_one(row.number("source", 1, 7)),
        &[row.number("source", 2, 0)],
    )?;
    let mut sink = MemSink::new(
        alloc,
        row.number("sink", 3, 2_000_000),
        at_least_one(row.number("sink", 1, 5)),
        &[row.number("sink", 2, 0)],
    )?;
    let mut net = net_of(alloc, row)?;
    let mut link = link_of(alloc, row)?;
    let gate = RowGate::new(row);
    let mut tables = Tables::new();
    let status = mica(
        rt,
        alloc,
        words,
        &mut source,
        &mut sink,
        &mut net,
        &gate,
        &mut tables,
        &mut link,
    );
    Ok(End {
        status: status as u32,
        sink,
        tables: tables.len(),
        net,
        link,
        gate,
    })
}

/// Whether the link sent what the entries behind it say, each to its port, and no more.
fn has_linked(link: &MemLink, behind: &[Entry]) -> bool {
    let mut number = 0u32;
    for at in 0..behind.len() {
        if behind[at].is_place() {
            break;
        }
        if behind[at].is("sends") {
            match link.sent(number) {
                Some((port, found))
                    if port == behind[at].port(1) && is_one_of(found, &behind[at..]) => {}
                _ => return false,
            }
            number = number.saturating_add(1);
        }
    }
    link.sent(number).is_none()
}

/// Whether each place sent what the row says, and no more.
fn are_sent(end: &End, entries: &[Entry]) -> bool {
    for at in 0..entries.len() {
        let behind = &entries[at + 1..];
        let are = if entries[at].is("port") {
            has_sent(&end.net, entries[at].port(1), behind)
        } else {
            !entries[at].is("link") || has_linked(&end.link, behind)
        };
        if !are {
            return false;
        }
    }
    true
}

/// Whether the run ended as the row says: with its status, and with one of its texts.
fn is_ended(end: &End, entries: &[Entry]) -> bool {
    for at in 0..entries.len() {
        if entries[at].is("ends") {
            return end.status == entries[at].number(1)
                && is_one_of(end.sink.taken(), &entries[at..]);
        }
    }
    end.status == 0
}

/// What differs from the row, if anything does.
fn difference(end: &End, row: &Row) -> Option<&'static str> {
    if !is_ended(end, row.entries.as_slice()) {
        return Some("another end");
    }
    if row.number("keeps", 1, end.tables) != end.tables {
        return Some("other tables");
    }
    if !are_sent(end, row.entries.as_slice()) {
        return Some("other datagrams");
    }
    if !end.gate.was_called(row) {
        return Some("other calls of the gate");
    }
    None
}

/// Whether `check` says, with the options of the command line, that the output is a lawful report of the input.
fn is_lawful(
    rt: &(impl AllocGlobal + Threads + Wait + Sync),
    words: &[String],
    input: &[u8],
    output: &[u8],
) -> Result<bool> {
    let alloc = rt.alloc();
    let mut judge = Vec::new(alloc);
    judge.push(String::from_str(alloc, "check")?)?;
    for word in words.iter().skip(1) {
        judge.push(String::from_str(alloc, word.as_str())?)?;
    }
    let mut text = Vec::from_slice(alloc, input)?;
    text.extend_from_slice(b"check\n")?;
    text.extend_from_slice(output)?;
    let end = run(rt, judge.as_slice(), text.as_slice(), &Row::empty(alloc))?;
    Ok(end.status == 0 && end.sink.taken() == b"lawful\n".as_slice())
}

/// Runs a line of the row over an input, and prints how the run ends otherwise.
fn try_line(
    rt: &(impl AllocGlobal + Print + Threads + Wait + Sync),
    row: &Row,
    words: &[String],
    input: &[u8],
) -> Result<Option<&'static str>> {
    let end = run(rt, words, input, row)?;
    if let Some(what) = difference(&end, row) {
        return Ok(Some(what));
    }
    if row.find("judged").is_some() && !is_lawful(rt, words, input, end.sink.taken())? {
        return Ok(Some("no lawful report"));
    }
    Ok(None)
}

/// Runs each line of the row over an input, and prints how it ends otherwise. Tells how many runs there are.
fn try_input(
    rt: &(impl AllocGlobal + Print + Threads + Wait + Sync),
    name: &str,
    row: &Row,
    input: &[u8],
) -> Result<u32> {
    let mut runs = 0u32;
    for entry in &row.entries {
        if entry.is("run") {
            runs = runs.saturating_add(1);
            if let Some(what) = try_line(rt, row, entry.behind(), input)? {
                println!(rt; "{name}, before {}: {what} of line {runs}", row.place)?;
            }
        }
    }
    Ok(runs)
}

/// Makes the row's runs, and prints a line for each that ends otherwise. Tells how many there are.
pub fn try_row(
    rt: &(impl AllocGlobal + Print + Threads + Wait + Sync),
    name: &str,
    row: &Row,
) -> Result<u32> {
    let mut runs = 0u32;
    for entry in &row.entries {
        if entry.is("in") {
            runs = runs.saturating_add(try_input(rt, name, row, entry.text())?);
        } else if entry.is("from") {
            let nothing = Row::empty(rt.alloc());
            let printed = run(rt, entry.behind(), b"", &nothing)?;
            runs = runs.saturating_add(try_input(rt, name, row, printed.sink.taken())?);
        }
    }
    if row.find("in").is_none() && row.find("from").is_none() {
        runs = try_input(rt, name, row, b"")?;
    }
    Ok(runs)
}
