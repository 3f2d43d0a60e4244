//! The source and the sink over std's readers and writers.

ghost use Rattle.std.specs.Prelude.{◌≡◌, false, IsTrue};

use host_outside::{StdSink, StdSource};
use outside::{Source, read_up_to, write_all};
use std::alloc::Global;
use std::io::{self, ErrorKind, Read, Write};

/// A reader of the bytes 1 to 5, one at a time. The read that would give one of them fails.
#[derive(Drop)]
struct Flaky {
    given: u8,
    fails_at: u8,
}

impl Read for Flaky {
    fn read(&mut self, buf: &mut [u8]) -> io::Result<usize> {
        self.given = self.given.saturating_add(1);
        if self.given == self.fails_at {
            return Err(ErrorKind::Other.into());
        }
        if self.given > 5 || buf.is_empty() {
            return Ok(0);
        }
        buf[0] = self.given;
        Ok(1)
    }
}

fn flaky_source(fails_at: u8) -> StdSource<Flaky>
    ensures { ⟦<StdSource<Flaky> as Source>⟧.has_ended result ≡ false }
{
    StdSource::new(Flaky { given: 0, fails_at })
}

/// Whether all is read from a source over a reader that does not fail, as much as the limit allows.
fn is_read_whole(alloc: Global) -> bool {
    let Ok(bytes) = read_up_to(alloc, &mut flaky_source(9), 5) else {
        return false;
    };
    bytes.as_slice() == [1, 2, 3, 4, 5].as_slice()
}

#[test]
fn a_source_gives_what_the_reader_gives(rt: HostRuntime) {
    assert!(rt; is_read_whole(rt.alloc()));
}

/// Whether the next read gives this byte, or fails.
fn is_next<S: Source>(source: &mut S, given: Option<u8>) -> bool
    requires { S.has_ended source.old ≡ false }
    ensures { IsTrue result → S.has_ended source.new ≡ false }
{
    let mut out = [0; 4];
    match source.read(&mut out) {
        Ok(0) => false,
        Ok(_) => given == Some(out[0]),
        Err(_) => given.is_none(),
    }
}

#[test]
fn a_reader_fails_once(rt: HostRuntime) {
    let mut source = flaky_source(3);
    let is_read = is_next(&mut source, Some(1))
        && is_next(&mut source, Some(2))
        && is_next(&mut source, None)
        && is_next(&mut source, Some(4))
        && is_next(&mut source, Some(5));
    assert!(rt; is_read);
}

/// A writer that takes these bytes alone, one at a time, and then none. Another byte fails.
#[derive(Drop)]
struct Picky {
    wanted: &'static [u8],
}

impl Write for Picky {
    fn write(&mut self, buf: &[u8]) -> io::Result<usize> {
        match (self.wanted, buf) {
            ([], _) | (_, []) => Ok(0),
            ([wanted, rest @ ..], [byte, ..]) => {
                if wanted != byte {
                    return Err(ErrorKind::BrokenPipe.into());
                }
                self.wanted = rest;
                Ok(1)
            }
        }
    }

    fn flush(&mut self) -> io::Result<()> {
        Ok(())
    }
}

fn picky_sink(wanted: &'static [u8]) -> StdSink<Picky> {
    StdSink::new(Picky { wanted })
}

fn takes(sink: &mut StdSink<Picky>, text: &[u8]) -> bool {
    write_all(sink, text).is_ok()
}

// The full stop fits only after all that comes before it.
#[test]
fn a_sink_writes_to_the_writer(rt: HostRuntime) {
    let mut sink = picky_sink(b"put 1 stored\n.");
    assert!(rt;
        takes(&mut sink, b"put 1 ") && takes(&mut sink, b"stored\n") && takes(&mut sink, b".")
    );
}

// One writer takes nothing, and one fails.
#[test]
fn an_unwilling_writer_is_a_fault(rt: HostRuntime) {
    assert!(rt; !takes(&mut picky_sink(b""), b"a") && !takes(&mut picky_sink(b"b"), b"a"));
}
