//! A sink over a writer of std.
ghost use Rattle.std.specs.Prelude.{◌≡◌, ◌≤◌, ◌<◌, None, length, take, IfOk, OnErr, is_err};
ghost use Rattle.std.specs.Io.KnownBytes.{Appends, Keeps};
ghost use Rattle.outside.specs.Faults.{Rose, faults_after};

use outside::{Failed, Sink};
use std::io::{ErrorKind, Write};

/// A sink over std's writer. It tells the bytes that the writer tells: those of one in memory, and none of a file or a pipe.
#[derive(Drop)]
pub struct StdSink<W> {
    into: W,
    faults: u64,
}

impl<W: Write> StdSink<W> {
    /// A sink that writes to this.
    pub fn new(into: W) -> Self
        ensures taken { ⟦<StdSink<W> as Sink>⟧.taken result ≡ W.contents into }
        ensures faults { ⟦<StdSink<W> as Sink>⟧.faults result ≡ 0 }
    {
        StdSink { into, faults: 0 }
    }
}

/// One write. A write that the system interrupts begins again.
fn write_on<W: Write>(into: &mut W, piece: &[u8]) -> Result<usize, Failed>
    ensures fits { IfOk result (λ n. n ≤ length piece.now) }
    ensures took { IfOk result (λ n. Appends (W.contents into.old) (W.contents into.new) (take n piece.now)) }
    ensures kept { OnErr result (Keeps (W.contents into.old) (W.contents into.new)) }
{
    for _ in 0..u64::MAX {
        match into.write(piece) {
            Err(error) if error.kind() == ErrorKind::Interrupted => {}
            answer => return answer.map_err(|_| Failed),
        }
    }
    Err(Failed)
}

impl<W: Write> Sink for StdSink<W> {
    ghost taken = { λ s. W.contents s.into };

    ghost faults = { λ s. s.faults };

    ghost script = { λ _. None };

    ghost room = { λ _. None };

    fn write(&mut self, piece: &[u8]) -> Result<usize, Failed>
        requires { 0 < length piece.now }
        ensures some { IfOk result (λ n. 0 < n) }
        ensures fits { IfOk result (λ n. n ≤ length piece.now) }
        ensures took { IfOk result (λ n. Appends (W.contents self.old.into) (W.contents self.new.into) (take n piece.now)) }
        ensures kept { OnErr result (Keeps (W.contents self.old.into) (W.contents self.new.into)) }
        ensures cause { OnErr result (Rose self.old.faults self.new.faults) }
        ensures never_fall { self.old.faults ≤ self.new.faults }
        ensures counted { self.new.faults ≡ faults_after (is_err result) self.old.faults }
    {
        match write_on(&mut self.into, piece) {
            Ok(count) if count > 0 => Ok(count),
            _ => {
                self.faults = self.faults.saturating_add(1);
                Err(Failed)
            }
        }
    }
}
