//! A source over a reader of std.
ghost use Rattle.std.specs.Prelude.{◌≡◌, ◌+◌, ◌<◌, ◌≤◌, ◌==◌, false, None, length, take, IfOk, OnErr, is_err};
ghost use Rattle.std.specs.Io.KnownBytes.{Consumes, IsAtEnd, Keeps};
ghost use Rattle.outside.specs.Faults.{Rose, faults_after};

use outside::{Failed, Source};
use std::io::{ErrorKind, Read};

/// A source over std's reader. It tells the bytes that the reader tells: those of one in memory, and none of a file or a pipe. A read
/// that could pass the last value of its count of bytes fails.
#[derive(Drop)]
pub struct StdSource<R> {
    from: R,
    given: u64,
    faults: u64,
    ended: bool,
}

impl<R: Read> StdSource<R> {
    /// A source that reads this.
    pub fn new(from: R) -> Self
        ensures left { ⟦<StdSource<R> as Source>⟧.left result ≡ R.remaining from }
        ensures open { ⟦<StdSource<R> as Source>⟧.has_ended result ≡ false }
        ensures given { ⟦<StdSource<R> as Source>⟧.given result ≡ 0 }
        ensures faults { ⟦<StdSource<R> as Source>⟧.faults result ≡ 0 }
    {
        StdSource {
            from,
            given: 0,
            faults: 0,
            ended: false,
        }
    }
}

/// One read. A read that the system interrupts begins again.
fn read_on<R: Read>(from: &mut R, out: &mut [u8]) -> Result<usize, Failed>
    ensures fits { IfOk result (λ n. n ≤ length out.new) }
    ensures given { IfOk result (λ n. Consumes (R.remaining from.old) (R.remaining from.new) (take n out.new)) }
    ensures end { IfOk result (λ n. n ≡ 0 → 0 < length out.new → IsAtEnd (R.remaining from.new)) }
    ensures kept { OnErr result (Keeps (R.remaining from.old) (R.remaining from.new)) }
{
    for _ in 0..u64::MAX {
        match from.read(out) {
            Err(error) if error.kind() == ErrorKind::Interrupted => {}
            answer => return answer.map_err(|_| Failed),
        }
    }
    Err(Failed)
}

impl<R: Read> Source for StdSource<R> {
    ghost left = { λ s. R.remaining s.from };

    ghost given = { λ s. s.given };

    ghost faults = { λ s. s.faults };

    ghost has_ended = { λ s. s.ended };

    ghost script = { λ _. None };

    fn read(&mut self, out: &mut [u8]) -> Result<usize, Failed>
        requires room { 0 < length out.old }
        requires open { self.old.ended ≡ false }
        ensures fits { IfOk result (λ n. n ≤ length out.old) }
        ensures given { IfOk result (λ n. Consumes (R.remaining self.old.from) (R.remaining self.new.from) (take n out.new)) }
        ensures adds { IfOk result (λ n. self.new.given ≡ self.old.given + n) }
        ensures adds_none { OnErr result (self.new.given ≡ self.old.given) }
        ensures end { IfOk result (λ n. n ≡ 0 → IsAtEnd (R.remaining self.new.from)) }
        ensures kept { OnErr result (Keeps (R.remaining self.old.from) (R.remaining self.new.from)) }
        ensures ended { IfOk result (λ n. self.new.ended ≡ (n == 0)) }
        ensures still_open { OnErr result (self.new.ended ≡ false) }
        ensures cause { OnErr result (Rose self.old.faults self.new.faults) }
        ensures never_fall { self.old.faults ≤ self.new.faults }
        ensures counted { self.new.faults ≡ faults_after (is_err result) self.old.faults }
    {
        let is_countable = self.given.checked_add(out.len() as u64).is_some();
        let answer = if is_countable {
            read_on(&mut self.from, out)
        } else {
            Err(Failed)
        };
        match answer {
            Ok(count) => {
                self.given += count as u64;
                self.ended = count == 0;
                Ok(count)
            }
            Err(failed) => {
                self.faults = self.faults.saturating_add(1);
                Err(failed)
            }
        }
    }
}
