//! Sinks of bytes.
ghost use Rattle.std.specs.Prelude.{◌≡◌, ◌<◌, ◌≤◌, ◌-◌, ◌==◌, ◌||◌, ℕ, List, Option, option_map, length, take, IfOk, IfSome, is_err, OnOk, OnErr};
ghost use Rattle.std.specs.Io.KnownBytes.{Appends, Keeps};
ghost use Rattle.outside.specs.Faults.{Rose, faults_after};
ghost use Rattle.outside.specs.Script.{Script, is_next_listed, after_call, MovesPiece};

use crate::Failed;

/// Where bytes go.
pub trait Sink {
    /// The bytes that it took, where the sink tells them.
    ghost taken: { Self → Option (List ℕ) };

    /// The count of faults.
    ghost faults: { Self → ℕ };

    /// Which writes fail and how many bytes each takes, where the sink tells it.
    ghost script: { Self → Option Script };

    /// How many more bytes it has room for, where the sink tells it.
    ghost room: { Self → Option ℕ };

    /// Takes bytes from the front of the piece, and says how many.
    fn write(&mut self, piece: &[u8]) -> Result<usize, Failed>
        requires { 0 < length piece.now }

        ensures some { IfOk result (λ n. 0 < n) }
        ensures fits { IfOk result (λ n. n ≤ length piece.now) }
        ensures took { IfOk result
            (λ n. Appends (taken self.old) (taken self.new) (take n piece.now)) }

        ensures kept { OnErr result (Keeps (taken self.old) (taken self.new)) }
        ensures cause { OnErr result (Rose (faults self.old) (faults self.new)) }
        ensures never_fall { faults self.old ≤ faults self.new }
        ensures counted { IfSome (script self.old)
            (λ _. faults self.new ≡ faults_after (is_err result) (faults self.old)) }

        ensures foretold { IfSome (script self.old) (λ s. IfSome (room self.old)
            (λ left. is_err result ≡ (left == 0 || is_next_listed s))) }
        ensures count { IfOk result
            (λ n. MovesPiece (script self.old) (room self.old) (length piece.now) n) }
        ensures moves_on { script self.new ≡ option_map after_call (script self.old) }
        ensures room_after { IfOk result
            (λ n. room self.new ≡ option_map (λ left. left - n) (room self.old)) }
        ensures room_kept { OnErr result (room self.new ≡ room self.old) };
}

/// Writes the whole text, or a proper prefix of it up to a failed write.
pub fn write_all<K: Sink>(sink: &mut K, text: &[u8]) -> Result<(), Failed>
    ensures ok { OnOk result (Appends (K.taken sink.old) (K.taken sink.new) text.now) }
    ensures prefix { OnErr result ((n : ℕ) × (n < length text.now)
        × Appends (K.taken sink.old) (K.taken sink.new) (take n text.now)) }
    ensures cause { OnErr result (Rose (K.faults sink.old) (K.faults sink.new)) }
    ensures never_fall { K.faults sink.old ≤ K.faults sink.new }
{
    let mut at = 0;
    while at < text.len() {
        at += sink.write(&text[at..])?;
    }
    Ok(())
}
