//! One end of a net.
ghost use Rattle.std.specs.Prelude.{◌≡◌, ◌<◌, ◌≤◌, ◌||◌, ℕ, Bool, true, false, [], Option, option_map, length, take, is_some, is_none, is_err, IfOk, IfSome, IfNone, OnOk, OnErr};
ghost use Rattle.outside.specs.Faults.{Rose, faults_after};
ghost use Rattle.outside.specs.Traffic.{Traffic, EndScript, ReceivesNext, sent_one, fails_recv, fails_reply, after_recv, after_reply};

use crate::Failed;

/// One end of a net, bound to a port: datagrams come in, and replies go back to the sender of the last one.
pub trait Datagrams: Drop {
    /// The port that it was bound to. No call changes it.
    ghost port: { Self → ℕ };

    /// What it has left, received and sent, where it tells it.
    ghost traffic: { Self → Option Traffic };

    /// The count of faults.
    ghost faults: { Self → ℕ };

    /// Whether a `recv` has answered `None`.
    ghost has_ended: { Self → Bool };

    /// Whether a `recv` has answered `Some`.
    ghost has_received: { Self → Bool };

    /// Which calls fail, where the end tells it.
    ghost script: { Self → Option EndScript };

    /// Puts the next datagram at the front of `out`, as far as it fits, and says how many bytes that are. `None` is the end.
    fn recv(&mut self, out: &mut [u8]) -> Result<Option<usize>, Failed>
        requires room { 0 < length out.old }
        requires open { has_ended self.old ≡ false }

        ensures fits { IfOk result (λ got. IfSome got (λ n. n ≤ length out.old)) }
        ensures next { IfOk result (λ got. IfSome got (λ n. IfSome (traffic self.old)
            (λ t. ReceivesNext t (take n out.new) (length out.old) (traffic self.new)))) }
        ensures end { IfOk result (λ got. IfNone got (IfSome (traffic self.old) (λ t. t.left ≡ []))) }
        ensures kept { IfOk result (λ got. IfNone got (traffic self.new ≡ traffic self.old)) }
        ensures ended { IfOk result (λ got. has_ended self.new ≡ is_none got) }
        ensures received { IfOk result
            (λ got. has_received self.new ≡ (has_received self.old || is_some got)) }

        ensures untaken { OnErr result (traffic self.new ≡ traffic self.old) }
        ensures still_open { OnErr result (has_ended self.new ≡ false) }
        ensures still_received { OnErr result (has_received self.new ≡ has_received self.old) }
        ensures cause { OnErr result (Rose (faults self.old) (faults self.new)) }
        ensures never_fall { faults self.old ≤ faults self.new }
        ensures counted { IfSome (script self.old)
            (λ _. faults self.new ≡ faults_after (is_err result) (faults self.old)) }
        ensures port { port self.new ≡ port self.old }

        ensures foretold { IfSome (script self.old) (λ s. is_err result ≡ fails_recv s) }
        ensures moves_on { script self.new ≡ option_map after_recv (script self.old) };

    /// Sends one datagram to the sender of the last one that was received.
    fn reply(&mut self, piece: &[u8]) -> Result<(), Failed>
        requires some { 0 < length piece.now }
        requires peer { has_received self.old ≡ true }

        ensures sent { OnOk result
            (traffic self.new ≡ option_map (sent_one piece.now) (traffic self.old)) }
        ensures unsent { OnErr result (traffic self.new ≡ traffic self.old) }
        ensures ended { has_ended self.new ≡ has_ended self.old }
        ensures received { has_received self.new ≡ true }
        ensures cause { OnErr result (Rose (faults self.old) (faults self.new)) }
        ensures never_fall { faults self.old ≤ faults self.new }
        ensures counted { IfSome (script self.old)
            (λ _. faults self.new ≡ faults_after (is_err result) (faults self.old)) }
        ensures port { port self.new ≡ port self.old }

        ensures foretold { IfSome (script self.old)
            (λ s. is_err result ≡ fails_reply (length piece.now) s) }
        ensures moves_on { script self.new
            ≡ option_map (after_reply (length piece.now)) (script self.old) };
}
