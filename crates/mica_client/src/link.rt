//! The way from a client to a server.
ghost use Rattle.std.specs.Prelude.{◌≡◌, ◌<◌, ◌≤◌, ℕ, Bool, true, [], Option, option_map, length, take, is_err, IfOk, IfSome, IfNone, OnOk, OnErr};
ghost use Rattle.outside.specs.Faults.{Rose, faults_after};
ghost use Rattle.outside.specs.Traffic.{EndScript, fails_recv, fails_reply, after_recv, after_reply};
ghost use Rattle.mica_client.specs.Talk.{Talk, ReceivesNext, sent_one};

use outside::Failed;

/// Where a client's datagrams go to, and replies come from. A call that fails has sent or taken nothing, and raises the count of faults.
pub trait Link {
    /// What it has left and what passed, where it tells it.
    ghost talk: { Self → Option Talk };

    /// The count of faults.
    ghost faults: { Self → ℕ };

    /// Whether a `recv` has answered `None`.
    ghost has_ended: { Self → Bool };

    /// Which calls fail, where the link tells it.
    ghost script: { Self → Option EndScript };

    /// After how many seconds in which nothing comes it has ended. One in memory never waits, and ends where none is left.
    ghost silence: { Self → ℕ };

    fn set_silence(&mut self, seconds: u32)
        requires { 0 < seconds }
        ensures silence { silence self.new ≡ seconds }
        ensures same { (talk self.new ≡ talk self.old) × (faults self.new ≡ faults self.old)
            × (has_ended self.new ≡ has_ended self.old) × (script self.new ≡ script self.old) };

    /// Sends one datagram to a port.
    fn send(&mut self, port: u16, piece: &[u8]) -> Result<(), Failed>
        requires { 0 < length piece.now }

        ensures sent { OnOk result
            (talk self.new ≡ option_map (sent_one (faults self.old) port piece.now) (talk self.old)) }
        ensures unsent { OnErr result (talk self.new ≡ talk self.old) }
        ensures ended { has_ended self.new ≡ has_ended self.old }
        ensures cause { OnErr result (Rose (faults self.old) (faults self.new)) }
        ensures never_fall { faults self.old ≤ faults self.new }
        ensures counted { IfSome (script self.old)
            (λ _. faults self.new ≡ faults_after (is_err result) (faults self.old)) }

        ensures foretold { IfSome (script self.old)
            (λ s. is_err result ≡ fails_reply (length piece.now) s) }
        ensures moves_on { script self.new
            ≡ option_map (after_reply (length piece.now)) (script self.old) }
        ensures silence { silence self.new ≡ silence self.old };

    /// Puts the next datagram at the front of `out`, as far as it fits, and says how many bytes that are. `None` is the end.
    fn recv(&mut self, out: &mut [u8]) -> Result<Option<usize>, Failed>
        requires { 0 < length out.old }

        ensures fits { IfOk result (λ got. IfSome got (λ n. n ≤ length out.old)) }
        ensures next { IfOk result (λ got. IfSome got (λ n. IfSome (talk self.old)
            (λ t. ReceivesNext t (faults self.old) (take n out.new) (length out.old) (talk self.new)))) }
        ensures end { IfOk result (λ got. IfNone got (IfSome (talk self.old) (λ t. t.left ≡ []))) }
        ensures kept { IfOk result (λ got. IfNone got (talk self.new ≡ talk self.old)) }
        ensures ended { IfOk result (λ got. IfNone got (has_ended self.new ≡ true)) }
        ensures goes_on { IfOk result (λ got. IfSome got (λ n. has_ended self.new ≡ has_ended self.old)) }
        ensures as_before { OnErr result (has_ended self.new ≡ has_ended self.old) }

        ensures untaken { OnErr result (talk self.new ≡ talk self.old) }
        ensures cause { OnErr result (Rose (faults self.old) (faults self.new)) }
        ensures never_fall { faults self.old ≤ faults self.new }
        ensures counted { IfSome (script self.old)
            (λ _. faults self.new ≡ faults_after (is_err result) (faults self.old)) }

        ensures foretold { IfSome (script self.old) (λ s. is_err result ≡ fails_recv s) }
        ensures moves_on { script self.new ≡ option_map after_recv (script self.old) }
        ensures silence { silence self.new ≡ silence self.old };
}
