//! A net: ports that are bound, and ends that are released.
ghost use Rattle.std.specs.Prelude.{◌≡◌, ◌<◌, ◌≤◌, ◌+◌, ◌⊎◌, ◌==◌, ◌||◌, not, ℕ, false, List, Some, Option, is_err, IfOk, IfSome, IfNone, None, OnErr, min, if◌then◌else◌};
ghost use Rattle.outside.specs.Faults.{Rose, LAST_COUNT, faults_after};
ghost use Rattle.outside.specs.Script.{is_listed};
ghost use Rattle.outside.specs.Traffic.{new_traffic};
ghost use Rattle.outside.specs.PortStates.{PortStates, out, back, with_port, is_waiting, BindsEnd};

use crate::{Datagrams, Failed};

/// Ports, each of which gives one end.
pub trait Net {
    type End: Datagrams + Send;

    /// The count of faults.
    ghost faults: { Self → ℕ };

    /// How many binds there were, with those that failed.
    ghost binds: { Self → ℕ };

    /// The port of the first bind.
    ghost first: { Self → ℕ };

    /// How many binds failed.
    ghost refused: { Self → ℕ };

    /// What the net tells of its ports, where it tells its datagrams.
    ghost ports: { Self → Option PortStates };

    /// Which binds fail, by their numbers from 1, where the net tells it.
    ghost fails: { Self → Option (List ℕ) };

    /// A new end at the port. Ports are bound one after another.
    fn bind(&mut self, port: u16) -> Result<Self::End, Failed>
        requires { binds self.old ≡ 0 ⊎ port ≡ first self.old + binds self.old }

        ensures binds { binds self.new ≡ binds self.old + 1 }
        ensures first { first self.new ≡ (if binds self.old == 0 then port else first self.old) }
        ensures refused { refused self.new
            ≡ (if is_err result then refused self.old + 1 else refused self.old) }

        ensures port { IfOk result (λ e. Self.End.port e ≡ port) }
        ensures no_faults { IfOk result (λ e. Self.End.faults e ≡ 0) }
        ensures open { IfOk result (λ e. Self.End.has_ended e ≡ false) }
        ensures unused { IfOk result (λ e. Self.End.has_received e ≡ false) }
        ensures fresh { IfOk result (λ e. IfSome (Self.End.traffic e) (λ t. t ≡ new_traffic t.left)) }
        ensures bound { IfOk result (λ e. IfSome (ports self.old)
            (λ old. BindsEnd old port (Self.End.traffic e) (Self.End.script e) (ports self.new))) }

        ensures unbound { OnErr result (ports self.new ≡ ports self.old) }
        ensures silent { IfNone (ports self.old) (ports self.new ≡ None) }
        ensures cause { OnErr result (Rose (faults self.old) (faults self.new)) }
        ensures never_fall { faults self.old ≤ faults self.new }
        ensures counted { IfSome (fails self.old)
            (λ _. faults self.new ≡ faults_after (is_err result) (faults self.old)) }

        ensures foretold { IfSome (fails self.old) (λ listed. IfSome (ports self.old)
            (λ all. is_err result ≡ (is_listed listed (binds self.old + 1) || not (is_waiting (all port))))) }
        ensures same_fails { fails self.new ≡ fails self.old };

    /// Takes an end back, with what it tells.
    fn release(&mut self, end: Self::End)
        requires { IfSome (ports self.old) (λ all. all (Self.End.port end) ≡ out) }

        ensures binds { binds self.new ≡ binds self.old }
        ensures first { first self.new ≡ first self.old }
        ensures refused { refused self.new ≡ refused self.old }

        ensures told { IfSome (ports self.old) (λ all. IfSome (Self.End.traffic end) (λ traffic. ports self.new
            ≡ Some (with_port (Self.End.port end) (back traffic (Self.End.has_ended end)) all))) }
        ensures silent { IfNone (ports self.old) (ports self.new ≡ None) }
        ensures cause { 0 < Self.End.faults end → Rose (faults self.old) (faults self.new) }
        ensures never_fall { faults self.old ≤ faults self.new }
        ensures counted { IfSome (fails self.old)
            (λ _. faults self.new ≡ min (faults self.old + Self.End.faults end) LAST_COUNT) }
        ensures unmoved { IfSome (fails self.old)
            (λ _. Self.End.faults end ≡ 0 → faults self.new ≡ faults self.old) }
        ensures same_fails { fails self.new ≡ fails self.old };
}
