//! What listens at the places of a server.
ghost use Rattle.std.specs.Prelude.{◌≡◌, ◌+◌, ◌<◌, ◌≤◌, ◌++◌, ◌∷◌, [], ℕ, List, Option, length, map, option_map, not, is_err, vec_len, vec_capacity, IfSome, OnOk, OnErr};
ghost use Rattle.outside.specs.Faults.{Rose, faults_after};
ghost use Rattle.connections.specs.Shares.{ShareLogs, GivesShares, are_awaited, share_facts, with_share, without_shares};

use crate::Connections;
use outside::Failed;
use std::net::Ipv4Addr;

/// A place that the words name. What it is, they, an adapter and the line of a server that is ready know, and nobody else: to others it is the k-th of them.
#[derive(Clone, Copy)]
pub struct Place {
    pub address: Ipv4Addr,
    pub port: u16,
}

/// Places, each of which gives the connections that come to it in shares. The shares are numbered from 0 as they are given out.
pub trait Listeners {
    ghost use Rattle.connections.specs.declared.listeners.Place.{Place};

    type Port: Connections + Send;

    /// The count of faults.
    ghost faults: { Self → ℕ };

    /// What waits at each share, where it is told.
    ghost waits: { Self → Option ShareLogs };

    /// What was left of each share that was let go, where it is told.
    ghost released: { Self → Option ShareLogs };

    /// The places that the words name.
    ghost places: { Self → List Place };

    /// How many connections each share has at most at a time.
    ghost most: { Self → ℕ };

    /// The places that were listened at since they were named, one after another, by their numbers from 0.
    ghost heard: { Self → List ℕ };

    /// How many shares were given out.
    ghost given: { Self → ℕ };

    /// From now on these are the places that are named, and each share has at most so many connections at a time. Nothing was listened at of them yet.
    fn set_places(&mut self, named: Vec<Place>, limit: u32)
        ensures places { places self.new ≡ named.items }
        ensures most { most self.new ≡ limit }
        ensures unheard { heard self.new ≡ [] }
        ensures given { given self.new ≡ given self.old }
        ensures waits { waits self.new ≡ waits self.old }
        ensures released { released self.new ≡ released self.old }
        ensures faults { faults self.new ≡ faults self.old };

    /// Listens at a place, and puts its shares behind the others: all of them, or none. Nothing was reported of any yet.
    fn listen(&mut self, place: u32, shares: u32, out: &mut Vec<Self::Port>) -> Result<(), Failed>
        requires there { place < length (places self.old) }
        requires some { 0 < shares }
        requires room { vec_len out.old + shares ≤ vec_capacity out.old }
        ensures all { OnOk result (GivesShares (waits self.old) (given self.old) shares
            (map (share_facts Self.Port.share Self.Port.faults Self.Port.has_ended Self.Port.log) out.old.items)
            (map (share_facts Self.Port.share Self.Port.faults Self.Port.has_ended Self.Port.log) out.new.items)) }
        ensures gives { OnOk result (given self.new ≡ given self.old + shares) }
        ensures taken { OnOk result (waits self.new ≡ option_map (without_shares (given self.old) shares) (waits self.old)) }
        ensures heard { OnOk result (heard self.new ≡ heard self.old ++ place ∷ []) }
        ensures none { OnErr result (out.new.items ≡ out.old.items) }
        ensures ungiven { OnErr result (given self.new ≡ given self.old) }
        ensures unmoved { OnErr result (waits self.new ≡ waits self.old) }
        ensures unheard { OnErr result (heard self.new ≡ heard self.old) }
        ensures room { vec_capacity out.new ≡ vec_capacity out.old }
        ensures places { places self.new ≡ places self.old }
        ensures most { most self.new ≡ most self.old }
        ensures released { released self.new ≡ released self.old }
        ensures cause { OnErr result (Rose (faults self.old) (faults self.new)) }
        ensures never_fall { faults self.old ≤ faults self.new }
        ensures counted { faults self.new ≡ faults_after (is_err result) (faults self.old) }
        ensures foretold { IfSome (waits self.old) (λ all. is_err result ≡ not (are_awaited (given self.old) shares all)) };

    /// Lets a share go: nobody is served there any more, and what was left of its connections is told. Once all shares of a place were let go, nobody listens there.
    fn release(&mut self, connections: Self::Port)
        ensures released { released self.new ≡ option_map (with_share (Self.Port.share connections) (Self.Port.log connections)) (released self.old) }
        ensures waits { waits self.new ≡ waits self.old }
        ensures places { places self.new ≡ places self.old }
        ensures most { most self.new ≡ most self.old }
        ensures heard { heard self.new ≡ heard self.old }
        ensures given { given self.new ≡ given self.old }
        ensures faults { faults self.new ≡ faults self.old };
}
