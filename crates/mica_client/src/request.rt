//! The request of a line of a trace, and the requests of one batch.
ghost use Rattle.std.specs.Prelude.{◌≡◌, ◌<◌};
ghost use Rattle.mica_client.specs.Batches.{want_of, request_of, ask_of};

use crate::VERSION;
use batch_packets::{BatchRef, RequestRef, Want};
use mica_trace::{TraceLine, TraceOp};
use std::marker::Model;

fn want_of(op: TraceOp) -> Option<Want>
    ensures { result ≡ want_of op }
{
    match op {
        TraceOp::Put => Some(Want::Put),
        TraceOp::Add => Some(Want::Add),
        TraceOp::Del => Some(Want::Del),
        TraceOp::Touch => Some(Want::Touch),
        TraceOp::Get => Some(Want::Get),
        TraceOp::Sync => None,
    }
}

/// The request of the line of this number, where it has one. The line lends its key and its value.
pub fn request_of<'a>(number: u32, line: &'a TraceLine<'a>) -> Option<RequestRef<'a>>
    requires { number < 100000 }
    ensures { result ≡ request_of number line.now }
{
    let want = want_of(line.op)?;
    let key = line.key.bytes();
    let value = line.value.bytes();
    Some(RequestRef::new(want, number + 1, key, value))
}

/// The requests of one batch, and the port that it goes to.
#[derive(Drop)]
pub struct Group<'a> {
    port: u16,
    requests: Vec<RequestRef<'a>>,
}

impl<'a> Model for Group<'a> {
    ghost use Rattle.mica_client.specs.Batches.{Group};

    ghost Value = { Group };

    ghost view = { λ g. record { port = g.port; requests = g.requests.items } };
}

impl<'a> Group<'a> {
    /// Requests for the front behind a port.
    pub fn new(port: u16, requests: Vec<RequestRef<'a>>) -> Group<'a>
        ensures { result ≡ record { port = port; requests = requests.entry.items } }
    {
        Group { port, requests }
    }

    /// The port that the requests go to.
    pub fn port(&self) -> u16
        ensures { result ≡ self.now.port }
    {
        self.port
    }

    /// Its batch, with this number.
    pub fn into_batch(self, number: u32) -> BatchRef<'a>
        ensures { result ≡ (ask_of number self.entry).batch }
    {
        BatchRef::new(VERSION, number, self.requests)
    }
}
