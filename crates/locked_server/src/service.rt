//! What a server serves, and what all its fronts share.
use memcached_stats::Board;
use partition_model::Options;
use server_words::PortOptions;
use std::alloc::Global;
use std::sync::atomic::AtomicBool;

/// What a server serves.
#[derive(Clone, Copy)]
pub struct Service {
    /// Those of the partitions.
    pub options: Options,
    /// The ports of datagrams.
    pub ports: PortOptions,
    /// How many shares the place of connections gives: a front stands behind each. There is none where there are no fronts of connections.
    pub places: u32,
    /// The unique number of the first value that a partition takes from a connection.
    pub base: u64,
    /// How much each front of connections may keep of what waits at them, above what is free of each.
    pub buffers: usize,
}

/// What is at hand of each front.
#[derive(Drop)]
pub struct Shared<'a, W, G> {
    /// Threads.
    pub rt: &'a W,
    pub alloc: Global,
    pub service: Service,
    /// Where a front behind connections shows what it counts.
    pub board: &'a Board,
    /// What a front of datagrams passes before each request.
    pub gate: &'a G,
    /// Set once a front has ended or a partition bears no more writes: ports that fail together end the server then.
    pub ended: &'a AtomicBool,
}
