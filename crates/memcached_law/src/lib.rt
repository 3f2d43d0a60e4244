//! What a client of memcached may rely on, as it follows from the contract of `daemon`.
#![tactic(auto)]

mod laws;

pub use laws::memcached_in_store;
