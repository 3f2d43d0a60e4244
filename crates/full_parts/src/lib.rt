//! Where a part of a store refuses something: where it is full, as a client's page counts it.
#![tactic(auto)]

mod laws;

pub use laws::store_refuses;
