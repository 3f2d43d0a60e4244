//! All that a partition answered, to whichever front, is one order of answers: each is the machine's behind those that stand before it.
#![tactic(auto)]

mod laws;

pub use laws::one_order;
