//! Exclusive reads and writes: the owner of a partition answers its gets too, in the order of the trace.
//!
//! The layer above may rely on this: the report is exact, that is, each get has the machine's answer after the writes of its
//! partition that stand before it.
#![tactic(auto)]

mod feeder;
mod merging;
mod owner;
mod printing;
mod queue;
mod run;
mod worker;

pub use printing::{ExclusiveFault, exclusive};
pub use run::run_exclusive;
