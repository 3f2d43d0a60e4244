//! The replay of a trace, in rounds that its syncs part: in each, every partition's owner and every reader work side by
//! side, each in a thread of its own, and at its end all readers' seats meet their owners.
//!
//! The layer above may rely on this: the report is lawful for the trace, and the kept seats are those through which the
//! owners wrote and the readers answered (`IsReplayed`).
#![tactic(auto)]

mod crew;
mod done;
mod duties;
mod feeder;
mod feeding;
mod lending;
mod merging;
mod owner;
mod printing;
mod queues;
mod reader;
mod round;
mod round_jobs;
mod rounds;
mod run;
mod sharing;
mod worker;

pub use done::Done;
pub use owner::run_owner;
pub use printing::{ReplayFault, replay};
pub use reader::{Found, run_reader};
pub use run::run_trace;
