//! What servers share, whoever owns their partitions: ports bound and released, what the answers of all fronts come to, and the line that tells it.
//!
//! A caller may rely on this: what all fronts of a server received and replied is `Served` (`specs/Served.antt`): the writes of all fronts are one
//! run of each partition's machine, and each get is its answer at the replied stamp. `specs/NetRun.antt` says what each answer of a server means for
//! its net and its tables.
#![tactic(auto)]

mod answers;
mod bound_ends;
mod totals;

pub use answers::sum_up;
pub use bound_ends::{bind_all, release_all};
pub use totals::totals_line;
