//! Judges reports: whether one is lawful for options and a trace, and if not, which of its lines is the first that is not.
//!
//! A caller may rely on this: `Lawful` comes exactly where the report is lawful, as `mica_trace` defines it, and
//! `Unlawful` with exactly the line at which the three walks of `specs/FirstUnlawful.antt` stop. The lines are
//! shared out to their partitions once. Each partition's writes are taken by its machine once, and each get is judged when
//! the machine comes to its stamp. In cache mode the machine has its records bucket by bucket, so no step looks at more of
//! them than one bucket has.
#![tactic(auto)]

mod asked;
mod cache_buckets;
mod check;
mod falls;
mod fits;
mod laws;
mod machine;
mod partition;
mod rounds;
mod settling;
mod sharing;

pub use check::{Verdict, check_report};
pub use laws::one_verdict;
