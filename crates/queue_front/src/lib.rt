//! Fronts over owners: a `SoloFront` owns its partitions. A `QueueFront` sends its writes to the owners, whose workers are
//! `serve_owner`, and gets by loads of its own; as a `WaitingFront` it has the handle that it waits by.
#![tactic(auto)]

mod owner_work;
mod queue_front;
mod solo;
mod waiting_front;

pub use owner_work::serve_owner;
pub use queue_front::{FrontPart, QueueFront};
pub use solo::SoloFront;
pub use waiting_front::WaitingFront;
