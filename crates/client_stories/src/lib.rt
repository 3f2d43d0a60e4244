//! What the threads of a server of connections did, as the stories of a client's page.
#![tactic(auto)]

mod laws;

pub use laws::{fit_asks, store_clients};
