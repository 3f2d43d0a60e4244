//! What programs of rows share: how a row is written, which `rows/data/README` says, and the net and the gate of a row.
#![tactic(auto)]

mod entry;
mod gate;
mod net;
mod row;
mod spelling;

pub use entry::{Entry, is_one_of};
pub use gate::RowGate;
pub use net::{at_least_one, has_sent, net_of};
pub use row::{Row, rows_of};
