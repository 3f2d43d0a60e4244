//! What a partition is: writes and their outcomes, answers, options, and the laws of its histories.
//!
//! Every layer above is measured by the definitions in `specs/`: the state of each mode and its step, the histories
//! and runs that the steps make, the answers to gets, and the fate of a key in cache mode, whose items may be evicted:
//! the log passes the oldest, and a full bucket displaces its oldest. The machines that take these steps stand in
//! `mica_model`.
#![tactic(auto)]

mod change;
mod fate;
mod item_buf;
mod laws;
mod log_end;
mod options;
mod ranges;
mod rooms;
mod write;

pub use change::Change;
pub use fate::Fate;
pub use item_buf::ItemBuf;
pub use laws::{count_comes_first, one_cut, touches_keep, valid_is_possible};
pub use log_end::{LARGEST_STORED_ITEM, LAST_TAIL, has_room};
pub use options::{MAX_WEAR, MOST_PARTITIONS, MOST_SPARES, MOST_WEAR, MOST_WORDS, Mode, Options};
pub use rooms::{keeps, small_rooms_stay};
pub use write::{Answer, Op, Outcome, Write, write_fits};
