//! A desk: work that one thread hands to another and takes back, whatever the work is and whatever is done with it.
//!
//! The layer above may rely on this: what is taken may be handed by its terms, and what is taken back was done to
//! what was handed last.
#![tactic(auto)]

mod rows;
mod rule;
mod sides;

pub use rows::{end_all, hand_all, make_desks, take_all_back};
pub use rule::{DeskRule, DeskSeatView, Settles, Stage, Terms, Work};
pub use sides::{Doer, Giver, make_desk};
