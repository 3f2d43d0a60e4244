//! What a front makes of datagrams: it answers the requests of each one in order, each before the next one.
//!
//! `serve_batch` says what is made of one datagram, and `serve_end` what is made of all that an end gives.
#![tactic(auto)]

mod batch;
mod batch_ahead;
mod deal;
mod end;
mod gate;

pub use batch::serve_batch;
pub use end::serve_end;
