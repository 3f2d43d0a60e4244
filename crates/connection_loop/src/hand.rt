//! What a front has at hand as it answers.
use command_answers::Numbering;
use std::alloc::Global;

/// What a front has at hand as it answers: itself, how its values are numbered, and at which second. Memory for what it keeps of a client is taken there.
#[derive(Drop)]
pub struct Hand<F> {
    pub alloc: Global,
    pub front: F,
    pub numbering: Numbering,
    /// What is answered is answered at it, until it is looked at again behind a read.
    pub second: u64,
}
