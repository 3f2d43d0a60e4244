//! What the answers of a part come to on the page of a client: deeds, one after another.
#![tactic(auto)]

mod laws;

pub use laws::store_courses;
