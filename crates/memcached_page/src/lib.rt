//! What a client of memcached may rely on: its page, in `specs`, and what it says of some talks.
#![tactic(auto)]

mod examples;

pub use examples::{
    cache_keeps, counts_over_two, deleted_is_gone, newest_is_shown, own_reply, refused_is_gone,
    refuses_where_full, store_keeps,
};
