//! Memcached's text protocol: commands and their faults, the texts of replies and of items, and what becomes of an item.

pub mod commands;
pub mod items;
pub mod texts;
