//! The words of a partition and the scripted reader under one name.
#![tactic(auto)]

pub use partition_words::{
    Alone, Blank, Cut, Diary, Event, Failure, Known, LendPartition, LendWords, Met, OwnerEvent,
    OwnerState, OwnerWords, Partition, Phase, PlainWords, Plan, ReaderState, ReaderWords, Shape,
    Try, WordAt, holds_key, holds_key_hashed, rewrite_item, write_item, write_item_hashed,
    write_to,
};
pub use scripted_reader::{Book, Look, Plot, Scripted};
