//! A walk of a partition's words.
ghost use Rattle.std.specs.Prelude.{◌≡◌, true};
ghost use Rattle.std.specs.List.{list_all};
ghost use Rattle.partition_words.specs.declared.state.Phase.TheVariants.{Idle};
ghost use Rattle.partition_words.specs.OwnerState.{options_in};
ghost use Rattle.kept_items.specs.Walk.{IsWalk};
ghost use Rattle.partition_walk.specs.Listed.{AreListed};
ghost use Rattle.partition_walk.specs.PairAt.{is_item, pairs_from};

use crate::pairs::read_pair;
use kept_items::Walks;
use outside::NoMemory;
use partition_words::{OwnerState, OwnerWords, WordAt};
use saved_items::SavedPair;

/// The words of a partition, and where its items lie, of which so many were gone over.
#[derive(Drop)]
pub struct WordsWalk<W: OwnerWords> {
    words: W,
    offsets: Vec<u64>,
    at: usize,
    ghost items: { list_all (is_item (W.owner words)) offsets.items ≡ true },
}

impl<W: OwnerWords> WordsWalk<W> {
    /// A walk over the items that were listed of a partition between two writes. It takes no memory.
    pub fn over(words: W, offsets: Vec<u64>) -> WordsWalk<W>
        requires idle { (W.owner words).phase ≡ Idle }
        requires listed { AreListed (W.owner words) offsets.items }
        ensures walk { IsWalk (options_in (W.owner words)) (W.owner words).history (pairs_from (W.owner result.words) result.at result.offsets.items) }
        ensures same { W.owner result.words ≡ W.owner words }
        ensures home { W.home result.words ≡ W.home words }
    {
        let mut words = words;
        // A load tells that the words are lawful.
        words.read(WordAt::Stamp);
        WordsWalk {
            words,
            offsets,
            at: 0,
        }
    }

    /// The words, and the room.
    pub fn end(self) -> (W, Vec<u64>)
        ensures same { W.owner result.0 ≡ W.owner self.words }
        ensures home { W.home result.0 ≡ W.home self.words }
    {
        let WordsWalk { words, offsets, .. } = self;
        (words, offsets)
    }
}

impl<W: OwnerWords> Walks for WordsWalk<W> {
    type Source = OwnerState;

    ghost source = { λ w. W.owner w.words };

    ghost rest = { λ w. pairs_from (W.owner w.words) w.at w.offsets.items };

    fn next(&mut self, pair: &mut SavedPair) -> Result<bool, NoMemory> {
        let Some(offset) = self.offsets.as_slice().get(self.at) else {
            return Ok(false);
        };
        read_pair(&mut self.words, *offset, pair)?;
        self.at += 1;
        Ok(true)
    }
}
