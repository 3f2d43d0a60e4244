//! An image: pairs with rising keys.
ghost use Rattle.std.specs.Prelude.{◌≡◌, flat_map, length};

use std::marker::Model;

/// What every image begins with.
pub const MAGIC: [u8; 4] = *b"MIMG";

/// The byte behind it.
pub const VERSION: u8 = 1;

/// Pairs whose keys rise by their bytes, each key and value one that a trace may have. They are kept as their texts.
#[derive(Drop)]
pub struct Image {
    count: u32,
    texts: Vec<u8>,
}

impl Model for Image {
    ghost use Rattle.std.specs.Prelude.{List};
    ghost use Rattle.store_image.specs.ImageGrammar.{Pair};
    ghost use Rattle.store_image.specs.ImageTexts.{pairs_in, ArePairTexts};

    ghost Value = { List Pair };

    ghost view = { λ i. pairs_in i.count i.texts.items };

    ghost invariant = { λ i. ArePairTexts i.count i.texts.items };
}

impl Image {
    ghost use Rattle.store_image.specs.ImageGrammar.{IsImage, pair_text};
    ghost use Rattle.store_image.specs.ImageTexts.{pairs_in, ArePairTexts};

    // The image of so many pairs with these texts, which it keeps.
    pub(crate) fn of(count: u32, texts: Vec<u8>) -> Self
        requires { ArePairTexts count texts.items }
        ensures { result ≡ pairs_in count texts.items }
    {
        Image { count, texts }
    }

    /// How many pairs it has.
    pub fn len(&self) -> u32
        ensures { result ≡ length self.now }
    {
        self.count
    }

    // The texts of all pairs, in the order of their keys.
    pub(crate) fn texts(&self) -> &[u8]
        ensures texts { result.now ≡ flat_map pair_text self.now }
        ensures image { IsImage self.now }
    {
        self.texts.as_slice()
    }
}
