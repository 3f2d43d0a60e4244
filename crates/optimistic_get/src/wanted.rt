//! The key that a get looks for.
ghost use Rattle.std.specs.Prelude.{◌≡◌, ◌<◌};
ghost use Rattle.mica_words.specs.Hash.{hash_tag};
ghost use Rattle.mica_words.specs.Item.{KeyFits};
ghost use Rattle.mica_words.specs.Packing.{AreBytes};

/// A key with its hash and its tag.
#[derive(Clone, Copy)]
pub(crate) struct Wanted<'a> {
    pub key: &'a [u8],
    pub hash: u64,
    pub tag: u16,
    pub ghost fits: { KeyFits key.now },
    pub ghost tagged: { tag ≡ hash_tag hash },
    pub ghost bytes: { AreBytes key.now },
}
