//! The published vectors, computed.
ghost use Rattle.std.specs.Prelude.{◌≡◌};
ghost use Rattle.keyed_hash.specs.SipHash.{vector};

/// What SipHash-1-3 is of 0, 1, 2 and so many bytes 00 01 .., under the secret 00 01 .. 0f.
pub fn published_vectors()
    ensures of_0 { vector 0 ≡ 0xabac0158050fc4dc }
    ensures of_1 { vector 1 ≡ 0xc9f49bf37d57ca93 }
    ensures of_2 { vector 2 ≡ 0x82cb9b024dc7d44d }
    ensures of_7 { vector 7 ≡ 0xd3927d989bb11140 }
    ensures of_8 { vector 8 ≡ 0x369095118d299a8e }
    ensures of_9 { vector 9 ≡ 0x25a48eb36c063de4 }
    ensures of_15 { vector 15 ≡ 0xd320d86d2a519956 }
    ensures of_16 { vector 16 ≡ 0xcc4fdd1a7d908b66 }
    ensures of_63 { vector 63 ≡ 0x9d199062b7bbb3a8 }
{}
