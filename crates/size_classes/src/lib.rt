//! Classes of sizes, for lists of free blocks.
//!
//! The layer above may rely on this: a larger size has no lower class, of either kind. So a block of a class above
//! that of a need is always large enough.
#![tactic(auto)]

ghost use Rattle.std.specs.Prelude.{◌≡◌, ◌<◌, ◌≤◌, ℕ};
ghost use Rattle.size_classes.specs.Classes.{class_of, fine_class_of};

/// How many classes there are.
pub const CLASSES: u32 = 64;

/// The class of a size.
pub fn class_of(words: u32) -> u32
    requires { 1 ≤ words }
    ensures formula { result ≡ class_of words }
    ensures never_falls { (fewer : ℕ) → 1 ≤ fewer → fewer ≤ words → class_of fewer ≤ result }
    ensures below { result < CLASSES }
{
    if words < 32 {
        return words - 1;
    }
    let highest = 31 - words.leading_zeros();
    let class = 31 + 2 * (highest - 5) + (words >> (highest - 1)) % 2;
    class.min(CLASSES - 1)
}

/// How many fine classes there are.
pub const FINE_CLASSES: u32 = 65;

/// The fine class of a large size: eight to each doubling, so that sizes of one class differ by less than an eighth.
pub fn fine_class_of(words: u32) -> u32
    requires { 1024 ≤ words }
    ensures formula { result ≡ fine_class_of words }
    ensures never_falls { (fewer : ℕ) → 1024 ≤ fewer → fewer ≤ words → fine_class_of fewer ≤ result }
    ensures below { result < FINE_CLASSES }
{
    let highest = 31 - words.leading_zeros();
    let class = 8 * (highest - 10) + (words >> (highest - 3)) % 8;
    class.min(FINE_CLASSES - 1)
}
