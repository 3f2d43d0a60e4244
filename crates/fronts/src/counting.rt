//! A front that counts what it is given.
ghost use Rattle.std.specs.Prelude.{◌≡◌};

use crate::changing::Changes;

/// A front that counts the writes that it is given.
pub trait CountsWrites: Changes {
    /// How many more it may be given.
    fn writes_left(&self) -> u64
        ensures { result ≡ Self.left self.now };
}
