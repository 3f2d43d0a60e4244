//! Words whose owner lends readers and takes them back.
ghost use Rattle.std.specs.Prelude.{◌≡◌, IfOk};
ghost use Rattle.atomic_table.specs.Seated.{TableId};
ghost use Rattle.partition_words.specs.declared.reader.ReaderState.{ReaderState};
ghost use Rattle.partition_words.specs.Joins.{lent, met_by};
ghost use Rattle.partition_words.specs.Kept.{Kept};

use crate::reading::ReaderWords;
use crate::words::OwnerWords;
use outside::NoMemory;

/// The owner's words, which readers may load meanwhile.
pub trait LendWords: OwnerWords {
    type Reader: ReaderWords;

    /// A note has seen a history, as a reader has, and cannot load.
    type Note: Drop;

    ghost noted: { Self.Note → ReaderState };

    ghost note_home: { Self.Note → TableId };

    /// A reader that has seen the owner's whole history. It wants memory for its share of the table alone.
    fn lend(&mut self) -> Result<Self::Reader, NoMemory>
        ensures lent { IfOk result (λ r. (Self.Reader.reader r ≡ lent (Self.owner self.old))
            × (Self.Reader.home r ≡ Self.home self.old)) }
        ensures same { Self.owner self.new ≡ Self.owner self.old }
        ensures home { Self.home self.new ≡ Self.home self.old };

    /// A note that has seen the owner's whole history. It takes no memory.
    fn note(&mut self) -> Self::Note
        ensures lent { (noted result ≡ lent (Self.owner self.old))
            × (note_home result ≡ Self.home self.old) }
        ensures same { Self.owner self.new ≡ Self.owner self.old }
        ensures home { Self.home self.new ≡ Self.home self.old };

    /// Takes a reader of the same words back. It takes no memory.
    fn meet(&mut self, seat: Self::Reader)
        requires { Self.Reader.home seat ≡ Self.home self.old }
        ensures met { Self.owner self.new ≡ met_by (Self.owner self.old) (Self.Reader.reader seat) }
        ensures kept { Kept (Self.owner self.new) }
        ensures home { Self.home self.new ≡ Self.home self.old };
}
