//! Laws of files of saved items, each the contract of a function that does nothing.
ghost use Rattle.saved_items.specs.Laws.{ReadsAll, OneReading, OneChangedWord, NoBeginning};

/// What was written is what is read.
#[tactic(auto, using(crate::proofs::Whole::reads_all))]
pub fn reads_all()
    ensures { ReadsAll }
{}

/// A file is read in one way.
pub fn one_reading()
    ensures { OneReading }
{}

/// A file in which one word was changed is not read without a fault.
pub fn one_changed_word()
    ensures { OneChangedWord }
{}

/// A file that was cut is not read without a fault.
pub fn no_beginning()
    ensures { NoBeginning }
{}
