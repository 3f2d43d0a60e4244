//! Laws of options and of histories, which hold of every call.
ghost use Rattle.std.specs.Prelude.{◌≡◌, ◌≢◌, ◌<◌, ℕ};
ghost use Rattle.partition_model.specs.declared.options.Options.{Options};
ghost use Rattle.std.specs.List.{AllByRecursion};
ghost use Rattle.mica_words.specs.Stamp.{tail_of};
ghost use Rattle.partition_model.specs.History.{History, IsHistory, IsPrefix, IsCut, stamp_of};
ghost use Rattle.partition_model.specs.Limits.{last_tail};
ghost use Rattle.partition_model.specs.Write.{IsWrite, IsShort};
ghost use Rattle.partition_model.specs.Options.{IsValid, IsPossible};
ghost use Rattle.partition_model.specs.Touches.{TouchesKeep};

/// Partitions can be made of what the words of `mica` may ask for.
pub fn valid_is_possible()
    ensures { (options : Options) → IsValid options → IsPossible options }
{}

/// Within the ranges of the words of `mica`, and with values that traces may have, a partition has accepted as many writes as it may before its log ends.
pub fn count_comes_first()
    ensures { (options : Options) (history : History) → IsValid options → IsHistory options history → AllByRecursion IsWrite history
        → AllByRecursion IsShort history → tail_of (stamp_of options history) < last_tail }
{}

/// Each accepted write raises the stamp, so a stamp is that of one prefix of a history at most.
pub fn one_cut()
    ensures rises { (options : Options) (history begun : History) → IsPrefix begun history
        → begun ≢ history → stamp_of options begun < stamp_of options history }
    ensures one { (options : Options) (history : History) (stamp : ℕ) (a b : History)
        → IsCut options history stamp a → IsCut options history stamp b → a ≡ b }
{}

/// A touch in cache mode changes no value: a key keeps its own, unless the log passes it.
pub fn touches_keep()
    ensures { TouchesKeep }
{}
