//! What some words mean: examples of the grammar, as facts.
ghost use Rattle.std.specs.Prelude.{◌≡◌, [], ◌∷◌, Some, None, codes};
ghost use Rattle.partition_model.specs.declared.options.TheConstants.{MAX_WEAR};
ghost use Rattle.mica_commands.specs.CommandLine.{command_of};

use crate::Command;
use mica_words::Hashing;
use partition_model::Mode;

/// What `mica replay --mode store` is: a replay with the defaults.
pub fn default_replay()
    ensures replay { command_of (codes "replay" ∷ codes "--mode" ∷ codes "store" ∷ []) ≡ Some (Command.Replay (record {
      mode = Mode.Store;
      partitions = 4;
      buckets = 1024;
      spares = 1024;
      words = 65536;
      readers = 4;
      tries = 100;
      wear = MAX_WEAR;
      hashing = Hashing.Fnv1a;
    })) }
    ensures no_mode { command_of (codes "replay" ∷ []) ≡ None }
{}

/// What a replay with all options named is: each value stands behind its option, or in the same word behind `=`. No value may lie
/// beyond its range, and no option may be named twice.
pub fn named_options()
    ensures replay { command_of (codes "replay" ∷ codes "--mode=cache" ∷ codes "--partitions" ∷ codes "2" ∷ codes "--buckets" ∷ codes "64" ∷ codes "--spares" ∷ codes "0"
        ∷ codes "--words=4096" ∷ codes "--readers" ∷ codes "8" ∷ codes "--tries" ∷ codes "5" ∷ codes "--wear=100000" ∷ []) ≡ Some (Command.Replay (record {
          mode = Mode.Cache;
          partitions = 2;
          buckets = 64;
          spares = 0;
          words = 4096;
          readers = 8;
          tries = 5;
          wear = 100000;
          hashing = Hashing.Fnv1a;
        })) }
    ensures beyond { command_of (codes "replay" ∷ codes "--mode" ∷ codes "cache" ∷ codes "--readers" ∷ codes "17" ∷ []) ≡ None }
    ensures twice { command_of (codes "replay" ∷ codes "--mode" ∷ codes "cache" ∷ codes "--mode" ∷ codes "store" ∷ []) ≡ None }
{}
