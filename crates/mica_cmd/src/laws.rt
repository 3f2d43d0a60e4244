//! The headline, as it follows from the contract of `mica`.
ghost use Rattle.std.specs.Prelude.{◌≡◌, ℕ, List, Some};
ghost use Rattle.partition_model.specs.declared.options.Options.{Options};
ghost use Rattle.mica_commands.specs.CommandLine.{command_of};
ghost use Rattle.mica_cmd.specs.Outside.{Outside};
ghost use Rattle.mica_cmd.specs.Headline.{PrintsLawfulReport};
ghost use Rattle.mica_cmd.specs.Promise.{KeepsPromise};
ghost use Rattle.mica_cmd.specs.Promises.{promise_of};

use crate::Status;
use mica_commands::Command;

/// Words that give a replay, and `mica`'s contract with the status `Done`: a lawful report was printed.
pub fn headline()
    ensures { (words : List (List ℕ)) (options : Options) (old new : Outside) → command_of words ≡ Some (Command.Replay options)
        → KeepsPromise (promise_of (command_of words)) old new Status.Done
        → PrintsLawfulReport options old.source new.source old.sink new.sink }
{}
