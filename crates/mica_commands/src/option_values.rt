//! The options of commands, from the texts that they were given.
ghost use Rattle.std.specs.Prelude.{◌≡◌};
ghost use Rattle.clap.specs.Matches.{first_value, found_of};
ghost use Rattle.mica_commands.specs.CommandLine.{options_with, replay_options, serve_options, without_readers, exclusive_options, image_options, ask_options, port_options, gen_options};

use crate::GenOptions;
use clap::ArgMatches;
use mica_words::Hashing;
use option_words::{count, mode, number, power_of_two, required};
use partition_model::{MAX_WEAR, Mode, Options};
use server_words::{AskOptions, PortOptions};

/// The options of partitions of the mode, or `None` where a text is no value of its option.
pub fn options_with(found: &ArgMatches<'_>, mode: Mode) -> Option<Options>
    ensures { result ≡ options_with mode (first_value (found_of found.now)) }
{
    Some(Options {
        mode,
        partitions: count(found, "partitions", 1, 16, 4)?,
        buckets: power_of_two(found, "buckets", 65_536, 1_024)?,
        spares: count(found, "spares", 0, 65_536, 1_024)?,
        words: count(found, "words", 256, 1_048_576, 65_536)?,
        readers: count(found, "readers", 1, 16, 4)?,
        tries: count(found, "tries", 1, 1_000, 100)?,
        wear: number(found, "wear", 1, MAX_WEAR, MAX_WEAR)?,
        hashing: Hashing::Fnv1a,
    })
}

/// The options of `replay`, or `None` where one is missing or its text is no value of it.
pub fn replay_options(found: &ArgMatches<'_>) -> Option<Options>
    ensures { result ≡ replay_options (first_value (found_of found.now)) }
{
    options_with(found, mode(found)?)
}

/// The partitions of `serve`, which has no readers to count.
pub fn serve_options(found: &ArgMatches<'_>) -> Option<Options>
    ensures { result ≡ serve_options (first_value (found_of found.now)) }
{
    let options = replay_options(found)?;
    Some(Options {
        readers: 1,
        ..options
    })
}

// The options of a run in which owners alone read.
fn without_readers(options: Options) -> Options
    ensures { result ≡ without_readers options }
{
    Options {
        readers: 1,
        tries: 1,
        ..options
    }
}

/// The options of `exclusive`, which has no readers to count, and no tries.
pub fn exclusive_options(found: &ArgMatches<'_>) -> Option<Options>
    ensures { result ≡ exclusive_options (first_value (found_of found.now)) }
{
    Some(without_readers(replay_options(found)?))
}

/// The options of `image`, which is in store mode.
pub fn image_options(found: &ArgMatches<'_>) -> Option<Options>
    ensures { result ≡ image_options (first_value (found_of found.now)) }
{
    Some(without_readers(options_with(found, Mode::Store)?))
}

/// The options of `ask`, or `None` where one is missing or its text is no value of it.
pub fn ask_options(found: &ArgMatches<'_>) -> Option<AskOptions>
    ensures { result ≡ ask_options (first_value (found_of found.now)) }
{
    Some(AskOptions {
        port: required(found, "port", 1_024, 65_000)? as u16,
        partitions: count(found, "partitions", 1, 16, 4)?,
        fronts: count(found, "fronts", 1, 16, 1)?,
        per: count(found, "per", 1, 255, 32)?,
        wait: count(found, "wait", 1, 3_600, 5)?,
    })
}

/// The ports of `serve`, or `None` where one is missing or its text is no value of it.
pub fn port_options(found: &ArgMatches<'_>) -> Option<PortOptions>
    ensures { result ≡ port_options (first_value (found_of found.now)) }
{
    Some(PortOptions {
        port: required(found, "port", 1_024, 65_000)? as u16,
        fronts: count(found, "fronts", 1, 16, 1)?,
        batches: u64::from(required(found, "batches", 1, 1_000_000)?),
    })
}

/// The options of a generated trace, or `None` where a text is no value of its option, or the values are not valid together.
pub fn gen_options(found: &ArgMatches<'_>) -> Option<GenOptions>
    ensures { result ≡ gen_options (first_value (found_of found.now)) }
{
    let options = GenOptions {
        seed: number(found, "seed", 0, 18_446_744_073_709_551_615, 1)?,
        ops: count(found, "ops", 1, 100_000, 20_000)?,
        keys: count(found, "keys", 1, 65_536, 1_000)?,
        key_len: count(found, "key-len", 8, 255, 16)?,
        value_len: count(found, "value-len", 8, 1_024, 64)?,
        gets: count(found, "gets", 0, 100, 95)?,
        dels: count(found, "dels", 0, 100, 0)?,
        hot: count(found, "hot", 0, 100, 0)?,
        every: count(found, "every", 1, 100_000, 1_000)?,
    };
    if options.is_valid() {
        Some(options)
    } else {
        None
    }
}
