//! The commands, and the words that give them.
ghost use Rattle.std.specs.Prelude.{◌≡◌, map, string_bytes};
ghost use Rattle.mica_commands.specs.CommandLine.{ask_given, ask_names, bench_given, bench_names, check_given, command_of, exclusive_given, exclusive_names, image_given, image_names, unpack_given, unpack_names, gen_given, gen_names, replay_given, replay_names, serve_given, serve_names, IsReadingOf};
ghost use Rattle.option_words.specs.Settings.{read_as};

use crate::GenOptions;
use crate::option_values::{
    ask_options, exclusive_options, gen_options, image_options, port_options, replay_options,
    serve_options,
};
use option_words::{WordsFault, matches_of};
use partition_model::Options;
use server_words::{AskOptions, PortOptions};
use std::alloc::Global;

/// What the program is asked to do.
#[derive(Clone, Copy, PartialEq, Eq)]
pub enum Command {
    /// To replay the trace that the source gives.
    Replay(Options),
    /// To answer the requests that come to these ports.
    Serve(Options, PortOptions),
    /// To print a generated trace.
    Gen(GenOptions),
    /// To run a generated trace and print a summary.
    Bench(Options, GenOptions),
    /// To judge the report that the source gives behind a trace.
    Check(Options),
    /// To replay the trace that the source gives, with owners that read too.
    Exclusive(Options),
    /// To ask a server for the trace that the source gives.
    Ask(AskOptions),
    /// To print the image of the store that the trace leaves.
    Image(Options),
    /// To print the pairs of the image that the source gives.
    Unpack,
}

static REPLAY_OPTIONS: [&str; 8] = [
    "mode",
    "partitions",
    "buckets",
    "spares",
    "words",
    "readers",
    "tries",
    "wear",
];

static SERVE_OPTIONS: [&str; 10] = [
    "mode",
    "partitions",
    "buckets",
    "spares",
    "words",
    "tries",
    "wear",
    "port",
    "fronts",
    "batches",
];

static EXCLUSIVE_OPTIONS: [&str; 6] = ["mode", "partitions", "buckets", "spares", "words", "wear"];

static IMAGE_OPTIONS: [&str; 5] = ["partitions", "buckets", "spares", "words", "wear"];

static ASK_OPTIONS: [&str; 5] = ["port", "partitions", "fronts", "per", "wait"];

static UNPACK_OPTIONS: [&str; 0] = [];

static GEN_OPTIONS: [&str; 9] = [
    "seed",
    "ops",
    "keys",
    "key-len",
    "value-len",
    "gets",
    "dels",
    "hot",
    "every",
];

static BENCH_OPTIONS: [&str; 17] = [
    "mode",
    "partitions",
    "buckets",
    "spares",
    "words",
    "readers",
    "tries",
    "wear",
    "seed",
    "ops",
    "keys",
    "key-len",
    "value-len",
    "gets",
    "dels",
    "hot",
    "every",
];

fn read_replay(alloc: Global, words: &[String]) -> Result<Command, WordsFault>
    ensures { IsReadingOf (read_as replay_names replay_given (map string_bytes words.now)) result }
{
    let found = matches_of(alloc, "replay", REPLAY_OPTIONS.as_slice(), words)?;
    match replay_options(&found) {
        Some(options) => Ok(Command::Replay(options)),
        None => Err(WordsFault::Usage),
    }
}

fn read_serve(alloc: Global, words: &[String]) -> Result<Command, WordsFault>
    ensures { IsReadingOf (read_as serve_names serve_given (map string_bytes words.now)) result }
{
    let found = matches_of(alloc, "serve", SERVE_OPTIONS.as_slice(), words)?;
    let Some(options) = serve_options(&found) else {
        return Err(WordsFault::Usage);
    };
    match port_options(&found) {
        Some(ports) => Ok(Command::Serve(options, ports)),
        None => Err(WordsFault::Usage),
    }
}

fn read_gen(alloc: Global, words: &[String]) -> Result<Command, WordsFault>
    ensures { IsReadingOf (read_as gen_names gen_given (map string_bytes words.now)) result }
{
    let found = matches_of(alloc, "gen", GEN_OPTIONS.as_slice(), words)?;
    match gen_options(&found) {
        Some(generator) => Ok(Command::Gen(generator)),
        None => Err(WordsFault::Usage),
    }
}

fn read_bench(alloc: Global, words: &[String]) -> Result<Command, WordsFault>
    ensures { IsReadingOf (read_as bench_names bench_given (map string_bytes words.now)) result }
{
    let found = matches_of(alloc, "bench", BENCH_OPTIONS.as_slice(), words)?;
    let Some(options) = replay_options(&found) else {
        return Err(WordsFault::Usage);
    };
    match gen_options(&found) {
        Some(generator) => Ok(Command::Bench(options, generator)),
        None => Err(WordsFault::Usage),
    }
}

fn read_check(alloc: Global, words: &[String]) -> Result<Command, WordsFault>
    ensures { IsReadingOf (read_as replay_names check_given (map string_bytes words.now)) result }
{
    let found = matches_of(alloc, "check", REPLAY_OPTIONS.as_slice(), words)?;
    match replay_options(&found) {
        Some(options) => Ok(Command::Check(options)),
        None => Err(WordsFault::Usage),
    }
}

fn read_exclusive(alloc: Global, words: &[String]) -> Result<Command, WordsFault>
    ensures { IsReadingOf (read_as exclusive_names exclusive_given (map string_bytes words.now)) result }
{
    let found = matches_of(alloc, "exclusive", EXCLUSIVE_OPTIONS.as_slice(), words)?;
    match exclusive_options(&found) {
        Some(options) => Ok(Command::Exclusive(options)),
        None => Err(WordsFault::Usage),
    }
}

fn read_ask(alloc: Global, words: &[String]) -> Result<Command, WordsFault>
    ensures { IsReadingOf (read_as ask_names ask_given (map string_bytes words.now)) result }
{
    let found = matches_of(alloc, "ask", ASK_OPTIONS.as_slice(), words)?;
    match ask_options(&found) {
        Some(options) => Ok(Command::Ask(options)),
        None => Err(WordsFault::Usage),
    }
}

fn read_image(alloc: Global, words: &[String]) -> Result<Command, WordsFault>
    ensures { IsReadingOf (read_as image_names image_given (map string_bytes words.now)) result }
{
    let found = matches_of(alloc, "image", IMAGE_OPTIONS.as_slice(), words)?;
    match image_options(&found) {
        Some(options) => Ok(Command::Image(options)),
        None => Err(WordsFault::Usage),
    }
}

fn read_unpack(alloc: Global, words: &[String]) -> Result<Command, WordsFault>
    ensures { IsReadingOf (read_as unpack_names unpack_given (map string_bytes words.now)) result }
{
    matches_of(alloc, "unpack", UNPACK_OPTIONS.as_slice(), words)?;
    Ok(Command::Unpack)
}

/// The command that the words after the program's name give.
pub fn read_words(alloc: Global, words: &[String]) -> Result<Command, WordsFault>
    ensures { IsReadingOf (command_of (map string_bytes words.now)) result }
{
    let Some((name, rest)) = words.split_first() else {
        return Err(WordsFault::Usage);
    };
    match name.as_str() {
        "replay" => read_replay(alloc, rest),
        "serve" => read_serve(alloc, rest),
        "gen" => read_gen(alloc, rest),
        "bench" => read_bench(alloc, rest),
        "check" => read_check(alloc, rest),
        "exclusive" => read_exclusive(alloc, rest),
        "ask" => read_ask(alloc, rest),
        "image" => read_image(alloc, rest),
        "unpack" => read_unpack(alloc, rest),
        _ => Err(WordsFault::Usage),
    }
}
