//! Command lines as clap takes them apart: options with one value each, and nothing else.
ghost use Rattle.std.specs.Prelude.{◌≡◌, IfOk, IfErr, None, [], false, true, map, string_bytes};
ghost use Rattle.std.specs.List.{list_any};
ghost use Rattle.clap.specs.Walk.{rule_of};
ghost use Rattle.clap.specs.Simple.{app_of};
ghost use Rattle.clap.specs.Faults.{is_simple_and_free};
ghost use Rattle.clap.specs.Matches.{first_value, found_of};
ghost use Rattle.option_words.specs.Words.{given_by, has_name};
ghost use Rattle.option_words.specs.ClapCommand.{option_rule, app_with, is_stray, GivesTexts};

use crate::WordsFault;
use clap::error::ErrorKind;
use clap::{Arg, ArgAction, ArgMatches, Command};
use std::alloc::{AllocError, Global};

fn option_named<'a>(alloc: Global, name: &'a str) -> Arg<'a>
    ensures rule { rule_of result ≡ option_rule name.entry.now }
    ensures local { result.global ≡ false }
{
    Arg::new(alloc, name).long(name).action(ArgAction::Set)
}

// The words of the command are its options alone.
fn clap_command<'a>(
    alloc: Global,
    name: &'a str,
    options: &[&'a str],
) -> Result<Command<'a>, AllocError>
    ensures { IfOk result (λ c. app_of c ≡ app_with name.entry.now (map (λ o. o.now) options.now)) }
{
    let mut command = Command::new(alloc, name)
        .no_binary_name(true)
        .disable_help_flag(true)
        .disable_version_flag(true);
    for option in options {
        command = command.arg(option_named(alloc, option))?;
    }
    Ok(command)
}

// clap takes some of these words, such as a lone `--`.
fn is_stray(word: &str) -> bool
    ensures { result ≡ is_stray word.now }
{
    match word.as_bytes() {
        [b'-', b'-', _, ..] => false,
        [b'-', ..] => true,
        _ => false,
    }
}

fn has_stray(words: &[String]) -> bool
    ensures { result ≡ list_any (λ w. is_stray (string_bytes w)) words.now }
{
    words.iter().any(|word| is_stray(word.as_str()))
}

/// What the words behind the name of a command give to its options.
pub fn matches_of<'a>(
    alloc: Global,
    name: &'a str,
    options: &[&'a str],
    words: &'a [String],
) -> Result<ArgMatches<'a>, WordsFault>
    requires simple { is_simple_and_free (app_with name.now (map (λ o. o.now) options.now)) ≡ true }
    requires named { has_name [] (map (λ o. o.now) options.now) ≡ false }
    ensures given { IfOk result (λ m. GivesTexts (first_value (found_of m))
        (given_by (map (λ o. o.now) options.now) (map string_bytes words.entry.now))) }
    ensures refused { IfErr result (λ e. e ≡ WordsFault.Usage
        → given_by (map (λ o. o.now) options.now) (map string_bytes words.entry.now) ≡ None) }
{
    if has_stray(words) {
        return Err(WordsFault::Usage);
    }
    let Ok(command) = clap_command(alloc, name, options) else {
        return Err(WordsFault::NoMemory);
    };
    match command.try_get_matches_from(words) {
        Ok(matches) => Ok(matches),
        Err(error) => match error.kind() {
            ErrorKind::OutOfMemory => Err(WordsFault::NoMemory),
            _ => Err(WordsFault::Usage),
        },
    }
}
