//! All words of a program.
ghost use Rattle.std.specs.Prelude.{◌≡◌, IfOk, Some, drop, map, string_bytes};
ghost use Rattle.std.specs.Vec.Iter.{into_iter_items};
ghost use Rattle.option_words.specs.ProgramWords.{all_words_of};

use outside::NoMemory;
use std::alloc::Global;
use std::env::Args;
use std::io::{self, ErrorKind};

fn gathered(alloc: Global, args: Args) -> Result<Vec<String>, NoMemory>
    ensures { IfOk result (λ words. words.items ≡ into_iter_items args) }
{
    let mut words = Vec::new(alloc);
    let mut left = args;
    while let Some(word) = left.next() {
        words.push(word)?;
    }
    Ok(words)
}

/// All words, the program's name first.
pub fn all_words(alloc: Global, args: io::Result<Args>) -> Result<Vec<String>, NoMemory>
    ensures { IfOk result (λ words. all_words_of string_bytes args ≡ Some (map string_bytes words.items)) }
{
    match args {
        Ok(args) => gathered(alloc, args),
        Err(error) => match error.kind() {
            ErrorKind::OutOfMemory => Err(NoMemory),
            _ => Ok(Vec::new(alloc)),
        },
    }
}

/// The words behind the program's name.
pub fn behind_name(words: &[String]) -> &[String]
    ensures { result.now ≡ drop 1 words.now }
{
    match words.split_first() {
        Some((_, behind)) => behind,
        None => words,
    }
}
