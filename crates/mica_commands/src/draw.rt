//! The operations of a generated trace, as the generator draws them.
ghost use Rattle.std.specs.Prelude.{◌≡◌, ◌<◌, ◌+◌, ◌*◌, true};
ghost use Rattle.mica_commands.specs.GenOptions.{is_valid};
ghost use Rattle.mica_commands.specs.Generator.{generator, kind_by, key_number, drawn, ends_round};

use crate::GenOptions;
use rand_core::utils::NextWord;
use rand_pcg::Pcg32;

// The stream of the generator's words.
const STREAM: u64 = 54;

/// What an operation does with its key.
#[derive(Clone, Copy, PartialEq, Eq)]
pub enum OpKind {
    Put,
    Del,
    Get,
}

/// An operation before it is spelled.
#[derive(Clone, Copy)]
pub struct Draw {
    pub kind: OpKind,
    /// The number that its key writes.
    pub key: u32,
    /// Its place among the operations, from 0, which the value of a put writes.
    pub number: u32,
}

/// The generator before its first word.
pub fn start(options: &GenOptions) -> Pcg32
    ensures { result ≡ generator options.now 0 }
{
    Pcg32::new(options.seed, STREAM)
}

// The kind of operation that a word chooses.
fn kind_of(options: &GenOptions, word: u32) -> OpKind
    requires { is_valid options.now ≡ true }
    ensures { result ≡ kind_by options.now word }
{
    let share = word % 100;
    if share < options.gets {
        OpKind::Get
    } else if share < options.gets + options.dels {
        OpKind::Del
    } else {
        OpKind::Put
    }
}

// The number of the key that two words choose.
fn key_number(options: &GenOptions, spot: u32, word: u32) -> u32
    requires { is_valid options.now ≡ true }
    ensures { result ≡ key_number options.now spot word }
{
    if spot % 100 < options.hot {
        word % (options.keys / 100).max(1)
    } else {
        word % options.keys
    }
}

/// The operation of this number, from the next three words.
pub fn next_draw(options: &GenOptions, number: u32, words: &mut Pcg32) -> Draw
    requires valid { is_valid options.now ≡ true }
    requires place { words.old ≡ generator options.now (3 * number) }
    ensures draw { result ≡ drawn options.now number }
    ensures few { result.key < 65536 }
    ensures place { words.new ≡ generator options.now (3 * (number + 1)) }
{
    let kind = words.next_word();
    let spot = words.next_word();
    let key = words.next_word();
    Draw {
        kind: kind_of(options, kind),
        key: key_number(options, spot, key),
        number,
    }
}

/// Whether a sync stands behind the operation.
pub fn ends_round(options: &GenOptions, number: u32) -> bool
    requires valid { is_valid options.now ≡ true }
    requires within { number < options.now.ops }
    ensures { result ≡ ends_round options.now number }
{
    (number + 1) % options.every == 0 && number + 1 < options.ops
}
