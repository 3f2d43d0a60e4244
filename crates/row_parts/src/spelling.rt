//! The short forms of texts: `(1024)` for so many letters `x`, `(9 00)` for so many bytes 00, `[7]` for a number that rises by 1 at
//! each turn, and in letters `\x7f` for a byte. In hexadecimal digits a number has four bytes, the lowest first.

use outside::NoMemory;
use std::alloc::Global;

/// What a text is written in: letters, each line with a line feed at its end, the same with a carriage return before it, or hexadecimal digits.
#[derive(Clone, Copy, PartialEq, Eq)]
pub enum Script {
    Letters,
    Returns,
    Hex,
}

impl Script {
    /// What stands behind a line that is whole.
    pub fn line_end(self) -> &'static [u8] {
        match self {
            Script::Letters => b"\n",
            Script::Returns => b"\r\n",
            Script::Hex => b"",
        }
    }
}

/// The short form that a text's bytes so far have begun.
#[derive(Clone, Copy)]
enum Begun {
    Nothing,
    /// A backslash, then `x`.
    Escape,
    Pair,
    /// The first digit of a byte.
    Digit(u8),
    /// How often, and which byte.
    Count(u32),
    Counted(u32, u8),
    Number(u32),
}

fn digit_of(byte: u8) -> Option<u8> {
    match byte {
        b'0'..=b'9' => Some(byte - b'0'),
        b'a'..=b'f' => Some(byte - b'a' + 10),
        _ => None,
    }
}

fn with_digit(number: u32, byte: u8) -> u32 {
    number
        .saturating_mul(10)
        .saturating_add(u32::from(byte & 0xf))
}

fn repeat(count: u32, byte: u8, into: &mut Vec<u8>) -> Result<(), NoMemory> {
    for _ in 0..count {
        into.push(byte)?;
    }
    Ok(())
}

fn push_number(
    alloc: Global,
    script: Script,
    number: u32,
    into: &mut Vec<u8>,
) -> Result<(), NoMemory> {
    if script == Script::Hex {
        into.extend_from_slice(&number.to_le_bytes())?;
    } else {
        let digits = format!(in alloc; "{number}")?;
        into.extend_from_slice(digits.as_bytes())?;
    }
    Ok(())
}

/// A text that is being spelled out.
#[derive(Drop)]
struct Spelling<'a> {
    alloc: Global,
    script: Script,
    turn: u32,
    into: &'a mut Vec<u8>,
}

impl Spelling<'_> {
    fn begin(&mut self, byte: u8) -> Result<Option<Begun>, NoMemory> {
        match (byte, self.script) {
            (b'(', _) => Ok(Some(Begun::Count(0))),
            (b'[', _) => Ok(Some(Begun::Number(0))),
            (b' ', Script::Hex) => Ok(Some(Begun::Nothing)),
            (_, Script::Hex) => Ok(digit_of(byte).map(Begun::Digit)),
            (b'\\', _) => Ok(Some(Begun::Escape)),
            _ => {
                self.into.push(byte)?;
                Ok(Some(Begun::Nothing))
            }
        }
    }

    fn repeat(&mut self, count: u32, byte: u8) -> Result<Option<Begun>, NoMemory> {
        repeat(count, byte, self.into)?;
        Ok(Some(Begun::Nothing))
    }

    /// What is begun behind one byte more. `None` where no short form goes on so.
    fn take(&mut self, begun: Begun, byte: u8) -> Result<Option<Begun>, NoMemory> {
        match (begun, byte) {
            (Begun::Nothing, _) => self.begin(byte),
            (Begun::Escape, b'x') => Ok(Some(Begun::Pair)),
            (Begun::Pair, _) => Ok(digit_of(byte).map(Begun::Digit)),
            (Begun::Digit(high), _) => match digit_of(byte) {
                Some(low) => self.repeat(1, high << 4 | low),
                None => Ok(None),
            },
            (Begun::Count(count), b'0'..=b'9') => Ok(Some(Begun::Count(with_digit(count, byte)))),
            (Begun::Count(count), b' ') => Ok(Some(Begun::Counted(count, 0))),
            (Begun::Count(count), b')') => self.repeat(count, b'x'),
            (Begun::Counted(count, of), b')') => self.repeat(count, of),
            (Begun::Counted(count, of), _) => {
                Ok(digit_of(byte).map(|low| Begun::Counted(count, of << 4 | low)))
            }
            (Begun::Number(number), b'0'..=b'9') => {
                Ok(Some(Begun::Number(with_digit(number, byte))))
            }
            (Begun::Number(number), b']') => {
                let number = number.saturating_add(self.turn);
                push_number(self.alloc, self.script, number, self.into)?;
                Ok(Some(Begun::Nothing))
            }
            _ => Ok(None),
        }
    }
}

/// How a text ends.
#[derive(Clone, Copy, PartialEq, Eq)]
pub enum Ending {
    Whole,
    /// A backslash stands behind it.
    Open,
    /// It is no text.
    Wrong,
}

/// Appends what the text spells at this turn.
pub fn spell(
    alloc: Global,
    script: Script,
    text: &str,
    turn: u32,
    into: &mut Vec<u8>,
) -> Result<Ending, NoMemory> {
    let mut spelling = Spelling {
        alloc,
        script,
        turn,
        into,
    };
    let mut begun = Begun::Nothing;
    for byte in text.as_bytes() {
        match spelling.take(begun, *byte)? {
            Some(next) => begun = next,
            None => return Ok(Ending::Wrong),
        }
    }
    match begun {
        Begun::Nothing => Ok(Ending::Whole),
        Begun::Escape => Ok(Ending::Open),
        _ => Ok(Ending::Wrong),
    }
}
