//! Spells the keys and values of generated operations.
ghost use Rattle.std.specs.Prelude.{◌≡◌, ◌<◌, ◌≤◌, ◌++◌, length, true, OnOk};
ghost use Rattle.std.specs.Fmt.{decimal};
ghost use Rattle.mica_commands.specs.GenOptions.{is_valid};
ghost use Rattle.mica_commands.specs.Generator.{padded, drawn_key};

use crate::GenOptions;
use itoa::Buffer;
use outside::NoMemory;

static ZEROS: [u8; 1_024] = [b'0'; 1_024];

// Appends the number in decimal, with zeros before it.
fn put_padded(text: &mut Vec<u8>, len: u32, number: u32) -> Result<(), NoMemory>
    requires digits { length (decimal number) ≤ len }
    requires short { len ≤ 1024 }
    ensures { OnOk result (text.new.items ≡ text.old.items ++ padded len number) }
{
    let mut buffer = Buffer::new();
    let digits = buffer.format(number).as_bytes();
    text.extend_from_slice(&ZEROS[..len as usize - digits.len()])?;
    text.extend_from_slice(digits)?;
    Ok(())
}

/// Appends the key of a number. Where memory runs out, a part may stand there.
pub fn put_key(text: &mut Vec<u8>, options: &GenOptions, number: u32) -> Result<(), NoMemory>
    requires valid { is_valid options.now ≡ true }
    requires few { number < 65536 }
    ensures { OnOk result (text.new.items ≡ text.old.items ++ drawn_key options.now number) }
{
    text.push(b'k')?;
    put_padded(text, options.key_len - 1, number)
}

/// Appends the value of a number. Where memory runs out, a part may stand there.
pub fn put_value(text: &mut Vec<u8>, options: &GenOptions, number: u32) -> Result<(), NoMemory>
    requires valid { is_valid options.now ≡ true }
    requires within { number < options.now.ops }
    ensures { OnOk result (text.new.items ≡ text.old.items ++ padded options.now.value_len number) }
{
    put_padded(text, options.value_len, number)
}
