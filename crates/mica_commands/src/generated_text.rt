//! Prints the trace that options generate, each operation as it is drawn.
ghost use Rattle.std.specs.Prelude.{◌≡◌, ◌<◌, ◌∷◌, ◌++◌, [], true, IfOk, OnOk};
ghost use Rattle.mica_trace.specs.TraceGrammar.{line_text, trace_text};
ghost use Rattle.mica_commands.specs.GenOptions.{is_valid};
ghost use Rattle.mica_commands.specs.Generator.{drawn_line, drawn_lines, generated};

use crate::GenOptions;
use crate::draw::{Draw, OpKind, ends_round, next_draw, start};
use crate::spelling::{put_key, put_value};
use outside::NoMemory;
use std::alloc::Global;

// Appends the line of an operation. Where memory runs out, a part may stand there.
fn put_line(text: &mut Vec<u8>, options: &GenOptions, draw: &Draw) -> Result<(), NoMemory>
    requires valid { is_valid options.now ≡ true }
    requires few { draw.now.key < 65536 }
    requires within { draw.now.number < options.now.ops }
    ensures { OnOk result (text.new.items ≡ text.old.items ++ line_text (drawn_line options.now draw.now) ++ 10 ∷ []) }
{
    text.extend_from_slice(match draw.kind {
        OpKind::Put => b"put ".as_slice(),
        OpKind::Del => b"del ".as_slice(),
        OpKind::Get => b"get ".as_slice(),
    })?;
    put_key(text, options, draw.key)?;
    if draw.kind == OpKind::Put {
        text.push(b' ')?;
        put_value(text, options, draw.number)?;
    }
    text.push(b'\n')?;
    Ok(())
}

// Appends the line of an operation, and that of the sync behind it. Where memory runs out, a part may stand there.
fn put_operation(text: &mut Vec<u8>, options: &GenOptions, draw: &Draw) -> Result<(), NoMemory>
    requires valid { is_valid options.now ≡ true }
    requires few { draw.now.key < 65536 }
    requires within { draw.now.number < options.now.ops }
    ensures { OnOk result (text.new.items ≡ text.old.items ++ trace_text (drawn_lines options.now draw.now)) }
{
    put_line(text, options, draw)?;
    if ends_round(options, draw.number) {
        text.extend_from_slice(b"sync\n")?;
    }
    Ok(())
}

/// The text of the trace that the options generate, in a room that is made at once.
pub fn gen_text(alloc: Global, options: &GenOptions) -> Result<Vec<u8>, NoMemory>
    requires { is_valid options.now ≡ true }
    ensures { IfOk result (λ text. text.items ≡ trace_text (generated options.now)) }
{
    let mut words = start(options);
    let mut text = Vec::with_capacity(alloc, options.longest_text() as usize)?;
    for number in 0..options.ops {
        let draw = next_draw(options, number, &mut words);
        put_operation(&mut text, options, &draw)?;
    }
    Ok(text)
}
