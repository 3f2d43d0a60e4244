//! Generates traces.
ghost use Rattle.std.specs.Prelude.{◌≡◌, ◌≤◌, ◌<◌, ◌*◌, ◌++◌, length, true, IfOk, OnOk};
ghost use Rattle.mica_trace.specs.TraceGrammar.{trace_text};
ghost use Rattle.server_words.specs.declared.limits.TheConstants.{MAX_SOURCE_LEN};
ghost use Rattle.mica_commands.specs.GenOptions.{is_valid};
ghost use Rattle.mica_commands.specs.Generator.{padded, drawn_key, drawn_line, drawn_lines, generated};

use crate::GenOptions;
use crate::draw::{Draw, OpKind, ends_round, next_draw, start};
use crate::spelling::{put_key, put_value};
use mica_trace::{Trace, TraceLine, TraceOp};
use outside::{Bytes, CowBytes, NoMemory};
use std::alloc::Global;

// The key of a number.
fn key_of(alloc: Global, options: &GenOptions, number: u32) -> Result<Bytes, NoMemory>
    requires valid { is_valid options.now ≡ true }
    requires few { number < 65536 }
    ensures { IfOk result (λ key. key ≡ drawn_key options.now number) }
{
    let mut key = Vec::with_capacity(alloc, options.key_len as usize)?;
    put_key(&mut key, options, number)?;
    Ok(key.into())
}

// The value of a number.
fn value_of(alloc: Global, options: &GenOptions, number: u32) -> Result<Bytes, NoMemory>
    requires valid { is_valid options.now ≡ true }
    requires within { number < options.now.ops }
    ensures { IfOk result (λ value. value ≡ padded options.now.value_len number) }
{
    let mut value = Vec::with_capacity(alloc, options.value_len as usize)?;
    put_value(&mut value, options, number)?;
    Ok(value.into())
}

// The line of an operation.
fn line_of(alloc: Global, options: &GenOptions, draw: &Draw) -> Result<TraceLine<'static>, NoMemory>
    requires valid { is_valid options.now ≡ true }
    requires few { draw.now.key < 65536 }
    requires within { draw.now.number < options.now.ops }
    ensures { IfOk result (λ line. line ≡ drawn_line options.now draw.now) }
{
    let key = key_of(alloc, options, draw.key)?;
    let (op, value) = match draw.kind {
        OpKind::Put => (TraceOp::Put, value_of(alloc, options, draw.number)?.into()),
        OpKind::Del => (TraceOp::Del, CowBytes::empty()),
        OpKind::Get => (TraceOp::Get, CowBytes::empty()),
    };
    Ok(TraceLine {
        op,
        key: key.into(),
        value,
    })
}

// Adds the line of an operation, and the sync behind it.
fn push_operation(
    alloc: Global,
    options: &GenOptions,
    draw: &Draw,
    lines: &mut Vec<TraceLine<'static>>,
) -> Result<(), NoMemory>
    requires valid { is_valid options.now ≡ true }
    requires few { draw.now.key < 65536 }
    requires within { draw.now.number < options.now.ops }
    ensures { OnOk result (lines.new.items ≡ lines.old.items ++ drawn_lines options.now draw.now) }
{
    lines.push(line_of(alloc, options, draw)?)?;
    if ends_round(options, draw.number) {
        lines.push(TraceLine::sync())?;
    }
    Ok(())
}

/// The trace that the options generate.
pub fn gen_trace(alloc: Global, options: &GenOptions) -> Result<Trace<'static>, NoMemory>
    requires { is_valid options.now ≡ true }
    ensures trace { IfOk result (λ trace. trace ≡ generated options.now) }

    // Its text is no longer than a source may be.
    ensures room { length (trace_text (generated options.now)) ≤ MAX_SOURCE_LEN }
{
    let mut words = start(options);
    let mut lines = Vec::with_capacity(alloc, (options.ops + options.syncs()) as usize)?;
    for number in 0..options.ops {
        let draw = next_draw(options, number, &mut words);
        push_operation(alloc, options, &draw, &mut lines)?;
    }
    Ok(Trace::of(lines))
}
