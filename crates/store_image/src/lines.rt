//! Images as lines of a trace.
ghost use Rattle.std.specs.Prelude.{◌≡◌, ◌++◌, ◌∷◌, [], OnOk, OnErr};
ghost use Rattle.mica_trace.specs.TraceGrammar.{line_text, trace_text};
ghost use Rattle.store_image.specs.ImageLines.{put_line as line_of, put_lines};

use crate::Image;
use crate::reading::first_pair;
use mica_trace::append_line;
use outside::NoMemory;

// Appends the line that puts a pair. Where memory runs out, nothing is appended.
fn put_line(key: &[u8], value: &[u8], out: &mut Vec<u8>) -> Result<(), NoMemory>
    ensures ok { OnOk result (out.new.items ≡ out.old.items ++ line_text (line_of (record { key = key.now; value = value.now })) ++ 10 ∷ []) }
    ensures err { OnErr result (out.new.items ≡ out.old.items) }
{
    append_line(out, &[b"put ".as_slice(), key, b" ".as_slice(), value])
}

/// Appends a line for each pair, which puts it. Where memory runs out, nothing is appended.
pub fn put_image(image: &Image, out: &mut Vec<u8>) -> Result<(), NoMemory>
    ensures ok { OnOk result (out.new.items ≡ out.old.items ++ trace_text (put_lines image.now)) }
    ensures err { OnErr result (out.new.items ≡ out.old.items) }
{
    let start = out.len();
    let mut rest = image.texts();
    // A line has three bytes more than the text of its pair.
    out.reserve(rest.len().saturating_add(3 * image.len() as usize))?;
    for _ in 0..image.len() {
        let (key, value, after) = first_pair(rest);
        if put_line(key, value, out).is_err() {
            out.truncate(start);
            return Err(NoMemory);
        }
        rest = after;
    }
    Ok(())
}
