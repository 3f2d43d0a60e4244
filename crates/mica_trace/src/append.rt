//! Appends a line to a text.
ghost use Rattle.std.specs.Prelude.{◌≡◌, ◌∷◌, ◌++◌, [], flat_map, OnOk, OnErr};

use outside::NoMemory;

/// Appends the parts and a line feed. Where memory runs out, nothing is appended.
pub fn append_line(out: &mut Vec<u8>, parts: &[&[u8]]) -> Result<(), NoMemory>
    ensures ok { OnOk result (out.new.items ≡ out.old.items ++ flat_map (λ part. part.now) parts.now ++ 10 ∷ []) }
    ensures err { OnErr result (out.new.items ≡ out.old.items) }
{
    let start = out.len();
    for part in parts {
        if out.extend_from_slice(part).is_err() {
            out.truncate(start);
            return Err(NoMemory);
        }
    }
    if out.push(b'\n').is_err() {
        out.truncate(start);
        return Err(NoMemory);
    }
    Ok(())
}
