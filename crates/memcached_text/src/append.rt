//! Appends parts to a text.
ghost use Rattle.std.specs.Prelude.{◌≡◌, ◌≤◌, ◌+◌, ◌++◌, length, flat_map, sum_by, OnOk, OnErr};

use outside::NoMemory;

/// Appends the parts. Where memory runs out, nothing is appended.
#[inline(always)]
pub fn append_parts(out: &mut Vec<u8>, parts: &[&[u8]]) -> Result<(), NoMemory>
    ensures ok { OnOk result (out.new.items ≡ out.old.items ++ flat_map (λ part. part.now) parts.now) }
    ensures err { OnErr result (out.new.items ≡ out.old.items) }
    ensures short { length out.new.items ≤ length out.old.items + sum_by (λ part. length part.now) parts.now }
{
    let start = out.len();
    for part in parts {
        if out.extend_from_slice(part).is_err() {
            out.truncate(start);
            return Err(NoMemory);
        }
    }
    Ok(())
}
