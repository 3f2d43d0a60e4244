//! The line `check`, which stands between a trace and a report.
ghost use Rattle.std.specs.Prelude.{◌≤◌, length, option_map, IfSome};
ghost use Rattle.mica_cmd.specs.CheckParts.{HasParts};

use mica_trace::split_at_byte;

/// What stands before the first line that is exactly `check`, and what stands behind it, if there is one.
pub fn split_at_check(bytes: &[u8]) -> (&[u8], Option<&[u8]>)
    ensures parts { HasParts bytes.now result.0.now (option_map (λ after. after.now) result.1) }
    ensures shorter { IfSome result.1 (λ after. length after.now ≤ length bytes.now) }
{
    let mut start = 0;
    while start < bytes.len() {
        let rest = &bytes[start..];
        let Some((line, after)) = split_at_byte(rest, b'\n') else {
            if rest == b"check".as_slice() {
                return (&bytes[..start], Some(&bytes[bytes.len()..]));
            }
            return (bytes, None);
        };
        if line == b"check".as_slice() {
            return (&bytes[..start], Some(after));
        }
        start += line.len() + 1;
    }
    (bytes, None)
}
