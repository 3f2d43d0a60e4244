//! Images as writes.
ghost use Rattle.std.specs.Prelude.{◌≡◌, All, IfOk};
ghost use Rattle.partition_model.specs.Write.{IsWrite};
ghost use Rattle.store_image.specs.ImageWrites.{put_write, put_writes};

use crate::Image;
use crate::reading::first_pair;
use outside::{Bytes, NoMemory};
use partition_model::{Op, Write};
use std::alloc::Global;

fn put_of(alloc: Global, key: &[u8], value: &[u8]) -> Result<Write, NoMemory>
    ensures { IfOk result (λ write. write ≡ put_write (record { key = key.now; value = value.now })) }
{
    Ok(Write {
        op: Op::Put,
        key: Bytes::copy(alloc, key)?,
        value: Bytes::copy(alloc, value)?,
    })
}

/// A write for each pair, which puts it, in the order of the keys.
pub fn writes_of(alloc: Global, image: &Image) -> Result<Vec<Write>, NoMemory>
    ensures puts { IfOk result (λ writes. writes.items ≡ put_writes image.now) }
    ensures are_writes { IfOk result (λ writes. All IsWrite writes.items) }
{
    let mut writes = Vec::with_capacity(alloc, image.len() as usize)?;
    let mut rest = image.texts();
    for _ in 0..image.len() {
        let (key, value, after) = first_pair(rest);
        writes.push(put_of(alloc, key, value)?)?;
        rest = after;
    }
    Ok(writes)
}
