//! Reads images.
ghost use Rattle.std.specs.Prelude.{◌≡◌, ◌⊎◌, ◌↔◌, List, None, true, drop, IsTrue, IfOk, IfErr, IsOkUnless};
ghost use Rattle.std.specs.Result.{result_err};
ghost use Rattle.mica_words.specs.Item.{KeyFits, ValueFits};
ghost use Rattle.mica_trace.specs.TraceGrammar.{IsKey, IsValue};
ghost use Rattle.store_image.specs.ImageGrammar.{Pair, SpellsImage, header_fault, count_at, pair_at, after_pair, lengths_fault, pair_fault, first_fault, is_above};

use crate::image::{MAGIC, VERSION};
use crate::{Image, ImageFault};
use mica_trace::{is_key, is_value};
use mica_words::MAX_VALUE_LEN;
use std::alloc::Global;

// How many pairs follow, and the bytes after the header.
fn read_header(from: &[u8]) -> Result<(u32, &[u8]), ImageFault>
    ensures parts { IfOk result (λ x. (count_at from.now ≡ x.0) × (drop 9 from.now ≡ x.1.now)) }
    ensures fault { header_fault from.now ≡ result_err result }
{
    let [m0, m1, m2, m3, version, n0, n1, n2, n3, rest @ ..] = from else {
        return Err(ImageFault::Short);
    };
    if [*m0, *m1, *m2, *m3] != MAGIC {
        return Err(ImageFault::Magic);
    }
    if *version != VERSION {
        return Err(ImageFault::Version);
    }
    Ok((u32::from_le_bytes([*n0, *n1, *n2, *n3]), rest))
}

fn follows(last: &[u8], key: &[u8]) -> bool
    ensures { result ≡ is_above last.now key.now }
{
    last.cmp(&key).is_lt()
}

fn are_texts(key: &[u8], value: &[u8]) -> bool
    ensures { IsTrue result ↔ (IsKey key.now × IsValue value.now) }
{
    is_key(key) && is_value(value)
}

// The key and the value of the pair at the front, by their lengths, and the bytes after it.
fn split_pair(from: &[u8]) -> Result<(&[u8], &[u8], &[u8]), ImageFault>
    ensures parts { IfOk result (λ x. (pair_at from.now ≡ record { key = x.0.now; value = x.1.now }) × (after_pair from.now ≡ x.2.now)) }
    ensures fit { IfOk result (λ x. KeyFits x.0.now × ValueFits x.1.now) }
    ensures fault { lengths_fault from.now ≡ result_err result }
{
    let [key_len, v0, v1, texts @ ..] = from else {
        return Err(ImageFault::Short);
    };
    let key_len = usize::from(*key_len);
    let value_len = usize::from(u16::from_le_bytes([*v0, *v1]));
    if key_len == 0 || value_len > MAX_VALUE_LEN {
        return Err(ImageFault::Length);
    }
    if texts.len() < key_len + value_len {
        return Err(ImageFault::Short);
    }
    let (key, after_key) = texts.split_at(key_len);
    let (value, rest) = after_key.split_at(value_len);
    Ok((key, value, rest))
}

// The key and the value of the pair at the front, and the bytes after it, where the lengths have no fault.
pub(crate) fn first_pair(from: &[u8]) -> (&[u8], &[u8], &[u8])
    requires { lengths_fault from.now ≡ None }
    ensures parts { (pair_at from.now ≡ record { key = result.0.now; value = result.1.now }) × (after_pair from.now ≡ result.2.now) }
{
    let Ok(parts) = split_pair(from) else {
        unreachable!();
    };
    parts
}

// The key of the pair at the front, which follows this one, and the bytes after the pair.
fn read_pair<'a>(last: &[u8], from: &'a [u8]) -> Result<(&'a [u8], &'a [u8]), ImageFault>
    ensures parts { IfOk result (λ x. ((pair_at from.now).key ≡ x.0.now) × (after_pair from.now ≡ x.1.now)) }
    ensures fault { pair_fault last.now from.now ≡ result_err result }
{
    let (key, value, rest) = split_pair(from)?;
    if !are_texts(key, value) {
        return Err(ImageFault::Text);
    }
    if !follows(last, key) {
        return Err(ImageFault::Order);
    }
    Ok((key, rest))
}

// How many pairs the bytes have, and their texts, where the bytes have no fault.
#[tactic(auto, unfolding(crate::specs::ImageGrammar::first_fault))]
fn read_texts(from: &[u8]) -> Result<(u32, &[u8]), ImageFault>
    ensures parts { IfOk result (λ x. (count_at from.now ≡ x.0) × (drop 9 from.now ≡ x.1.now)) }
    ensures fault { first_fault from.now ≡ result_err result }
{
    let (count, texts) = read_header(from)?;
    let mut last = b"".as_slice();
    let mut rest = texts;
    for _ in 0..count {
        let (key, after) = read_pair(last, rest)?;
        last = key;
        rest = after;
    }
    if !rest.is_empty() {
        return Err(ImageFault::Trailing);
    }
    Ok((count, texts))
}

/// The image whose text the bytes are. It takes memory for their copy alone, whatever they say.
pub fn read_image(alloc: Global, from: &[u8]) -> Result<Image, ImageFault>
    ensures image { IfOk result (SpellsImage from.now) }
    ensures fault { IfErr result (λ fault. fault ≡ ImageFault.NoMemory ⊎ first_fault from.now ≡ Some fault) }
    // The text of an image is read, unless memory runs out.
    ensures only { (pairs : List Pair) → SpellsImage from.now pairs → IsOkUnless result ImageFault.NoMemory }
{
    let (count, texts) = read_texts(from)?;
    Ok(Image::of(count, Vec::from_slice(alloc, texts)?))
}
