//! The image that a trace leaves.
ghost use Rattle.std.specs.Prelude.{◌≡◌, ◌<◌, ◌^◌, ℕ, List, [], Some, None, IfOk, length, map, if◌then◌else◌};
ghost use Rattle.std.specs.List.{AllByRecursion};
ghost use Rattle.std.specs.List.Sorted.{IsStrictlySortedBy};
ghost use Rattle.std.specs.Ordering.{nat_cmp};
ghost use Rattle.std.specs.Cmp.Lexicographic.{slice_cmp};
ghost use Rattle.mica_words.specs.Item.{KeyFits};
ghost use Rattle.partition_model.specs.declared.options.Mode.{Mode};
ghost use Rattle.partition_model.specs.Options.{IsValid};
ghost use Rattle.mica_trace.specs.TraceGrammar.{IsKey, IsValue, IsWithinLimits};
ghost use Rattle.line_replies.specs.Answered.{AreAnswered};
ghost use Rattle.store_image.specs.ImageGrammar.{IsImage};
ghost use Rattle.store_image.specs.PutKeys.{gives_value as op_gives_value, put_keys, has_key, pairs_by};
ghost use Rattle.store_image.specs.Answers.{answer_in, value_at};
ghost use Rattle.store_image.specs.ImageOf.{IsImaged};

use crate::Image;
use crate::writing::put_pair;
use line_replies::reply_to_all;
use mica_trace::{Report, Trace, TraceLine, TraceOp};
use mica_words::partition_of;
use outside::NoMemory;
use partition_model::{Answer, ItemBuf, Options};
use partition_words::{Partition, PlainWords, Shape};
use std::alloc::Global;
use store_partition::StorePartition;

/// What a trace leaves: its report, and the image of the store after it.
#[derive(Drop)]
pub struct Imaged {
    pub report: Report,
    pub image: Image,
}

// A partition for each number, with nothing in it.
fn make_parts(alloc: Global, options: &Options) -> Result<Vec<StorePartition<PlainWords>>, NoMemory>
    requires valid { IsValid options.now }
    requires mode { options.now.mode ≡ Mode.Store }
    ensures { IfOk result (λ parts. AreAnswered options.now [] [] (map (λ p. ⟦<StorePartition<PlainWords> as Partition>⟧.owner p) parts.items)) }
{
    let mut parts = Vec::with_capacity(alloc, options.partitions as usize)?;
    for _ in 0..options.partitions {
        let words = PlainWords::new(alloc, &Shape::of(options), 0)?;
        parts.push(StorePartition::new(alloc, words)?)?;
    }
    Ok(parts)
}

// Whether the operation gives its key a value.
fn gives_value(op: TraceOp) -> bool
    ensures { result ≡ op_gives_value op }
{
    matches!(op, TraceOp::Put | TraceOp::Add)
}

// The keys to which the lines give values, rising, each once.
fn keys_of<'a>(alloc: Global, lines: &'a [TraceLine]) -> Result<Vec<&'a [u8]>, NoMemory>
    requires { IsWithinLimits lines.now }
    ensures rise { IfOk result (λ keys. IsStrictlySortedBy (slice_cmp nat_cmp) (map (λ key. key.now) keys.items)) }
    ensures all { IfOk result (λ keys. (key : List ℕ) → has_key (map (λ k. k.now) keys.items) key ≡ has_key (put_keys lines.now) key) }
    ensures few { IfOk result (λ keys. length keys.items < 2 ^ 32) }
{
    let mut keys = Vec::new(alloc);
    for line in lines {
        if gives_value(line.op) {
            keys.push(line.key.bytes())?;
        }
    }
    keys.sort()?;
    keys.dedup();
    Ok(keys)
}

// Whether the key has a value in its partition, which is then in the buffer.
fn finds<P: Partition>(part: &mut P, key: &[u8], value: &mut ItemBuf) -> bool
    requires { KeyFits key.now }
    ensures answer { answer_in key.now (P.owner part.old) ≡ (if result then Some value.new else None) }
    ensures same { P.owner part.new ≡ P.owner part.old }
{
    matches!(part.get(key, value), Answer::Hit)
}

// The image of the pairs of these keys, by what their partitions answer.
fn image_of_keys<P: Partition>(
    alloc: Global,
    options: &Options,
    keys: &[&[u8]],
    parts: &mut Vec<P>,
) -> Result<Image, NoMemory>
    requires valid { IsValid options.now }
    requires many { length parts.old.items ≡ options.now.partitions }
    requires keys { AllByRecursion IsKey (map (λ key. key.now) keys.now) }
    requires values { (key value : List ℕ) → value_at (map (λ p. P.owner p) parts.old.items) options.now.hashing options.now.partitions key ≡ Some value → IsValue value }
    requires image { IsImage (pairs_by (value_at (map (λ p. P.owner p) parts.old.items) options.now.hashing options.now.partitions) (map (λ key. key.now) keys.now)) }
    ensures { IfOk result (λ image. image ≡ pairs_by (value_at (map (λ p. P.owner p) parts.old.items) options.now.hashing options.now.partitions) (map (λ key. key.now) keys.now)) }
{
    let mut count = 0;
    let mut texts = Vec::new(alloc);
    let mut value = ItemBuf::new(alloc)?;
    for key in keys {
        let partition = partition_of(options.hashing.key_hash(key), options.partitions);
        let part = &mut parts[partition as usize];
        if finds(part, key, &mut value) {
            put_pair(&mut texts, key, value.value())?;
            count += 1;
        }
    }
    Ok(Image::of(count, texts))
}

/// Runs a trace in store mode on one thread, each line answered before the next one, and gives its exact report with the
/// pairs that it leaves.
pub fn image_of(alloc: Global, options: &Options, trace: &Trace) -> Result<Imaged, NoMemory>
    requires valid { IsValid options.now }
    requires mode { options.now.mode ≡ Mode.Store }
    ensures { IfOk result (IsImaged options.now trace.now) }
{
    let mut parts = make_parts(alloc, options)?;
    let report = reply_to_all(alloc, options, trace, &mut parts)?;
    let lines = trace.lines();
    let keys = keys_of(alloc, lines)?;
    let image = image_of_keys(alloc, options, keys.as_slice(), &mut parts)?;
    Ok(Imaged { report, image })
}
