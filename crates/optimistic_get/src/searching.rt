//! The entries of a chain, by loads in an open try.
ghost use Rattle.std.specs.Prelude.{◌≡◌, ℕ, ◌<◌, ◌≤◌, ◌^◌, true, is_some, Some, None, IfSome, MatchBool};
ghost use Rattle.mica_words.specs.declared.entry.TheConstants.{SLOTS};
ghost use Rattle.mica_words.specs.Entry.{entry_tag};
ghost use Rattle.mica_words.specs.Hash.{hash_of};
ghost use Rattle.partition_words.specs.Shape.{IsMain, IsBucket};
ghost use Rattle.partition_model.specs.declared.options.Mode.TheVariants as mode;
ghost use Rattle.optimistic_get.specs.Search.{Weighs, Scans, ScansFirst, Searches};

use crate::looking::look;
use crate::wanted::Wanted;
use mica_words::{SLOTS, entry_offset, entry_tag};
use partition_model::{ItemBuf, Mode};
use partition_words::ReaderWords;

// Whether an item at the offset begins later than the best one.
fn is_later(best: Option<u64>, offset: u64) -> bool
    ensures { MatchBool result ((p : ℕ) → best ≡ Some p → p ≤ offset)
        ((p : ℕ) × (best ≡ Some p) × (offset ≤ p)) }
{
    match best {
        Some(p) => p < offset,
        None => true,
    }
}

// The offset of the best item of the key, after one entry more that has its tag.
fn weigh_tagged<R: ReaderWords>(
    seat: &mut R,
    entry: u64,
    wanted: &Wanted<'_>,
    best: Option<u64>,
    out: &mut ItemBuf,
) -> Option<u64>
    requires open { is_some (R.reader seat.old).current ≡ true }
    requires low { IfSome best (λ p. p < 2 ^ 48) }
    requires tagged { entry_tag entry ≡ wanted.now.tag }
    requires hashed { wanted.now.hash ≡ hash_of (R.reader seat.old).shape.hashing wanted.now.key.now }
    ensures weighs { Weighs (R.reader seat.old) entry wanted.now.key.now best out.old result out.new
        (R.reader seat.new) }
    ensures low { IfSome result (λ p. p < 2 ^ 48) }
    ensures home { R.home seat.new ≡ R.home seat.old }
    ensures plan { R.plan seat.new ≡ R.plan seat.old }
{
    let offset = entry_offset(entry);
    if !is_later(best, offset) {
        return best;
    }
    if look(seat, offset, wanted, out) {
        Some(offset)
    } else {
        best
    }
}

// The offset of the best item of the key, after one entry more. Most entries have another tag: for these it makes no call.
#[inline(always)]
fn weigh<R: ReaderWords>(
    seat: &mut R,
    entry: u64,
    wanted: &Wanted<'_>,
    best: Option<u64>,
    out: &mut ItemBuf,
) -> Option<u64>
    requires open { is_some (R.reader seat.old).current ≡ true }
    requires low { IfSome best (λ p. p < 2 ^ 48) }
    requires hashed { wanted.now.hash ≡ hash_of (R.reader seat.old).shape.hashing wanted.now.key.now }
    ensures weighs { Weighs (R.reader seat.old) entry wanted.now.key.now best out.old result out.new
        (R.reader seat.new) }
    ensures low { IfSome result (λ p. p < 2 ^ 48) }
    ensures home { R.home seat.new ≡ R.home seat.old }
    ensures plan { R.plan seat.new ≡ R.plan seat.old }
{
    if entry_tag(entry) == wanted.tag {
        weigh_tagged(seat, entry, wanted, best, out)
    } else {
        best
    }
}

// The offset of the key's item in the bucket that begins last.
fn last_in<R: ReaderWords>(
    seat: &mut R,
    bucket: u32,
    wanted: &Wanted<'_>,
    out: &mut ItemBuf,
) -> Option<u64>
    requires open { is_some (R.reader seat.old).current ≡ true }
    requires bucket { IsBucket (R.reader seat.old).shape bucket }
    requires hashed { wanted.now.hash ≡ hash_of (R.reader seat.old).shape.hashing wanted.now.key.now }
    ensures low { IfSome result (λ p. p < 2 ^ 48) }
    ensures scans { Scans (R.reader seat.old) bucket SLOTS wanted.now.key.now None out.old result out.new
        (R.reader seat.new) }
    ensures home { R.home seat.new ≡ R.home seat.old }
    ensures plan { R.plan seat.new ≡ R.plan seat.old }
{
    let mut best = None;
    for slot in 0..SLOTS {
        let entry = seat.entry(bucket, slot);
        best = weigh(seat, entry, wanted, best, out);
    }
    best
}

// The offset of the key's item in a bucket of a dense chain: no entry stands behind an empty slot, and no key has two.
fn first_in<R: ReaderWords>(
    seat: &mut R,
    bucket: u32,
    wanted: &Wanted<'_>,
    out: &mut ItemBuf,
) -> Option<u64>
    requires open { is_some (R.reader seat.old).current ≡ true }
    requires store { (R.reader seat.old).shape.mode ≡ mode.Store }
    requires bucket { IsBucket (R.reader seat.old).shape bucket }
    requires hashed { wanted.now.hash ≡ hash_of (R.reader seat.old).shape.hashing wanted.now.key.now }
    ensures low { IfSome result (λ p. p < 2 ^ 48) }
    ensures scans { ScansFirst (R.reader seat.old) bucket wanted.now.key.now result out.new (R.reader seat.new) }
    ensures home { R.home seat.new ≡ R.home seat.old }
    ensures plan { R.plan seat.new ≡ R.plan seat.old }
{
    for slot in 0..SLOTS {
        let entry = seat.entry(bucket, slot);
        if entry == 0 {
            return None;
        }
        let found = weigh(seat, entry, wanted, None, out);
        if found.is_some() {
            return found;
        }
    }
    None
}

// The offset of the key's item, in store mode, where no key has two.
fn search_chain<R: ReaderWords>(
    seat: &mut R,
    bucket: u32,
    spares: u32,
    wanted: &Wanted<'_>,
    out: &mut ItemBuf,
) -> Option<u64>
    requires open { is_some (R.reader seat.old).current ≡ true }
    requires store { (R.reader seat.old).shape.mode ≡ mode.Store }
    requires spares { spares ≡ (R.reader seat.old).shape.spares }
    requires bucket { IsMain (R.reader seat.old).shape bucket }
    requires hashed { wanted.now.hash ≡ hash_of (R.reader seat.old).shape.hashing wanted.now.key.now }
    ensures searches { Searches (R.reader seat.old) bucket wanted.now.key.now result out.new (R.reader seat.new) }
    ensures low { IfSome result (λ p. p < 2 ^ 48) }
    ensures home { R.home seat.new ≡ R.home seat.old }
    ensures plan { R.plan seat.new ≡ R.plan seat.old }
{
    let mut found = first_in(seat, bucket, wanted, out);
    let mut at = bucket;
    for _link in 0..spares {
        if found.is_some() {
            return found;
        }
        let next = seat.link(at);
        if next == 0 {
            return None;
        }
        at = next;
        found = first_in(seat, at, wanted, out);
    }
    found
}

/// The offset of the key's item, of several in cache mode that of the one that begins last. Its value is in the buffer.
pub(crate) fn search<R: ReaderWords>(
    seat: &mut R,
    bucket: u32,
    wanted: &Wanted<'_>,
    out: &mut ItemBuf,
) -> Option<u64>
    requires open { is_some (R.reader seat.old).current ≡ true }
    requires bucket { IsMain (R.reader seat.old).shape bucket }
    requires hashed { wanted.now.hash ≡ hash_of (R.reader seat.old).shape.hashing wanted.now.key.now }
    ensures searches { Searches (R.reader seat.old) bucket wanted.now.key.now result out.new (R.reader seat.new) }
    ensures low { IfSome result (λ p. p < 2 ^ 48) }
    ensures home { R.home seat.new ≡ R.home seat.old }
    ensures plan { R.plan seat.new ≡ R.plan seat.old }
{
    let shape = seat.shape();
    match shape.mode {
        Mode::Cache => last_in(seat, bucket, wanted, out),
        Mode::Store => search_chain(seat, bucket, shape.spares, wanted, out),
    }
}
