//! The hash of a key, FNV-1a of 64 bits, and what its parts choose: its lower bits a bucket, bits 32 to 47 a tag, its
//! upper 16 bits a partition.

ghost use Rattle.std.specs.Prelude.{◌≡◌, ◌≤◌};
ghost use Rattle.mica_words.specs.Hash.{fnv1a, hash_partition, hash_bucket, hash_tag};

/// FNV-1a's hash of nothing.
const OFFSET_BASIS: u64 = 14695981039346656037;

/// FNV-1a's multiplier.
const PRIME: u64 = 1099511628211;

/// The hash of a key, by FNV-1a.
#[tactic(auto, unfolding(crate::specs::Hash::fnv1a))]
pub fn key_hash(key: &[u8]) -> u64
    ensures { result ≡ fnv1a key.now }
{
    let mut hash = OFFSET_BASIS;
    for byte in key {
        hash = (hash ^ u64::from(*byte)).wrapping_mul(PRIME);
    }
    hash
}

/// The tag of a key with this hash: never 0, so that an entry never is.
pub fn tag_of(hash: u64) -> u16
    ensures { result ≡ hash_tag hash }
{
    let bits = (hash >> 32 & 0xffff) as u16;
    if bits == 0 { 1 } else { bits }
}

/// The partition of a key with this hash, among this many.
pub fn partition_of(hash: u64, partitions: u32) -> u32
    requires { 1 ≤ partitions }
    ensures { result ≡ hash_partition hash partitions }
{
    (hash >> 48) as u32 % partitions
}

/// The bucket of a key with this hash, among this many. A mask finds it where their number is a power of two, as it
/// is in every table; a division takes longer.
#[tactic(auto, using(crate::proofs::Buckets::mask_is_remainder))]
pub fn bucket_of(hash: u64, buckets: u32) -> u32
    requires { 1 ≤ buckets }
    ensures { result ≡ hash_bucket hash buckets }
{
    if buckets.is_power_of_two() {
        (hash & u64::from(buckets - 1)) as u32
    } else {
        (hash % u64::from(buckets)) as u32
    }
}
