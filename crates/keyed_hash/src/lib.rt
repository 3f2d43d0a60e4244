//! The hash of a key under a secret, SipHash-1-3: who does not know the secret can't choose keys whose hashes meet.
//!
//! It takes no memory, divides nothing, and takes a key's bytes eight at a time. What it computes is what the library's
//! `DefaultHasher` computes once the secret begins it; that writes a key byte by byte, and begins with zeros.
#![tactic(auto)]

mod keyed;
mod laws;
mod mixed;
mod secret;

pub use keyed::keyed_hash;
pub use laws::published_vectors;
pub use secret::Secret;
