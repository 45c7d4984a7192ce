//! The SHA-256 digest of a run of bytes of a file, which is read through one buffer of a pool.
#![tactic(auto)]

mod digests;

pub use digests::{DigestFault, digest_of};
