//! Hashes and their texts: SHA-256 and SHA-512 (FIPS 180-4) as multihashes, and base64url without
//! padding (RFC 4648, section 5), each read only in the spelling in which it is written.
#![tactic(auto)]

mod base64url;
mod hash;
mod hashing;
mod text;

pub use base64url::{DecRefused, dec, enc, read_fixed};
pub use hash::{Hash, SHA_256, SHA_512};
pub use hashing::{hash_with, hash256, rehash, sha256, uri_of};
pub use text::{BadHash, hash_text, read_hash, read_hash_at};
