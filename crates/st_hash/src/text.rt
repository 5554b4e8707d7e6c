ghost use Rattle.std.specs.Prelude.{◌≡◌, ◌≢◌, ℕ, ◌+◌, ◌≤◌, ◌<◌, ◌∷◌, length, IfOk, IfErr, IfSome, option_map};
ghost use Rattle.std.specs.Result.{result_ok};
ghost use Rattle.st_hash.specs.Hash.{HashValue, IsHash, IsOfVersion, digest_length, hash_text, hash_of_text, hash_of_text_at, hash_of_text_with, text_length};

use crate::base64url::{enc, read_fixed};
use crate::hash::{Hash, SHA_256, SHA_512};
use st_base::{Text, WantOfMemory};
use std::alloc::Global;
use thiserror::Error;

// The length of the longest multihash, which is that of SHA-512.
const LONGEST_MULTIHASH: usize = 66;

/// The text is not the hash text of any hash.
#[derive(Clone, Copy, Debug, PartialEq, Eq, Error)]
#[error("not a hash text")]
pub struct BadHash;

/// The hash text: the base64url of the multihash, which is the code, the digest's length and the
/// digest. It has 46 characters, or 88 for SHA-512.
pub fn hash_text(alloc: Global, hash: &Hash) -> Result<Text, WantOfMemory>
    ensures value { IfOk result (λ text. text ≡ hash_text hash.now) }
    ensures characters { IfOk result (λ text. length text ≡ text_length hash.now.code) }
    // Each version that has this hash reads the text again.
    ensures read { IfOk result (λ text. (version : ℕ) → IsOfVersion version hash.now
        → hash_of_text_at version text ≡ Some hash.now) }
    // So does `read_hash`, if the hash is of SHA-256.
    ensures uri { IfOk result (λ text. hash.now.code ≡ 18 → hash_of_text text ≡ Some hash.now) }
{
    let digest = hash.digest();
    let length = 2 + digest.len();
    let mut bytes = [0u8; LONGEST_MULTIHASH];
    put_multihash(hash.code(), digest, &mut bytes[..length]);
    Ok(enc(alloc, &bytes[..length])?)
}

fn put_multihash(code: u8, digest: &[u8], into: &mut [u8])
    requires short { length digest.now < 256 }
    requires whole { length into.old ≡ 2 + length digest.now }
    ensures { into.new ≡ code ∷ length digest.now ∷ digest.now }
{
    into[0] = code;
    into[1] = digest.len() as u8;
    into[2..].copy_from_slice(digest);
}

/// The SHA-256 hash with this text, as in URIs. It allocates nothing.
///
/// The result is `BadHash` if and only if the text is not the hash text of a SHA-256 hash.
pub fn read_hash(text: &[u8]) -> Result<Hash, BadHash>
    ensures spelled { IfOk result (λ hash. text.now ≡ hash_text hash) }
    ensures no_spelling { IfErr result (λ _. (hash : HashValue) → IsHash hash → hash.code ≡ 18
        → text.now ≢ hash_text hash) }
    ensures value { result_ok result ≡ hash_of_text text.now }
    ensures is { IfOk result IsHash }
{
    match read_sha256(text) {
        Some(hash) => Ok(hash),
        None => Err(BadHash),
    }
}

/// The hash of this version with this text: SHA-256 in version 1, either algorithm in version 2. It
/// allocates nothing.
///
/// The result is `BadHash` if and only if the text is not the hash text of a hash of that version.
pub fn read_hash_at(text: &[u8], version: u8) -> Result<Hash, BadHash>
    requires first { 1 ≤ version }
    requires last { version ≤ 2 }
    ensures spelled { IfOk result (λ hash. text.now ≡ hash_text hash) }
    ensures no_spelling { IfErr result (λ _. (hash : HashValue) → IsHash hash → IsOfVersion version hash
        → text.now ≢ hash_text hash) }
    ensures value { result_ok result ≡ hash_of_text_at version text.now }
    ensures is { IfOk result IsHash }
    ensures of_version { IfOk result (IsOfVersion version) }
{
    if let Some(hash) = read_sha256(text) {
        return Ok(hash);
    }
    if version == 1 {
        return Err(BadHash);
    }
    match read_sha512(text) {
        Some(hash) => Ok(hash),
        None => Err(BadHash),
    }
}

fn read_sha256(text: &[u8]) -> Option<Hash>
    ensures value { result ≡ hash_of_text_with 18 text.now }
    ensures is { IfSome result IsHash }
{
    match read_digest::<32, 34>(text, SHA_256) {
        Some(digest) => Some(Hash::of_sha256(digest)),
        None => None,
    }
}

fn read_sha512(text: &[u8]) -> Option<Hash>
    ensures value { result ≡ hash_of_text_with 19 text.now }
    ensures is { IfSome result IsHash }
{
    match read_digest::<64, 66>(text, SHA_512) {
        Some(digest) => Some(Hash::of_sha512(digest)),
        None => None,
    }
}

// The digest in the multihash with this text.
fn read_digest<const DIGEST: usize, const MULTIHASH: usize>(
    text: &[u8],
    code: u8,
) -> Option<[u8; DIGEST]>
    requires digest { DIGEST ≡ digest_length code }
    requires multihash { MULTIHASH ≡ 2 + DIGEST }
    ensures { option_map (λ digest. record { code = code; digest = digest }) result
        ≡ hash_of_text_with code text.now }
{
    let bytes: [u8; MULTIHASH] = match read_fixed(text) {
        Some(bytes) => bytes,
        None => return None,
    };
    if bytes[0] != code {
        return None;
    }
    if bytes[1] as usize != DIGEST {
        return None;
    }
    let whole = bytes.as_slice();
    let mut digest = [0u8; DIGEST];
    digest.copy_from_slice(&whole[2..]);
    Some(digest)
}
