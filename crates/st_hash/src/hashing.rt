ghost use Rattle.std.specs.Prelude.{◌≡◌};
ghost use Rattle.sha2.specs.Sha256.{sha256};
ghost use Rattle.st_hash.specs.Hash.{IsCode, IsHash, hash_of, hash_of_with};

use crate::hash::{Hash, SHA_512};
use sha2::{Digest, Sha256, Sha512};

/// The SHA-256 digest of the bytes.
pub fn sha256(bytes: &[u8]) -> [u8; 32]
    ensures { result ≡ sha256 bytes.now }
{
    Sha256::digest(bytes)
}

/// The SHA-256 of the bytes.
pub fn hash256(bytes: &[u8]) -> Hash
    ensures value { result ≡ hash_of bytes.now }
    ensures is { IsHash result }
{
    Hash::of_sha256(sha256(bytes))
}

/// The hash of the bytes by the algorithm with this code.
pub fn hash_with(bytes: &[u8], code: u8) -> Hash
    requires { IsCode code }
    ensures value { result ≡ hash_of_with code bytes.now }
    ensures is { IsHash result }
{
    if code == SHA_512 {
        Hash::of_sha512(Sha512::digest(bytes))
    } else {
        Hash::of_sha256(sha256(bytes))
    }
}

/// The name of a file: the SHA-256 of its bytes.
pub fn uri_of(bytes: &[u8]) -> Hash
    ensures value { result ≡ hash_of bytes.now }
    ensures is { IsHash result }
{
    hash256(bytes)
}

/// The hash of the digest's bytes, with the same algorithm.
pub fn rehash(hash: &Hash) -> Hash
    ensures value { result ≡ hash_of_with hash.now.code hash.now.digest }
    ensures is { IsHash result }
{
    hash_with(hash.digest(), hash.code())
}
