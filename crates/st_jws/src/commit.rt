ghost use Rattle.std.specs.Prelude.{◌≡◌, ◌↔◌, IfOk, IsTrue};
ghost use Rattle.st_hash.specs.Hash.{IsCode};
ghost use Rattle.st_jws.specs.Jwk.{Meets, commitment_of, commitment_of_with, reveal_of, reveal_of_with};

use crate::jwk::Jwk;
use st_base::WantOfMemory;
use st_canon::write;
use st_hash::{Hash, SHA_256, hash_with, rehash};
use std::alloc::Global;

/// The reveal value of a key by the algorithm with this code: the hash of the canonical text of its
/// JSON.
pub fn reveal_with(alloc: Global, key: &Jwk, code: u8) -> Result<Hash, WantOfMemory>
    requires { IsCode code }
    ensures { IfOk result (λ hash. hash ≡ reveal_of_with code key.now) }
{
    let json = key.json(alloc)?;
    let text = write(alloc, &json)?;
    Ok(hash_with(text.as_slice(), code))
}

/// The commitment to a key by the algorithm with this code: the hash of the digest of its reveal
/// value.
pub fn commitment_with(alloc: Global, key: &Jwk, code: u8) -> Result<Hash, WantOfMemory>
    requires { IsCode code }
    ensures value { IfOk result (λ hash. hash ≡ commitment_of_with code key.now) }
    ensures meets { IfOk result (Meets (reveal_of_with code key.now)) }
{
    let revealed = reveal_with(alloc, key, code)?;
    Ok(rehash(&revealed))
}

/// The reveal value of a key with SHA-256.
pub fn reveal(alloc: Global, key: &Jwk) -> Result<Hash, WantOfMemory>
    ensures { IfOk result (λ hash. hash ≡ reveal_of key.now) }
{
    Ok(reveal_with(alloc, key, SHA_256)?)
}

/// The commitment to a key with SHA-256.
pub fn commitment(alloc: Global, key: &Jwk) -> Result<Hash, WantOfMemory>
    ensures value { IfOk result (λ hash. hash ≡ commitment_of key.now) }
    ensures meets { IfOk result (Meets (reveal_of key.now)) }
{
    Ok(commitment_with(alloc, key, SHA_256)?)
}

/// Whether the commitment is the hash of the reveal value's digest, with the algorithm of the
/// reveal value. It allocates nothing.
pub fn meets(reveal: &Hash, commitment: &Hash) -> bool
    ensures { IsTrue result ↔ Meets reveal.now commitment.now }
{
    rehash(reveal) == *commitment
}
