ghost use Rattle.std.specs.Prelude.{◌≡◌, length, refl};
ghost use Rattle.std.specs.Ordering.{as_partial_cmp};
ghost use Rattle.st_hash.specs.Hash.{IsCode, IsHash, hash_cmp, same_hash, digest_length, sha256_digest, fed, same_hash-equivalence, same_hash-fed, hash_cmp-total, same_hash-ties, hash_cmp-partial};

use st_base::{Copied, WantOfMemory};
use std::alloc::Global;
use std::cmp::Ordering;
use std::hash::Hasher;
use std::marker::Model;

/// The multihash code of SHA-256, whose digests have 32 bytes.
pub const SHA_256: u8 = 0x12;

/// The multihash code of SHA-512, whose digests have 64 bytes.
pub const SHA_512: u8 = 0x13;

/// A digest and the multihash code of its algorithm, which is SHA-256 or SHA-512.
#[derive(Clone, Copy, Debug)]
pub struct Hash {
    digest: Digest,
}

#[derive(Clone, Copy, Debug)]
enum Digest {
    Sha256([u8; 32]),
    Sha512([u8; 64]),
}

impl Model for Hash {
    ghost use Rattle.std.specs.Prelude.{◌≡◌};
    ghost use Rattle.std.proofs.Common.{ap};
    ghost use Rattle.st_hash.specs.Hash.{HashValue, IsHash, hash_in, digest_in, digest_in-hash_in};

    ghost Value = { HashValue };

    ghost view = { λ h. hash_in h.digest };

    ghost invariant = { λ h. IsHash (hash_in h.digest) };

    ghost inverse = { λ v. record { digest = digest_in v } };

    ghost inverse_ok = { λ h is. ap (λ d. record { digest = d }) (digest_in-hash_in h.digest) };
}

impl Hash {
    /// The SHA-256 hash with this digest.
    pub fn of_sha256(digest: [u8; 32]) -> Hash
        ensures value { result ≡ record { code = 18; digest = digest } }
        ensures is { IsHash result }
    {
        Hash {
            digest: Digest::Sha256(digest),
        }
    }

    pub(crate) fn of_sha512(digest: [u8; 64]) -> Hash
        ensures value { result ≡ record { code = 19; digest = digest } }
        ensures is { IsHash result }
    {
        Hash {
            digest: Digest::Sha512(digest),
        }
    }

    /// The multihash code of the algorithm.
    pub fn code(&self) -> u8
        ensures value { result ≡ self.now.code }
        ensures known { IsCode result }
        ensures is { IsHash self.now }
    {
        match &self.digest {
            Digest::Sha256(_) => SHA_256,
            Digest::Sha512(_) => SHA_512,
        }
    }

    /// The digest of a SHA-256 hash; `None` if and only if the algorithm is another.
    pub fn sha256_digest(&self) -> Option<[u8; 32]>
        ensures { result ≡ sha256_digest self.now }
    {
        match &self.digest {
            Digest::Sha256(digest) => Some(*digest),
            Digest::Sha512(_) => None,
        }
    }

    /// The bytes of the digest.
    pub fn digest(&self) -> &[u8]
        ensures value { result.now ≡ self.now.digest }
        ensures long { length result.now ≡ digest_length self.now.code }
        ensures is { IsHash self.now }
    {
        match &self.digest {
            Digest::Sha256(digest) => digest.as_slice(),
            Digest::Sha512(digest) => digest.as_slice(),
        }
    }
}

impl PartialEq for Hash {
    ghost use Rattle.std.specs.Cmp.{partial_equiv_from_equiv};

    ghost eq = { same_hash };

    ghost laws = { partial_equiv_from_equiv same_hash-equivalence };

    fn eq(&self, other: &Hash) -> bool {
        self.code() == other.code() && self.digest() == other.digest()
    }
}

impl Eq for Hash {
    ghost laws = { same_hash-equivalence };
}

impl PartialOrd for Hash {
    ghost partial_cmp = { as_partial_cmp hash_cmp };

    ghost laws = { hash_cmp-partial };

    fn partial_cmp(&self, other: &Hash) -> Option<Ordering> {
        Some(self.cmp(other))
    }
}

impl Ord for Hash {
    ghost cmp = { hash_cmp };

    ghost total = { hash_cmp-total };

    ghost matches_partial_cmp = { λ first second. refl };

    ghost matches_eq = { same_hash-ties };

    fn cmp(&self, other: &Hash) -> Ordering {
        let codes = self.code().cmp(&other.code());
        let digests = self.digest().cmp(other.digest());
        codes.then(digests)
    }
}

impl std::hash::Hash for Hash {
    ghost hash_input = { fed };

    ghost respects_eq = { same_hash-fed };

    fn hash<H: Hasher>(&self, state: &mut H) {
        state.write(self.digest());
    }
}

impl Copied for Hash {
    fn copy(&self, _alloc: Global) -> Result<Hash, WantOfMemory> {
        Ok(*self)
    }
}
