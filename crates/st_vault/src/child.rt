ghost use Rattle.std.specs.Prelude.{◌≡◌};
ghost use Rattle.st_lms.specs.Tree.{IsSecretKey};
ghost use Rattle.st_lms.specs.Strings.{u16str};
ghost use Rattle.st_vault.specs.Image.{child_hash, child_of};

use crate::layout::{copied, u32str};
use sha2::{Digest, Sha256};
use st_lms::Secret;

/// The LMS type of a child, whose tree has height 5.
const CHILD_TREE: u32 = 5;

// Separates the hashes of a child by purpose.
const D_CHILD_ID: u16 = 0xfff0;

const D_CHILD_SEED: u16 = 0xfff1;

/// A number as 2 bytes, big-endian.
#[tactic(auto, unfolding(st_lms::specs::Strings::u16str))]
fn u16str(n: u16) -> [u8; 2]
    ensures { result ≡ u16str n }
{
    n.to_be_bytes()
}

/// The hash of a key for its child `n`.
fn child_hash(secret: &Secret, n: u32, kind: u16) -> [u8; 32]
    ensures { result ≡ child_hash secret.now n kind }
{
    let mut hasher = Sha256::new();
    hasher.update(secret.id());
    hasher.update(u32str(n));
    hasher.update(u16str(kind));
    hasher.update(secret.seed());
    hasher.finalize()
}

/// Child `n` of a key.
pub(crate) fn child_of(secret: &Secret, n: u32) -> Secret
    ensures value { result ≡ child_of secret.now n }
    ensures known { IsSecretKey result }
{
    let id = child_hash(secret, n, D_CHILD_ID);
    let seed = child_hash(secret, n, D_CHILD_SEED);
    let child = Secret::new(secret.ots(), CHILD_TREE, copied(&id[..16]), seed).unwrap();
    know_key(&child);
    child
}

/// A key value satisfies the rules of a key.
fn know_key(secret: &Secret)
    ensures { IsSecretKey secret.now }
{
    secret.tree();
}
