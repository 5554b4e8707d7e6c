ghost use Rattle.std.specs.Prelude.{◌≡◌, ◌<◌, IfOk};
ghost use Rattle.st_lms.specs.Signature.{IsSignature, public_of, signature_of};
ghost use Rattle.st_vault.specs.Image.{count_of};

use st_base::{Bytes, WantOfMemory};
use st_lms::{Public, Secret, Signer, sign_at};
use std::alloc::Global;
use std::marker::Model;

/// A counter of a vault, spent on its disk: the right to sign one message with the one-time key of
/// that number. Only `Vault::reserve` makes one, and it can't be copied.
#[derive(Drop)]
pub struct Counter {
    secret: Secret,
    number: u32,
}

impl Model for Counter {
    ghost use Rattle.std.specs.Prelude.{◌<◌};
    ghost use Rattle.st_vault.specs.Image.{CounterValue, count_of};

    ghost Value = { CounterValue };

    ghost view = { λ c. record { key = c.secret; number = c.number } };

    ghost invariant = { λ c. c.number < count_of c.secret };
}

impl Counter {
    /// The counter of this key with this number, which the caller has spent.
    pub(crate) fn new(secret: Secret, number: u32) -> Counter
        requires { number < count_of secret }
        ensures { result ≡ record { key = secret; number = number } }
    {
        Counter { secret, number }
    }

    /// Its number, from 0 on: below 32 or 1,024, by the vault's key.
    pub fn number(&self) -> u32
        ensures value { result ≡ self.now.number }
        ensures known { self.now.number < count_of self.now.key }
    {
        self.number
    }

    /// The signature of a message by the one-time key of this number (RFC 8554, section 5.4.1). It
    /// computes nearly all leaves of the tree. If it runs out of memory, the counter is lost.
    pub fn sign(self, alloc: Global, message: &[u8]) -> Result<Bytes, WantOfMemory>
        ensures value { IfOk result (λ signature. signature ≡ signature_of self.key self.number message.now) }
        ensures verifies { IfOk result (IsSignature (public_of self.key) message.now) }
    {
        sign_at(alloc, &self.secret, self.number, message)
    }

    /// The same signature, with a signer of the vault's key: it computes this key's chains and no
    /// leaf of the tree. If it runs out of memory, the counter is lost.
    pub fn sign_with(
        self,
        alloc: Global,
        signer: &VaultSigner,
        message: &[u8],
    ) -> Result<Bytes, WantOfMemory>
        requires { signer.now ≡ self.key }
        ensures value { IfOk result (λ signature. signature ≡ signature_of self.key self.number message.now) }
        ensures verifies { IfOk result (IsSignature (public_of self.key) message.now) }
    {
        signer.key.sign(alloc, self.number, message)
    }
}

/// A vault's key with all the nodes of its tree, which take 2,016 or 65,504 bytes. It signs only
/// with a counter, by `Counter::sign_with`. Contracts see the key.
#[derive(Drop)]
pub struct VaultSigner {
    key: Signer,
}

impl Model for VaultSigner {
    ghost use Rattle.st_lms.specs.Tree.{SecretKey};

    ghost Value = { SecretKey };

    ghost view = { λ s. s.key };
}

impl VaultSigner {
    /// The signer of a vault with this key. It computes all leaves of the tree, and fails if there
    /// is no memory for the nodes.
    pub fn new(alloc: Global, secret: &Secret) -> Result<VaultSigner, WantOfMemory>
        ensures { IfOk result (λ signer. signer ≡ secret.now) }
    {
        let key = Signer::new(alloc, secret)?;
        Ok(VaultSigner { key })
    }

    /// The public key, without computing a node.
    pub fn public(&self) -> Public
        ensures { result ≡ public_of self.now }
    {
        self.key.public()
    }
}
