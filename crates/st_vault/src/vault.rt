ghost use Rattle.std.specs.Prelude.{◌≡◌, ◌<◌, ◌≤◌, ◌+◌, [], ◌∷◌, IfOk, OnOk};
ghost use Rattle.st_io.specs.Past.{Follow, storage};
ghost use Rattle.st_io.specs.Histories.{Holds, Torn, Turns};
ghost use Rattle.st_lms.specs.Tree.{IsSecretKey};
ghost use Rattle.st_lms.specs.Signature.{public_of};
ghost use Rattle.st_vault.specs.Image.{child_of, count_of, left_of, vault_after, counter_of};
ghost use Rattle.st_vault.specs.Vault.{ReadsAs, NoneTwice};

use crate::child::child_of;
use crate::counter::{Counter, VaultSigner};
use crate::layout::{MAP_AT, SPENT};
use st_base::WantOfMemory;
use st_io::{Disk, Failed, write_synced};
use st_lms::{Public, Secret};
use std::alloc::Global;
use std::fmt;
use std::marker::Model;
use thiserror::Error;

/// A vault, read from a disk: an LMS secret key, and its next counter.
///
/// It is passed from call to call with its disk, which nobody else may write to in between.
#[derive(Drop)]
pub struct Vault {
    secret: Secret,
    next: u32,
}

impl Model for Vault {
    ghost use Rattle.std.specs.Prelude.{◌≤◌};
    ghost use Rattle.st_vault.specs.Image.{VaultValue, count_of};

    ghost Value = { VaultValue };

    ghost view = { λ v. record { key = v.secret; next = v.next } };

    ghost invariant = { λ v. v.next ≤ count_of v.secret };
}

impl fmt::Debug for Vault {
    // The seed is not printed.
    fn fmt<W: fmt::Write>(&self, f: &mut fmt::Formatter<W>) -> fmt::Result {
        write!(f, "Vault")
    }
}

impl Vault {
    ghost use Rattle.st_vault.specs.Vault.{HasSpent, MaySpend, ReserveGives};

    /// The vault of this key with this next counter.
    pub(crate) fn new(secret: Secret, next: u32) -> Vault
        requires { next ≤ count_of secret }
        ensures { result ≡ record { key = secret; next = next } }
    {
        Vault { secret, next }
    }

    /// How many counters can still be reserved: 2^h less the next counter, where h is the height of
    /// the key's tree, so at most 32 or 1,024.
    pub fn left(&self) -> u32
        ensures value { result ≡ left_of self.now }
        ensures known { self.now.next ≤ count_of self.now.key }
        ensures small { count_of self.now.key ≤ 1024 }
    {
        self.secret.leaf_count() - self.next
    }

    /// The public key that verifies the vault's signatures. It computes all leaves of the tree, so
    /// store the result, or a signer, for frequent use.
    pub fn public(&self) -> Public
        ensures { result ≡ public_of self.now.key }
    {
        self.secret.public()
    }

    /// The LMS type of the key's tree: 5, of height 5, or 6, of height 10 (RFC 8554, section 5.1).
    pub fn tree(&self) -> u32
        ensures value { result ≡ self.now.key.tree }
        ensures known { IsSecretKey self.now.key }
    {
        self.secret.tree()
    }

    /// The vault's key with the nodes of its tree, with which `Counter::sign_with` takes the time
    /// of one one-time key. It computes all of them, and fails if there is no memory for the nodes.
    pub fn signer(&self, alloc: Global) -> Result<VaultSigner, WantOfMemory>
        ensures { IfOk result (λ signer. signer ≡ self.now.key) }
    {
        VaultSigner::new(alloc, &self.secret)
    }

    /// Child `n` of the vault's key: a secret key with a tree of height 5 and with the same LM-OTS
    /// type, whose identifier and seed are hashes of the vault's key. It allocates nothing.
    pub fn child(&self, n: u32) -> Secret
        ensures value { result ≡ child_of self.now.key n }
        ensures known { IsSecretKey result }
    {
        child_of(&self.secret, n)
    }

    /// Spends the next counter on the disk, and then returns it, with the vault that has one less.
    ///
    /// The result is `Exhausted` if and only if no counter is left; it returns the vault, and the
    /// disk is unchanged. It is `DiskFault` only if the disk's count of faults rose: the vault is
    /// lost, the counter may be spent or not, and the disk must be opened again. It allocates
    /// nothing.
    pub fn reserve<D: Disk>(self, disk: &mut D) -> Result<(Vault, Counter), ReserveRefused>
        requires { ReadsAs (D.reads disk.old) self }

        ensures gives { ReserveGives self (D.faults disk.old) (D.faults disk.new) result }
        ensures may_spend { MaySpend self (storage D.reads D.past D.faults disk.old disk.new) }
        ensures has_spent { IfOk result (λ given.
            HasSpent self given.0 (storage D.reads D.past D.faults disk.old disk.new)) }

        // The counter's byte is written as 1, and no other byte is, at any moment and for any
        // result.
        ensures written { OnOk result (Turns (D.reads disk.old) (D.reads disk.new) (Holds (64 + self.next) (1 ∷ []))) }
        ensures images { 0 < left_of self → Follow (Torn (64 + self.next) 1) (D.past disk.old) (D.past disk.new) }
        ensures later { D.faults disk.old ≤ D.faults disk.new }
    {
        if self.left() == 0 {
            return Err(ReserveRefused::Exhausted(self));
        }
        let place = MAP_AT + u64::from(self.next());
        match write_synced(disk, place, &[SPENT]) {
            Ok(()) => Ok(self.spend()),
            Err(_) => Err(ReserveRefused::DiskFault),
        }
    }

    fn next(&self) -> u32
        ensures { result ≡ self.now.next }
    {
        self.next
    }

    /// The vault after its next counter, and that counter, which the caller has spent.
    fn spend(self) -> (Vault, Counter)
        requires left { self.next < count_of self.key }
        requires small { self.next < 1024 }
        ensures { (result.0 ≡ vault_after self) × (result.1 ≡ counter_of self) }
    {
        let counter = Counter::new(self.secret, self.next);
        let vault = Vault {
            secret: self.secret,
            next: self.next + 1,
        };
        (vault, counter)
    }
}

/// Why no counter is reserved.
#[derive(Debug, Drop, Error)]
pub enum ReserveRefused {
    /// No counter is left. The vault is returned.
    #[error("no counter is left")]
    Exhausted(Vault),
    /// The disk failed, and the vault is lost: open the disk again.
    #[error("the disk has failed")]
    DiskFault,
}

impl From<Failed> for ReserveRefused {
    ghost use Rattle.std.specs.Prelude.{◌≡◌};
    ghost use Rattle.st_vault.specs.declared.vault.ReserveRefused.TheVariants.{DiskFault};

    ghost from_gives = { λ _ refused. refused ≡ DiskFault };

    fn from(_failed: Failed) -> ReserveRefused {
        ReserveRefused::DiskFault
    }
}

/// In any list of runs and stops on one disk no counter is released by two of them, if each run
/// spends a counter before it releases it, as `Vault::reserve` does, and starts only from what a
/// stop of the previous run may leave.
pub fn no_counter_comes_twice<D: Disk>(_disk: &D)
    ensures { NoneTwice (λ disk. D.past disk) }
{}
