ghost use Rattle.std.specs.Prelude.{◌≡◌, ◌≢◌, ◌↔◌, ◌≤◌, IsErr, IsErrOf, IfOk, IfErr};
ghost use Rattle.st_io.specs.Past.{SpentInAll, storage};
ghost use Rattle.st_io.specs.Histories.{IfTold};
ghost use Rattle.st_lms.specs.OneTime.{IsOneTimeType};
ghost use Rattle.st_vault.specs.Image.{IsSpent};
ghost use Rattle.st_vault.specs.Vault.{ReadsAs, HasSpent, MaySpend};
ghost use Rattle.st_hss.specs.Public.{OneMessageALeaf, SignsForPublic, IsHssSignature, SignGives};
ghost use Rattle.st_hss.specs.Uses.{hss_public_of};

use crate::public::HssPublic;
use crate::trees::{LEAVES, Trees, signature_with, trees_for};
use st_base::{Bytes, WantOfMemory};
use st_io::Disk;
use st_vault::{ReserveRefused, Vault};
use std::alloc::Global;
use std::fmt;
use std::marker::Model;
use thiserror::Error;

/// Why a vault does not sign with two levels.
#[derive(Debug, Drop, Error)]
pub enum HssVaultRefused {
    /// The tree of the vault's key isn't of height 10. The vault is returned.
    #[error("the vault hasn't 1,024 counters")]
    WrongTree(Vault),
}

/// Why there is no signature.
#[derive(Debug, Drop, Error)]
pub enum HssSignRefused {
    /// No counter is left. The vault is returned.
    #[error("no counter is left")]
    Exhausted(HssVault),
    /// The disk failed, and the vault is lost: open the disk again.
    #[error("the disk has failed")]
    DiskFault,
    /// Out of memory. The vault is lost, and so is the reserved counter, if any.
    #[error("memory is wanting")]
    WantOfMemory,
}

impl From<WantOfMemory> for HssSignRefused {
    ghost use Rattle.std.specs.Prelude.{◌≡◌};
    ghost use Rattle.st_hss.specs.declared.vault.HssSignRefused.TheVariants as refused;

    ghost from_gives = { λ _ refusal. refusal ≡ refused.WantOfMemory };

    fn from(_want: WantOfMemory) -> HssSignRefused {
        HssSignRefused::WantOfMemory
    }
}

/// The LMS type of a tree of height 10.
const TREE: u32 = 6;

/// The number of counters of a vault of that type.
const COUNTERS: u32 = LEAVES * LEAVES;

/// A vault with 1,024 counters that signs with two levels. Its LMS key itself signs nothing here:
/// its child 0 is the top key, and the children from 1 on are the lower keys.
///
/// After the first signature it stores the nodes of two trees of height 5, 2,016 bytes each, and
/// the prefix of the signatures of one lower key, 1,352 to 8,744 bytes. Contracts see the vault.
#[derive(Drop)]
pub struct HssVault {
    vault: Vault,
    kept: Option<Trees>,
}

impl Model for HssVault {
    ghost use Rattle.std.specs.Prelude.{◌≡◌};
    ghost use Rattle.st_vault.specs.Image.{VaultValue};
    ghost use Rattle.st_hss.specs.Trees.{IfKept};

    ghost Value = { VaultValue };

    ghost view = { λ v. v.vault };

    ghost invariant = { λ v. (v.vault.key.tree ≡ 6) × IfKept v.vault.key v.kept };
}

impl fmt::Debug for HssVault {
    // The seed is not printed.
    fn fmt<W: fmt::Write>(&self, f: &mut fmt::Formatter<W>) -> fmt::Result {
        write!(f, "HssVault")
    }
}

impl HssVault {
    /// The vault, for signatures of two levels. It computes nothing.
    ///
    /// The result is `WrongTree` if and only if the LMS type of the vault's key isn't 6; it returns
    /// the vault.
    pub fn new(vault: Vault) -> Result<HssVault, HssVaultRefused>
        ensures wrong_tree { IsErr result ↔ (vault.key.tree ≢ 6) }
        ensures value { IfOk result (λ hss. hss ≡ vault) }
        ensures back { IfErr result (λ refusal. refusal ≡ HssVaultRefused.WrongTree vault) }
    {
        if vault.tree() != TREE {
            return Err(HssVaultRefused::WrongTree(vault));
        }
        Ok(HssVault { vault, kept: None })
    }

    /// The vault, with its present counters.
    pub fn vault(&self) -> &Vault
        ensures { result.now ≡ self.now }
    {
        &self.vault
    }

    /// Returns the vault. The data stored for signatures is dropped.
    pub fn into_vault(self) -> Vault
        ensures { result ≡ self }
    {
        let HssVault { vault, .. } = self;
        vault
    }

    /// The public key that verifies the signatures. It computes the leaves of the top key, unless
    /// they are stored from a signature.
    pub fn public(&self) -> HssPublic
        ensures { result ≡ hss_public_of self.now.key }
    {
        match &self.kept {
            Some(trees) => HssPublic {
                top: trees.top.public(),
            },
            None => HssPublic {
                top: self.vault.child(0).public(),
            },
        }
    }

    /// Spends the next counter on the disk, and then signs the message with it.
    ///
    /// The result is `Exhausted` if and only if no counter is left; it returns the vault, and the
    /// disk is unchanged. It is `DiskFault` only if the disk's count of faults rose: the vault is
    /// lost, the counter may be spent or not, and the disk must be opened again. If it runs out of
    /// memory, the vault is lost too, and the counter is spent and lost.
    ///
    /// The first signature computes the leaves of the top key, and the first with each lower key
    /// those of that key and its signature; they are stored for the later signatures, which compute
    /// none.
    pub fn sign<D: Disk>(
        self,
        alloc: Global,
        disk: &mut D,
        message: &[u8],
    ) -> Result<(HssVault, Bytes), HssSignRefused>
        requires { ReadsAs (D.reads disk.old) self }

        ensures gives { SignGives self message.now (D.faults disk.old) (D.faults disk.new) result }
        ensures verifies { IfOk result (λ given. IsHssSignature (hss_public_of self.key) message.now given.1) }
        ensures may_spend { MaySpend self (storage D.reads D.past D.faults disk.old disk.new) }
        ensures has_spent { IfOk result (λ given.
            HasSpent self given.0 (storage D.reads D.past D.faults disk.old disk.new)) }

        // Nothing is computed before the counter is spent: if memory ran out, it was, and is lost.
        ensures lost { IsErrOf result HssSignRefused.WantOfMemory
            → IfTold (D.reads disk.old) (λ image. SpentInAll IsSpent (D.past disk.new) self.next) }
        ensures later { D.faults disk.old ≤ D.faults disk.new }
    {
        let HssVault { vault, kept } = self;
        know_key(&vault);
        let left = vault.left();
        if left == 0 {
            return Err(HssSignRefused::Exhausted(HssVault { vault, kept }));
        }
        let n = COUNTERS - left;
        match vault.reserve(disk) {
            Ok((vault, counter)) => {
                let trees = trees_for(alloc, &vault, kept, n / LEAVES)?;
                let signature = signature_with(alloc, counter, &trees, message)?;
                Ok((
                    HssVault {
                        vault,
                        kept: Some(trees),
                    },
                    signature,
                ))
            }
            Err(ReserveRefused::Exhausted(vault)) => {
                Err(HssSignRefused::Exhausted(HssVault { vault, kept }))
            }
            Err(ReserveRefused::DiskFault) => Err(HssSignRefused::DiskFault),
        }
    }
}

/// The one-time type of a vault's key is known.
#[tactic(auto, using(crate::proofs::VaultLemmas::known_from_child))]
fn know_key(vault: &Vault)
    ensures { IsOneTimeType vault.now.key.ots }
{
    vault.child(0);
}

/// Laws of signatures of two levels: no leaf signs two different messages, if each counter signs
/// once; and each signature is one under the key's public key.
pub fn hss_laws()
    ensures one_message_a_leaf { OneMessageALeaf }
    ensures signs_for_public { SignsForPublic }
{}
