ghost use Rattle.std.specs.Prelude.{◌≡◌, IfOk, IfSome};
ghost use Rattle.st_lms.specs.Signature.{public_of};
ghost use Rattle.st_vault.specs.Image.{left_of};
ghost use Rattle.st_wallet.specs.inside.Drafts.{vault_of_levels};

use st_base::WantOfMemory;
use st_hss::HssVault;
use st_lms::Public;
use st_vault::{Vault, VaultSigner};
use std::alloc::Global;
use std::marker::Model;
use thiserror::Error;

/// A vault, with the data computed for its keys at the first line that needed them. Later lines
/// reuse it.
#[derive(Drop)]
pub(crate) struct SigningVault {
    levels: VaultLevels,
    /// The vault's own key, with the nodes of its tree.
    signer: Option<VaultSigner>,
}

/// A vault, alone or with the data stored for signatures of two levels.
#[derive(Drop)]
pub(crate) enum VaultLevels {
    OneLevel(Vault),
    TwoLevels(HssVault),
}

impl Model for SigningVault {
    ghost use Rattle.std.specs.Prelude.{◌≡◌, IfSome};
    ghost use Rattle.st_vault.specs.Image.{VaultValue};
    ghost use Rattle.st_wallet.specs.inside.Drafts.{vault_of_levels};

    ghost Value = { VaultValue };

    ghost view = { λ v. vault_of_levels v.levels };

    ghost invariant = { λ v. IfSome v.signer (λ signer. signer ≡ (vault_of_levels v.levels).key) };
}

/// The vault.
fn vault_in(levels: &VaultLevels) -> &Vault
    ensures { result.now ≡ vault_of_levels levels.now }
{
    match levels {
        VaultLevels::OneLevel(vault) => vault,
        VaultLevels::TwoLevels(hss) => hss.vault(),
    }
}

/// The vault, without the data stored for signatures of two levels.
fn vault_of(levels: VaultLevels) -> Vault
    ensures { result ≡ vault_of_levels levels }
{
    match levels {
        VaultLevels::OneLevel(vault) => vault,
        VaultLevels::TwoLevels(hss) => hss.into_vault(),
    }
}

/// The same, for signatures of two levels.
fn hss_of(levels: VaultLevels) -> HssVault
    requires { (vault_of_levels levels).key.tree ≡ 6 }
    ensures { result ≡ vault_of_levels levels }
{
    match levels {
        VaultLevels::OneLevel(vault) => HssVault::new(vault).unwrap(),
        VaultLevels::TwoLevels(hss) => hss,
    }
}

impl SigningVault {
    /// The vault, with nothing computed for its keys.
    pub(crate) fn new(vault: Vault) -> SigningVault
        ensures { result ≡ vault }
    {
        SigningVault {
            levels: VaultLevels::OneLevel(vault),
            signer: None,
        }
    }

    /// The vault, with its key and the nodes of its tree.
    pub(crate) fn with_signer(vault: Vault, signer: VaultSigner) -> SigningVault
        requires { signer ≡ vault.key }
        ensures { result ≡ vault }
    {
        SigningVault {
            levels: VaultLevels::OneLevel(vault),
            signer: Some(signer),
        }
    }

    /// The vault, with the data stored for signatures of two levels, and with its key, if present.
    pub(crate) fn with_hss(hss: HssVault, signer: Option<VaultSigner>) -> SigningVault
        requires { IfSome signer (λ signer. signer ≡ hss.key) }
        ensures { result ≡ hss }
    {
        SigningVault {
            levels: VaultLevels::TwoLevels(hss),
            signer,
        }
    }

    /// The number of counters left.
    pub(crate) fn left(&self) -> u32
        ensures { result ≡ left_of self.now }
    {
        vault_in(&self.levels).left()
    }

    /// The LMS type of the vault's key: 5 or 6.
    pub(crate) fn tree(&self) -> u32
        ensures { result ≡ self.now.key.tree }
    {
        vault_in(&self.levels).tree()
    }

    /// The public key of the vault's key. It computes the tree, if no line needed it before.
    pub(crate) fn public(&mut self, alloc: Global) -> Result<Public, WantOfMemory>
        ensures value { IfOk result (λ public. public ≡ public_of self.old.key) }
        ensures same { self.new ≡ self.old }
    {
        if let Some(signer) = &self.signer {
            return Ok(signer.public());
        }
        let signer = vault_in(&self.levels).signer(alloc)?;
        let public = signer.public();
        self.signer = Some(signer);
        Ok(public)
    }

    /// The vault, and its key with the nodes of its tree. It computes the tree, if no line needed
    /// it before. The data stored for signatures of two levels is dropped.
    pub(crate) fn into_parts(self, alloc: Global) -> Result<(Vault, VaultSigner), WantOfMemory>
        ensures vault { IfOk result (λ parts. parts.0 ≡ self) }
        ensures signer { IfOk result (λ parts. parts.1 ≡ self.key) }
    {
        let SigningVault { levels, signer } = self;
        let vault = vault_of(levels);
        match signer {
            Some(signer) => Ok((vault, signer)),
            None => {
                let signer = vault.signer(alloc)?;
                Ok((vault, signer))
            }
        }
    }

    /// The vault, for signatures of two levels, and its key, if present.
    pub(crate) fn into_hss(self) -> (HssVault, Option<VaultSigner>)
        requires { self.key.tree ≡ 6 }
        ensures vault { result.0 ≡ self }
        ensures signer { IfSome result.1 (λ signer. signer ≡ self.key) }
    {
        let SigningVault { levels, signer } = self;
        (hss_of(levels), signer)
    }
}

/// Why a wallet gives no reply. The wallet is lost then, and the disk must be opened again.
#[derive(Clone, Copy, Debug, PartialEq, Eq, Error)]
pub enum WalletRefused {
    /// The disk failed.
    #[error("the disk has failed")]
    DiskFault,
    /// Out of memory.
    #[error("out of memory")]
    WantOfMemory,
}

impl From<WantOfMemory> for WalletRefused {
    ghost use Rattle.std.specs.Prelude.{◌≡◌};
    ghost use Rattle.st_wallet.specs.declared.signing_vault.WalletRefused.TheVariants.{WantOfMemory};

    ghost from_gives = { λ _ refused. refused ≡ WantOfMemory };

    fn from(_want: WantOfMemory) -> WalletRefused {
        WalletRefused::WantOfMemory
    }
}
