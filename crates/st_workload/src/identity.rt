ghost use Rattle.std.specs.Prelude.{◌≡◌, ◌≤◌, ◌+◌, ◌∷◌, [], IfOk, OnOk};
ghost use Rattle.st_workload.specs.Identifier.{each, did_suffix, key, submit_line, identity_of, lines_of};
ghost use Rattle.st_vault.specs.Vault.{ReadsAs};
ghost use Rattle.st_vault.specs.Image.{counter_of, new_vault, vault_after};

use crate::keys::secret;
use crate::requests::{create_delta, create_line, suffix_data, update_line};
use st_base::{Bytes, Copied, List, WantOfMemory};
use st_hash::Hash;
use st_indexfiles::suffix_of;
use st_io::{Disk, PlainDisk};
use st_lms::Secret;
use st_vault::{Counter, Vault, VaultSigner, format_vault};
use std::alloc::Global;

/// An identifier, and all its requests.
#[derive(Drop)]
pub struct Identity {
    /// Its suffix.
    pub suffix: Hash,
    /// The lines that submit its requests, one for each round from round 0 on, which creates it.
    pub lines: List<Bytes>,
}

impl Copied for Identity {
    fn copy(&self, alloc: Global) -> Result<Identity, WantOfMemory> {
        let lines = self.lines.copy(alloc)?;
        Ok(Identity {
            suffix: self.suffix,
            lines,
        })
    }
}

/// The identifiers with the numbers from 0 to `dids - 1`, each updated in `rounds` rounds. Each
/// takes the time of a key, and of a signature for each update.
pub fn all_identities(
    alloc: Global,
    seed: u64,
    dids: u32,
    rounds: u32,
) -> Result<List<Identity>, WantOfMemory>
    requires { rounds ≤ 30 }
    ensures { IfOk result (λ identities. identities ≡ each dids (identity_of seed rounds)) }
{
    let mut identities = List::new(alloc);
    'identities: for number in 0..dids {
        let identity = make_identity(alloc, seed, number, rounds)?;
        identities.push(alloc, identity)?;
    }
    Ok(identities)
}

fn make_identity(
    alloc: Global,
    seed: u64,
    number: u32,
    rounds: u32,
) -> Result<Identity, WantOfMemory>
    requires { rounds ≤ 30 }
    ensures { IfOk result (λ identity. identity ≡ identity_of seed rounds number) }
{
    let secret = secret(seed, number)?;
    let mut disk = PlainDisk::new(alloc, Bytes::new(alloc));
    let vault = new_vault(&mut disk, secret)?;
    let signer = vault.signer(alloc)?;
    let (suffix, create) = create(alloc, &signer, seed, number)?;
    let mut lines = List::new(alloc);
    lines.push(alloc, create)?;
    push_updates(
        alloc, &mut lines, vault, &mut disk, &signer, &suffix, seed, number, rounds,
    )?;
    Ok(Identity { suffix, lines })
}

// The suffix, and the line of the create.
#[tactic(auto, unfolding(crate::specs::Identifier::did_suffix))]
fn create(
    alloc: Global,
    signer: &VaultSigner,
    seed: u64,
    number: u32,
) -> Result<(Hash, Bytes), WantOfMemory>
    requires { signer.now ≡ key seed number }
    ensures { IfOk result (λ made. (made.0 ≡ did_suffix seed number) × (made.1 ≡ submit_line seed 0 number)) }
{
    let delta = create_delta(alloc, signer, seed, number)?;
    let suffix_data = suffix_data(alloc, signer, seed, number, &delta)?;
    let suffix = suffix_of(alloc, &suffix_data)?;
    let line = create_line(alloc, seed, number, &suffix_data, &delta)?;
    Ok((suffix, line))
}

// Appends the lines of all updates to that of the create.
fn push_updates<D: Disk>(
    alloc: Global,
    lines: &mut List<Bytes>,
    vault: Vault,
    disk: &mut D,
    signer: &VaultSigner,
    suffix: &Hash,
    seed: u64,
    number: u32,
    rounds: u32,
) -> Result<(), WantOfMemory>
    requires rounds { rounds ≤ 30 }
    requires lines { lines.old ≡ submit_line seed 0 number ∷ [] }
    requires vault { vault ≡ new_vault (key seed number) }
    requires reads { ReadsAs (D.reads disk.old) vault }
    requires signer { signer.now ≡ key seed number }
    requires suffix { suffix.now ≡ did_suffix seed number }
    ensures { OnOk result (lines.new ≡ lines_of seed rounds number) }
{
    let mut vault = vault;
    'rounds: for before in 0..rounds {
        let (next, counter) = spend(vault, disk)?;
        vault = next;
        let line = update_line(alloc, seed, number, signer, suffix, before + 1, counter)?;
        lines.push(alloc, line)?;
    }
    Ok(())
}

// A vault of this key on an empty disk. A disk in memory can only fail by running out of memory.
fn new_vault<D: Disk>(disk: &mut D, secret: Secret) -> Result<Vault, WantOfMemory>
    ensures value { IfOk result (λ vault. vault ≡ new_vault secret) }
    ensures reads { IfOk result (ReadsAs (D.reads disk.new)) }
{
    match format_vault(disk, secret) {
        Ok(vault) => Ok(vault),
        Err(_) => Err(WantOfMemory),
    }
}

// Spends the next counter. There are more counters than rounds, so this can only run out of memory.
fn spend<D: Disk>(vault: Vault, disk: &mut D) -> Result<(Vault, Counter), WantOfMemory>
    requires { ReadsAs (D.reads disk.old) vault }
    ensures value { IfOk result (λ given. (given.0 ≡ vault_after vault) × (given.1 ≡ counter_of vault)) }
    ensures reads { IfOk result (λ given. ReadsAs (D.reads disk.new) given.0) }
{
    match vault.reserve(disk) {
        Ok(given) => Ok(given),
        Err(_) => Err(WantOfMemory),
    }
}
