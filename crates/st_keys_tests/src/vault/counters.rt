ghost use Rattle.st_vault.specs.Vault.{ReadsAs};

use super::{disk_of, is_formatted, key, spend};
use st_base::WantOfMemory;
use st_io::{Disk, ScriptDisk};
use st_lms::{Public, Secret, verify};
use st_vault::{Counter, FormatRefused, ReserveRefused, Vault, format_vault, open_vault};
use std::alloc::Global;
use std::test::Fail;

/// The disk of a vault of the key with this many spent counters, if it was made.
fn spent_disk(alloc: Global, count: u32) -> Result<(ScriptDisk, bool), WantOfMemory> {
    let mut disk = disk_of(alloc, b"", u64::MAX)?;
    let made = is_formatted(&mut disk) && is_spent(&mut disk, count);
    Ok((disk, made))
}

fn is_spent(disk: &mut ScriptDisk, count: u32) -> bool {
    match open_vault(disk) {
        Ok(vault) => spend(disk, vault, count).is_ok(),
        Err(_) => false,
    }
}

/// Whether the counter has this number and its signature holds.
fn signs(
    alloc: Global,
    public: &Public,
    counter: Counter,
    number: u32,
) -> Result<bool, WantOfMemory> {
    let right = counter.number() == number;
    let signature = counter.sign(alloc, b"message")?;
    Ok(
        right
            && verify(public, b"message", signature.as_slice())
            && signature.as_slice().starts_with(&number.to_be_bytes()),
    )
}

/// Whether the vault returns its next counter, which has this number, and then has this many left.
fn gives<D: Disk>(
    alloc: Global,
    disk: &mut D,
    vault: Vault,
    number: u32,
    left: u32,
) -> Result<bool, WantOfMemory>
    requires { ReadsAs (D.reads disk.old) vault }
{
    let public = vault.public();
    match vault.reserve(disk) {
        Ok((vault, counter)) => Ok(vault.left() == left && signs(alloc, &public, counter, number)?),
        Err(_) => Ok(false),
    }
}

/// Whether the next counter after this many has that number.
fn is_next(alloc: Global, count: u32, left: u32) -> Result<bool, WantOfMemory> {
    let (mut disk, made) = spent_disk(alloc, count)?;
    match open_vault(&mut disk) {
        Ok(vault) => Ok(gives(alloc, &mut disk, vault, count, left)? && made),
        Err(_) => Ok(false),
    }
}

/// Whether the vault returns itself, since it has no counters left.
fn hands_itself_back<D: Disk>(disk: &mut D, vault: Vault) -> bool
    requires { ReadsAs (D.reads disk.old) vault }
{
    match vault.reserve(disk) {
        Err(ReserveRefused::Exhausted(vault)) => vault.left() == 0,
        _ => false,
    }
}

fn is_exhausted(alloc: Global) -> Result<bool, WantOfMemory> {
    let (mut disk, made) = spent_disk(alloc, 32)?;
    match open_vault(&mut disk) {
        Ok(vault) => Ok(hands_itself_back(&mut disk, vault) && made),
        Err(_) => Ok(false),
    }
}

#[test]
fn counters_come_in_order_until_none_is_left(rt: HostRuntime) -> Result<(), Fail> {
    assert!(rt; is_next(rt.alloc(), 0, 31)?);
    assert!(rt; is_next(rt.alloc(), 31, 0)?);
    assert!(rt; is_exhausted(rt.alloc())?);
    Ok(())
}

/// Whether a vault is made only once on a disk.
fn is_made_once(alloc: Global, secret: Secret) -> Result<bool, WantOfMemory> {
    let mut disk = disk_of(alloc, b"", u64::MAX)?;
    Ok(
        format_vault(&mut disk, secret).is_ok()
            && matches!(
                format_vault(&mut disk, secret),
                Err(FormatRefused::Formatted)
            ),
    )
}

#[test]
fn a_vault_is_not_made_over_another(rt: HostRuntime) -> Result<(), Fail> {
    assert!(rt; is_made_once(rt.alloc(), key()?)?);
    Ok(())
}

/// Whether the next counter of the vault signs with a signer of its key.
fn signs_with_signer<D: Disk>(
    alloc: Global,
    disk: &mut D,
    vault: Vault,
) -> Result<bool, WantOfMemory>
    requires { ReadsAs (D.reads disk.old) vault }
{
    let signer = vault.signer(alloc)?;
    let public = vault.public();
    match vault.reserve(disk) {
        Ok((_vault, counter)) => {
            let signature = counter.sign_with(alloc, &signer, b"message")?;
            Ok(signer.public() == public && verify(&public, b"message", signature.as_slice()))
        }
        Err(_) => Ok(false),
    }
}

fn signs_on_a_blank_disk(alloc: Global, secret: Secret) -> Result<bool, WantOfMemory> {
    let mut disk = disk_of(alloc, b"", u64::MAX)?;
    match format_vault(&mut disk, secret) {
        Ok(vault) => signs_with_signer(alloc, &mut disk, vault),
        Err(_) => Ok(false),
    }
}

#[test]
fn a_counter_signs_with_a_signer_of_its_vault(rt: HostRuntime) -> Result<(), Fail> {
    assert!(rt; signs_on_a_blank_disk(rt.alloc(), key()?)?);
    Ok(())
}

// Identifier and seed are the SHA-256 of the key's identifier, the number, 0xfff0 or 0xfff1, and
// its seed.
fn is_child(child: &Secret) -> bool {
    child.ots() == 2
        && child.tree() == 5
        && child.id() == *b"\x09\x59\xa7\xb4\x99\x19\x62\x25\x5f\x6c\x68\x66\xc1\x44\x32\x01"
        && child.seed()
            == *b"\x35\x68\xfb\x6e\x90\x24\x87\x17\xac\x4d\x81\x5b\x1e\x65\x15\x91\x02\x67\xa9\x6c\x42\x98\xf5\x46\xc6\x67\xe0\x7d\x55\x3b\x01\xcd"
}

fn has_its_child(alloc: Global, secret: Secret) -> Result<bool, WantOfMemory> {
    let mut disk = disk_of(alloc, b"", u64::MAX)?;
    match format_vault(&mut disk, secret) {
        Ok(vault) => Ok(is_child(&vault.child(3))),
        Err(_) => Ok(false),
    }
}

#[test]
fn a_child_is_made_of_its_vaults_key(rt: HostRuntime) -> Result<(), Fail> {
    assert!(rt; has_its_child(rt.alloc(), key()?)?);
    Ok(())
}
