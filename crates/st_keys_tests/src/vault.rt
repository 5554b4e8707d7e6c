ghost use Rattle.std.specs.Prelude.{IfOk};
ghost use Rattle.st_vault.specs.Vault.{ReadsAs};

mod counters;
mod images;
mod stops;

use st_base::{Bytes, List, WantOfMemory};
use st_io::{Disk, ScriptDisk};
use st_lms::{BadType, Secret};
use st_vault::{OpenRefused, ReserveRefused, Vault, format_vault, open_vault};
use std::alloc::Global;

/// The number of remaining counters of the vault in an image, or what else the image is.
type Left = Result<u32, OpenRefused>;

/// A key with 32 counters, of a type whose public key is quick to compute.
fn key() -> Result<Secret, BadType> {
    Secret::new(2, 5, [7; 16], [9; 32])
}

/// A disk with this image, whose calls after `last` fail.
fn disk_of(alloc: Global, image: &[u8], last: u64) -> Result<ScriptDisk, WantOfMemory> {
    let image = Bytes::from_slice(alloc, image)?;
    Ok(ScriptDisk::new(alloc, image, List::new(alloc), last))
}

fn left_of(alloc: Global, image: &[u8]) -> Result<Left, WantOfMemory> {
    let mut disk = disk_of(alloc, image, u64::MAX)?;
    match open_vault(&mut disk) {
        Ok(vault) => Ok(Ok(vault.left())),
        Err(refused) => Ok(Err(refused)),
    }
}

/// Whether a vault of the key is made on the disk.
fn is_formatted(disk: &mut ScriptDisk) -> bool {
    match key() {
        Ok(secret) => format_vault(disk, secret).is_ok(),
        Err(_) => false,
    }
}

/// The vault after this many reservations.
fn spend<D: Disk>(disk: &mut D, vault: Vault, count: u32) -> Result<Vault, ReserveRefused>
    requires { ReadsAs (D.reads disk.old) vault }
    ensures { IfOk result (ReadsAs (D.reads disk.new)) }
{
    let mut vault = vault;
    'spent: for _n in 0..count {
        let (rest, _counter) = vault.reserve(disk)?;
        vault = rest;
    }
    Ok(vault)
}

/// The number of remaining counters after this many are spent from the disk's vault.
fn left_after(disk: &mut ScriptDisk, count: u32) -> Option<u32> {
    let Ok(vault) = open_vault(disk) else {
        return None;
    };
    match spend(disk, vault, count) {
        Ok(vault) => Some(vault.left()),
        Err(_) => None,
    }
}
