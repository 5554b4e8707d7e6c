ghost use Rattle.std.specs.Prelude.{IfOk};
ghost use Rattle.st_vault.specs.Vault.{ReadsAs};

use super::judged;
use super::vectors::QUICK_PUBLIC;
use st_base::{Bytes, List, WantOfMemory};
use st_hss::{HssPublic, HssSignRefused, HssVault, HssVaultRefused, hss_laws, verify_hss};
use st_io::{Disk, PlainDisk, ScriptDisk};
use st_lms::Secret;
use st_vault::{format_vault, open_vault};
use std::alloc::Global;
use std::test::Fail;

/// A disk with this image.
fn disk_of(alloc: Global, image: &[u8]) -> Result<PlainDisk, WantOfMemory> {
    Ok(PlainDisk::new(alloc, Bytes::from_slice(alloc, image)?))
}

/// The vault after this many signatures, and whether they have this length and hold under this key,
/// and for no other message.
fn sign_all<D: Disk>(
    alloc: Global,
    disk: &mut D,
    hss: HssVault,
    count: u32,
    public: &HssPublic,
) -> Result<(HssVault, bool), HssSignRefused>
    requires { ReadsAs (D.reads disk.old) hss }
    ensures { IfOk result (λ given. ReadsAs (D.reads disk.new) given.0) }
{
    let mut hss = hss;
    let mut right = true;
    'signed: for n in 0..count {
        let (rest, signature) = hss.sign(alloc, disk, &n.to_be_bytes())?;
        hss = rest;
        right = right
            && signature.as_slice().len() == 8980
            && verify_hss(public, &n.to_be_bytes(), signature.as_slice())
            && !verify_hss(public, b"other", signature.as_slice());
    }
    Ok((hss, right))
}

/// Whether a new vault of types 2 and 6 signs correctly, past the 32 signatures of its first lower
/// key.
fn signs_on(alloc: Global) -> Result<bool, Fail> {
    let public = HssPublic::read(QUICK_PUBLIC)?;
    let mut disk = disk_of(alloc, b"")?;
    let vault = format_vault(&mut disk, Secret::new(2, 6, [7; 16], [9; 32])?)?;
    match HssVault::new(vault) {
        Ok(hss) => match sign_all(alloc, &mut disk, hss, 34, &public) {
            Ok((hss, right)) => Ok(
                right && hss.public() == public && hss.into_vault().left() == 990,
            ),
            Err(_) => Ok(false),
        },
        Err(_) => Ok(false),
    }
}

/// The image of a vault with one counter left.
fn nearly_spent(alloc: Global) -> Result<Bytes, WantOfMemory> {
    let mut image = Bytes::from_slice(alloc, &[0xa5, 0, 0, 0, 2, 0, 0, 0, 6])?;
    image.push_all(alloc, &[7; 55])?;
    'spent: for _n in 0..1023 {
        image.push_all(alloc, &[1])?;
    }
    image.push_all(alloc, &[0])?;
    Ok(image)
}

/// Whether that vault signs once, and then returns itself.
fn signs_once(alloc: Global) -> Result<bool, Fail> {
    let image = nearly_spent(alloc)?;
    let mut disk = disk_of(alloc, image.as_slice())?;
    let vault = open_vault(&mut disk)?;
    match HssVault::new(vault) {
        Ok(hss) => match hss.sign(alloc, &mut disk, b"last") {
            Ok((hss, _)) => match hss.sign(alloc, &mut disk, b"more") {
                Err(HssSignRefused::Exhausted(hss)) => Ok(hss.vault().left() == 0),
                _ => Ok(false),
            },
            Err(_) => Ok(false),
        },
        Err(_) => Ok(false),
    }
}

/// Whether a disk that fails after the call `last` yields a signature. Four calls open the vault,
/// one writes the counter's byte, and one syncs it.
fn signs_within(alloc: Global, last: u64) -> Result<bool, Fail> {
    let image = nearly_spent(alloc)?;
    let mut disk = ScriptDisk::new(alloc, image, List::new(alloc), last);
    let vault = open_vault(&mut disk)?;
    match HssVault::new(vault) {
        Ok(hss) => match hss.sign(alloc, &mut disk, b"last") {
            Ok(_) => Ok(true),
            Err(_) => Ok(false),
        },
        Err(_) => Ok(false),
    }
}

/// Whether a vault of LMS type 5 is returned.
fn small_is_refused(alloc: Global) -> Result<bool, Fail> {
    let mut disk = disk_of(alloc, b"")?;
    let vault = format_vault(&mut disk, Secret::new(2, 5, [7; 16], [9; 32])?)?;
    match HssVault::new(vault) {
        Err(HssVaultRefused::WrongTree(vault)) => Ok(vault.left() == 32),
        Ok(_) => Ok(false),
    }
}

#[test]
fn the_counters_of_two_lower_keys_sign(rt: HostRuntime) -> Result<(), Fail> {
    hss_laws();
    judged(signs_on(rt.alloc())?)
}

#[test]
fn the_last_counter_signs_once(rt: HostRuntime) -> Result<(), Fail> {
    judged(signs_once(rt.alloc())?)
}

#[test]
fn a_failed_sync_gives_no_signature(rt: HostRuntime) -> Result<(), Fail> {
    judged(signs_within(rt.alloc(), 6)? && !signs_within(rt.alloc(), 5)?)
}

#[test]
fn a_small_tree_is_refused(rt: HostRuntime) -> Result<(), Fail> {
    judged(small_is_refused(rt.alloc())?)
}
