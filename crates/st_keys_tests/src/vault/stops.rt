use super::{Left, disk_of, is_formatted, left_after, left_of};
use st_base::{Bytes, WantOfMemory};
use st_io::{Pick, ScriptDisk};
use st_vault::{OpenRefused, open_vault};
use std::alloc::Global;
use std::test::Fail;

const BLANK: Left = Err(OpenRefused::Blank);

fn leaves(alloc: Global, disk: &ScriptDisk, pick: Pick, left: Left) -> Result<bool, WantOfMemory> {
    let image = disk.crash(alloc, pick)?;
    Ok(left_of(alloc, image.as_slice())? == left)
}

/// Whether a stop leaves a disk that is opened as `old` if each unsynced byte is the earlier one or
/// 0, and as `new` if it is the written one or an open gate.
fn leaves_either(
    alloc: Global,
    disk: &ScriptDisk,
    old: Left,
    new: Left,
) -> Result<bool, WantOfMemory> {
    Ok(
        leaves(alloc, disk, Pick::Old, old)?
            && leaves(alloc, disk, Pick::New, new)?
            && leaves(alloc, disk, Pick::Fill(0), old)?
            && leaves(alloc, disk, Pick::Fill(0xa5), new)?,
    )
}

/// Whether an empty disk whose calls after `last` fail is formatted, or not, and a stop then leaves
/// this.
fn formats(
    alloc: Global,
    last: u64,
    made: bool,
    (old, new): (Left, Left),
) -> Result<bool, WantOfMemory> {
    let mut disk = disk_of(alloc, b"", last)?;
    Ok(is_formatted(&mut disk) == made && leaves_either(alloc, &disk, old, new)?)
}

#[test]
fn a_stop_while_formatting_leaves_a_blank_disk_or_the_vault(rt: HostRuntime) -> Result<(), Fail> {
    for last in 0..7 {
        assert!(rt;
            formats(rt.alloc(), last, false, (BLANK, BLANK))?,
            "after {last} calls"
        );
    }
    assert!(rt; formats(rt.alloc(), 7, false, (BLANK, Ok(32)))?);
    assert!(rt; formats(rt.alloc(), 8, true, (Ok(32), Ok(32)))?);
    Ok(())
}

/// The image of a vault with no spent counter.
fn vault_image(alloc: Global) -> Result<Bytes, WantOfMemory> {
    let mut disk = disk_of(alloc, b"", u64::MAX)?;
    let _made = is_formatted(&mut disk);
    Ok(disk.crash(alloc, Pick::New)?)
}

fn is_reserved(disk: &mut ScriptDisk) -> bool {
    match open_vault(disk) {
        Ok(vault) => vault.reserve(disk).is_ok(),
        Err(_) => false,
    }
}

/// The same for opening a vault's disk and reserving a counter.
fn reserves(
    alloc: Global,
    last: u64,
    given: bool,
    (old, new): (u32, u32),
) -> Result<bool, WantOfMemory> {
    let image = vault_image(alloc)?;
    let mut disk = disk_of(alloc, image.as_slice(), last)?;
    Ok(is_reserved(&mut disk) == given && leaves_either(alloc, &disk, Ok(old), Ok(new))?)
}

// Four calls open the vault, and two reserve a counter.
#[test]
fn a_stop_while_opening_or_reserving_keeps_the_vault(rt: HostRuntime) -> Result<(), Fail> {
    for last in 0..5 {
        assert!(rt;
            reserves(rt.alloc(), last, false, (32, 32))?,
            "after {last} calls"
        );
    }
    assert!(rt; reserves(rt.alloc(), 5, false, (32, 31))?);
    assert!(rt; reserves(rt.alloc(), 6, true, (31, 31))?);
    Ok(())
}

/// Whether a disk that fails after this call is left in this state, when this many counters of its
/// vault are to be spent.
fn spends(
    alloc: Global,
    last: u64,
    count: u32,
    left: Option<u32>,
    (old, new): (u32, u32),
) -> Result<bool, WantOfMemory> {
    let image = vault_image(alloc)?;
    let mut disk = disk_of(alloc, image.as_slice(), last)?;
    Ok(
        left_after(&mut disk, count) == left
            && leaves(alloc, &disk, Pick::Old, Ok(old))?
            && leaves(alloc, &disk, Pick::New, Ok(new))?,
    )
}

#[test]
fn a_stop_before_the_sync_of_the_tenth_reservation(rt: HostRuntime) -> Result<(), Fail> {
    assert!(rt; spends(rt.alloc(), 4 + 9 * 2 + 1, 9, Some(23), (23, 23))?);
    assert!(rt; spends(rt.alloc(), 4 + 9 * 2 + 1, 10, None, (23, 22))?);
    Ok(())
}
