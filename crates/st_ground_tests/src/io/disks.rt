use super::numbers;
use st_base::{Bytes, List, WantOfMemory};
use st_io::{Disk, Failed, FileDisk, Pick, PlainDisk, ScriptDisk};
use std::alloc::Global;
use std::fs;
use std::fs::{File, Files, Permissions};
use std::os::unix::fs::{MetadataExt, PermissionsExt, symlink};
use std::test::Fail;

fn reads_what_was_written(disk: &mut PlainDisk) -> bool {
    let mut room = [0u8; 3];
    disk.length() == Ok(3)
        && disk.write_at(2, b"xyz") == Ok(())
        && disk.write_at(0, b"A") == Ok(())
        && disk.sync() == Ok(())
        && disk.length() == Ok(5)
        && disk.read_at(1, &mut room) == Ok(())
        && room.as_slice() == b"bxy".as_slice()
        && disk.image().as_slice() == b"Abxyz".as_slice()
}

#[test]
fn a_plain_disk_reads_what_was_written(rt: HostRuntime) -> Result<(), Fail> {
    let mut disk = PlainDisk::new(rt.alloc(), Bytes::from_slice(rt.alloc(), b"abc")?);
    assert!(rt; reads_what_was_written(&mut disk));
    Ok(())
}

fn fails_at_its_calls(disk: &mut ScriptDisk) -> bool {
    let mut room = [0u8; 1];
    disk.write_at(0, b"a") == Err(Failed)
        && disk.write_at(0, b"bc") == Ok(())
        && disk.sync() == Err(Failed)
        && disk.length() == Ok(2)
        && disk.read_at(1, &mut room) == Ok(())
        && room.as_slice() == b"c".as_slice()
        && disk.length() == Err(Failed)
        && disk.sync() == Err(Failed)
}

#[test]
fn a_scripted_disk_fails_at_its_calls(rt: HostRuntime) -> Result<(), Fail> {
    let failing = numbers(rt.alloc(), &[1, 3])?;
    let mut disk = ScriptDisk::new(rt.alloc(), Bytes::new(rt.alloc()), failing, 5);
    assert!(rt; fails_at_its_calls(&mut disk));
    Ok(())
}

fn leaves(alloc: Global, disk: &ScriptDisk, pick: Pick, want: &[u8]) -> bool {
    match disk.crash(alloc, pick) {
        Ok(image) => image.as_slice() == want,
        Err(_) => false,
    }
}

fn leaves_what_is_picked(alloc: Global, disk: &mut ScriptDisk) -> bool {
    disk.length() == Ok(4)
        && disk.write_at(1, b"XY") == Ok(())
        && disk.length() == Ok(4)
        && disk.write_at(2, b"VZW") == Ok(())
        && leaves(alloc, disk, Pick::Old, b"abcd\0")
        && leaves(alloc, disk, Pick::New, b"aXVZW")
        && leaves(alloc, disk, Pick::Fill(b'.'), b"a....")
        && disk.sync() == Ok(())
        && leaves(alloc, disk, Pick::Old, b"aXVZW")
}

#[test]
fn a_stop_leaves_what_the_pick_tells(rt: HostRuntime) -> Result<(), Fail> {
    let image = Bytes::from_slice(rt.alloc(), b"abcd")?;
    let mut disk = ScriptDisk::new(rt.alloc(), image, List::new(rt.alloc()), u64::MAX);
    assert!(rt; leaves_what_is_picked(rt.alloc(), &mut disk));
    Ok(())
}

/// Whether a new disk over the vault's file is written.
fn is_written(rt: &impl Files<File = File>) -> bool {
    let mut disk = FileDisk::new(rt);
    disk.length() == Ok(0)
        && disk.write_at(0, b"abc") == Ok(())
        && disk.write_at(2, b"XY") == Ok(())
        && disk.sync() == Ok(())
}

/// Whether a new disk over the same file reads what was written, and nothing else.
fn is_read_again(rt: &impl Files<File = File>) -> bool {
    let mut room = [0u8; 3];
    let mut disk = FileDisk::new(rt);
    disk.read_at(1, &mut room) == Ok(())
        && room.as_slice() == b"bXY".as_slice()
        && disk.read_at(2, &mut room) == Err(Failed)
}

fn is_no_file(rt: &impl Files<File = File>) -> bool {
    FileDisk::new(rt).sync() == Err(Failed)
}

#[test]
fn a_file_disk_outlives_its_value(rt: HostRuntime) -> Result<(), Fail> {
    let _ = fs::remove_file(&rt, "sidetree.vault");
    assert!(rt; is_written(&rt) && is_read_again(&rt));
    fs::remove_file(&rt, "sidetree.vault")?;
    // A folder of that name can't be opened as a file.
    fs::create_dir(&rt, "sidetree.vault")?;
    assert!(rt; is_no_file(&rt));
    fs::remove_dir(&rt, "sidetree.vault")?;
    Ok(())
}

/// Whether a new disk over the journal fails at its first call and at the next.
fn is_refused(rt: &impl Files<File = File>) -> bool {
    let mut disk = FileDisk::journal(rt);
    disk.length().is_err() && disk.sync().is_err()
}

/// Whether a new disk over the journal creates its file, which only its owner may open, and no
/// other disk opens it while the first exists.
fn is_private(rt: &impl Files<File = File>) -> bool {
    let mut disk = FileDisk::journal(rt);
    disk.length() == Ok(0)
        && match fs::metadata(rt, "sidetree.journal") {
            Ok(made) => made.mode() & 0o777 == 0o600,
            Err(_) => false,
        }
        && is_refused(rt)
}

#[test]
fn a_file_disk_is_private_and_held_by_one(rt: HostRuntime) -> Result<(), Fail> {
    let _ = fs::remove_file(&rt, "sidetree.journal");
    assert!(rt; is_private(&rt) && !is_refused(&rt));
    // A link to the file and a second name of it are not opened.
    fs::rename(&rt, "sidetree.journal", "other.journal")?;
    symlink(&rt, "other.journal", "sidetree.journal")?;
    assert!(rt; is_refused(&rt));
    fs::remove_file(&rt, "sidetree.journal")?;
    fs::hard_link(&rt, "other.journal", "sidetree.journal")?;
    assert!(rt; is_refused(&rt));
    fs::remove_file(&rt, "other.journal")?;
    assert!(rt; !is_refused(&rt));
    // A file that its group may write is not opened.
    fs::set_permissions(&rt, "sidetree.journal", Permissions::from_mode(0o620))?;
    assert!(rt; is_refused(&rt));
    fs::remove_file(&rt, "sidetree.journal")?;
    Ok(())
}
