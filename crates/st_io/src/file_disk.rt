ghost use Rattle.std.specs.Prelude.{◌≡◌, None, length};
ghost use Rattle.st_io.specs.Histories.{untold_past};

use crate::disk::Disk;
use crate::streams::Failed;
use std::fs::{File, Files, Metadata, OpenOptions};
use std::io::{Read, Seek, SeekFrom, Write};
use std::os::fd::AsRawFd;
use std::os::unix::fs::{MetadataExt, OpenOptionsExt};
use std::{fs, io};

const VAULT: &str = "sidetree.vault";

const JOURNAL: &str = "sidetree.journal";

/// Only the user who made a file may read and write it, since it may hold a secret key.
const OWNER_ALONE: u32 = 0o600;

/// The mode bits that let group or others write.
const OTHERS_WRITE: u32 = 0o022;

/// This process, whose owner is the effective user. Linux alone has it.
const PROCESS: &str = "/proc/self";

/// The standard streams that are open.
const INPUT: &str = "/proc/self/fd/0";

const OUTPUT: &str = "/proc/self/fd/1";

const ERRORS: &str = "/proc/self/fd/2";

/// The file of a disk.
#[derive(Drop)]
enum Slot {
    /// No call has opened it yet.
    Unopened,
    Open(File),
    /// Opening it or a sync failed. Written bytes may then be lost without another error, so the
    /// file is not used again.
    Lost,
}

/// A file in the current folder as a disk. Its contents aren't revealed.
///
/// The first call opens the file, or creates it with mode 0600 if there is none. It fails if the
/// name is not that of a regular file, is a link, or the file has a second name; if its owner is not
/// the effective user, or group or others may write it; if it may not be read or written; if it is
/// standard input, output or error; and if another process has it open as a disk. While it is open
/// it is locked against other processes, and it never takes the place of a standard stream that was
/// closed. It is synced, with its folder.
///
/// A failure to open is a fault of that call. After such a failure, and after a sync that failed,
/// every later call fails.
#[derive(Drop)]
pub struct FileDisk<'a, R> {
    rt: &'a R,
    name: &'static str,
    file: Slot,
    faults: u64,
}

impl<'a, R: Files<File = File>> FileDisk<'a, R> {
    /// The file `sidetree.vault`. Nothing is opened yet, and there is no fault.
    pub fn new(rt: &'a R) -> Self
        ensures { ⟦<FileDisk<'a, R> as Disk>⟧.faults result ≡ 0 }
    {
        FileDisk::named(rt, VAULT)
    }

    /// The file `sidetree.journal`. Nothing is opened yet, and there is no fault.
    pub fn journal(rt: &'a R) -> Self
        ensures { ⟦<FileDisk<'a, R> as Disk>⟧.faults result ≡ 0 }
    {
        FileDisk::named(rt, JOURNAL)
    }

    fn named(rt: &'a R, name: &'static str) -> Self
        ensures { ⟦<FileDisk<'a, R> as Disk>⟧.faults result ≡ 0 }
    {
        FileDisk {
            rt,
            name,
            file: Slot::Unopened,
            faults: 0,
        }
    }
}

fn make_or_open<R: Files<File = File>>(rt: &R, name: &str) -> io::Result<File> {
    match OpenOptions::new()
        .read(true)
        .write(true)
        .create_new(true)
        .mode(OWNER_ALONE)
        .open(rt, name)
    {
        Err(error) if error.kind() == io::ErrorKind::AlreadyExists => {
            if !fs::symlink_metadata(rt, name)?.is_file() {
                return Err(lost());
            }
            OpenOptions::new().read(true).write(true).open(rt, name)
        }
        made => made,
    }
}

fn is_same(found: &Metadata, other: &Metadata) -> bool {
    found.dev() == other.dev() && found.ino() == other.ino()
}

// Whether a file is this standard stream. A closed stream is no file.
fn is_stream<R: Files<File = File>>(rt: &R, found: &Metadata, stream: &str) -> io::Result<bool> {
    match fs::metadata(rt, stream) {
        Ok(open) => Ok(is_same(found, &open)),
        Err(error) if error.kind() == io::ErrorKind::NotFound => Ok(false),
        Err(error) => Err(error),
    }
}

// Whether a file is regular, has this name alone, belongs to the effective user, who alone may write
// it, and is no standard stream.
fn is_own<R: Files<File = File>>(rt: &R, name: &str, file: &File) -> io::Result<bool> {
    let (found, named) = (file.metadata()?, fs::symlink_metadata(rt, name)?);
    let is_alone = is_same(&found, &named) && found.is_file() && found.nlink() == 1;
    let is_mine = found.uid() == fs::metadata(rt, PROCESS)?.uid()
        && found.mode() & OTHERS_WRITE == 0;
    let is_streamed = is_stream(rt, &found, INPUT)?
        || is_stream(rt, &found, OUTPUT)?
        || is_stream(rt, &found, ERRORS)?;
    Ok(is_alone && is_mine && !is_streamed)
}

// Opens and locks the file. It is never at the number of a standard stream that was closed: output
// for that must not land in the file. It is looked at only once the lock is held, since another file
// may get the name before.
fn open_locked<R: Files<File = File>>(rt: &R, name: &str) -> io::Result<File> {
    let mut file = make_or_open(rt, name)?;
    if file.as_raw_fd() <= 2 {
        file = file.try_clone()?;
    }
    if file.try_lock().is_err() || !is_own(rt, name, &file)? {
        return Err(lost());
    }
    Ok(file)
}

// The file at a durable name: a newly created file outlives a stop only after its folder is synced.
fn open_durable<R: Files<File = File>>(rt: &R, name: &str) -> io::Result<File> {
    let file = open_locked(rt, name)?;
    file.sync_all()?;
    fs::open(rt, ".")?.sync_all()?;
    Ok(file)
}

// A failure is remembered: Linux reports a lost write once, and a second try would not see it.
fn open_once<R: Files<File = File>>(rt: &R, name: &str, slot: &mut Slot) -> io::Result<()> {
    if let Slot::Unopened = slot {
        *slot = Slot::Lost;
        *slot = Slot::Open(open_durable(rt, name)?);
    }
    Ok(())
}

fn lost() -> io::Error {
    io::Error::from(io::ErrorKind::Other)
}

fn length_of<R: Files<File = File>>(rt: &R, name: &str, slot: &mut Slot) -> io::Result<u64> {
    open_once(rt, name, slot)?;
    match slot {
        Slot::Open(file) => Ok(file.metadata()?.len()),
        _ => Err(lost()),
    }
}

fn read_from<R: Files<File = File>>(
    rt: &R,
    name: &str,
    slot: &mut Slot,
    at: u64,
    into: &mut [u8],
) -> io::Result<()> {
    open_once(rt, name, slot)?;
    match slot {
        Slot::Open(file) => {
            file.seek(SeekFrom::Start(at))?;
            file.read_exact(into)
        }
        _ => Err(lost()),
    }
}

fn write_to<R: Files<File = File>>(
    rt: &R,
    name: &str,
    slot: &mut Slot,
    at: u64,
    from: &[u8],
) -> io::Result<()> {
    open_once(rt, name, slot)?;
    match slot {
        Slot::Open(file) => {
            file.seek(SeekFrom::Start(at))?;
            file.write_all(from)
        }
        _ => Err(lost()),
    }
}

fn sync_to<R: Files<File = File>>(rt: &R, name: &str, slot: &mut Slot) -> io::Result<()> {
    open_once(rt, name, slot)?;
    match slot {
        Slot::Open(file) => file.sync_all(),
        _ => Err(lost()),
    }
}

impl<'a, R: Files<File = File>> Disk for FileDisk<'a, R> {
    ghost reads = { λ _. None };

    ghost past = { λ _. untold_past };

    ghost faults = { λ d. d.faults };

    ghost is_image = { λ d xs told. tt };

    fn length(&mut self) -> Result<u64, Failed> {
        match length_of(self.rt, self.name, &mut self.file) {
            Ok(length) => Ok(length),
            Err(_) => {
                self.faults = self.faults.saturating_add(1);
                Err(Failed)
            }
        }
    }

    fn read_at(&mut self, at: u64, into: &mut [u8]) -> Result<(), Failed> {
        match read_from(self.rt, self.name, &mut self.file, at, into) {
            Ok(()) => Ok(()),
            Err(_) => {
                self.faults = self.faults.saturating_add(1);
                Err(Failed)
            }
        }
    }

    fn write_at(&mut self, at: u64, from: &[u8]) -> Result<(), Failed> {
        match write_to(self.rt, self.name, &mut self.file, at, from) {
            Ok(()) => Ok(()),
            Err(_) => {
                self.faults = self.faults.saturating_add(1);
                Err(Failed)
            }
        }
    }

    fn sync(&mut self) -> Result<(), Failed> {
        match sync_to(self.rt, self.name, &mut self.file) {
            Ok(()) => Ok(()),
            Err(_) => {
                self.file = Slot::Lost;
                self.faults = self.faults.saturating_add(1);
                Err(Failed)
            }
        }
    }
}
