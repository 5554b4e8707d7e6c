ghost use Rattle.std.specs.Prelude.{◌≤◌, length};

mod images;
mod stops;

use st_base::{Bytes, List, WantOfMemory};
use st_io::ScriptDisk;
use st_journal::{AppendRefused, Journal, open_journal};
use std::alloc::Global;

/// A disk with this image, whose calls after `last` fail.
fn disk_of(alloc: Global, image: &[u8], last: u64) -> Result<ScriptDisk, WantOfMemory> {
    let image = Bytes::from_slice(alloc, image)?;
    Ok(ScriptDisk::new(alloc, image, List::new(alloc), last))
}

fn is_done(appended: Result<Journal, AppendRefused>) -> bool {
    match appended {
        Ok(_journal) => true,
        Err(_refused) => false,
    }
}

/// Opens a disk and appends a line, and returns whether both were done.
fn append_line(alloc: Global, disk: &mut ScriptDisk, line: &[u8]) -> bool
    requires { length line.now ≤ 24000000 }
{
    match open_journal(alloc, disk) {
        Ok((journal, _records)) => is_done(journal.append(alloc, disk, line)),
        Err(_refused) => false,
    }
}
