ghost use Rattle.std.specs.Prelude.{◌<◌, ◌^◌};
ghost use Rattle.st_journal.specs.Image.{IsReady};

use super::{append_line, disk_of, is_done};
use st_base::{Bytes, List, WantOfMemory};
use st_io::{Disk, Pick, ScriptDisk};
use st_journal::{Journal, open_journal};
use std::alloc::Global;
use std::test::Fail;

/// The lines of a session.
const SESSION: &[u8] = b"content YWJj\ncontent ZGVm\n";

const FIRST: &[u8] = b"content YWJj";

const SECOND: &[u8] = b"content ZGVm";

/// A line that is appended after a stop.
const LATER: &[u8] = b"rollback 0";

/// A session on an empty disk, which takes four calls to open and four for each line, and whose
/// later calls fail: the number of acknowledged lines, and the number found again after a stop that
/// leaves each unsynced byte as the earlier one, the written one, 0, 1, or an open gate.
const STOPS: &str = "\
0: 0, 0 0 0 0 0
1: 0, 0 0 0 0 0
2: 0, 0 0 0 0 0
3: 0, 0 0 0 0 0
4: 0, 0 0 0 0 0
5: 0, 0 0 0 0 0
6: 0, 0 0 0 0 0
7: 0, 0 1 0 0 1
8: 1, 1 1 1 1 1
9: 1, 1 1 1 1 1
10: 1, 1 1 1 1 1
11: 1, 1 2 1 1 2
12: 2, 2 2 2 2 2";

/// The number of lines that are appended, of two.
fn append_both<D: Disk>(alloc: Global, disk: &mut D, journal: Journal) -> u8
    requires ready { IsReady journal (D.reads disk.old) (D.past disk.old) }
    requires small { journal.end < 2 ^ 40 }
{
    match journal.append(alloc, disk, FIRST) {
        Ok(journal) => {
            if is_done(journal.append(alloc, disk, SECOND)) {
                2
            } else {
                1
            }
        }
        Err(_refused) => 0,
    }
}

/// The number of acknowledged lines of the session.
fn acknowledged(alloc: Global, disk: &mut ScriptDisk) -> u8 {
    match open_journal(alloc, disk) {
        Ok((journal, _records)) => append_both(alloc, disk, journal),
        Err(_refused) => 0,
    }
}

/// Each record with a line end.
fn joined(alloc: Global, records: &List<Bytes>) -> Result<Bytes, WantOfMemory> {
    let mut text = Bytes::new(alloc);
    'records: for record in records.as_slice() {
        text.push_all(alloc, record.as_slice())?;
        text.push_all(alloc, b"\n")?;
    }
    Ok(text)
}

fn lines_of(alloc: Global, image: &[u8]) -> Result<Bytes, WantOfMemory> {
    let mut disk = disk_of(alloc, image, u64::MAX)?;
    match open_journal(alloc, &mut disk) {
        Ok((_journal, records)) => joined(alloc, &records),
        Err(_refused) => Bytes::from_slice(alloc, b"refused"),
    }
}

/// An image after a later line is appended.
fn gone_on(alloc: Global, image: &[u8]) -> Result<Bytes, WantOfMemory> {
    let mut disk = disk_of(alloc, image, u64::MAX)?;
    let _done = append_line(alloc, &mut disk, LATER);
    disk.crash(alloc, Pick::Old)
}

/// The number of lines of the session in an image to which a later line can be appended; 9 if it
/// has others, or if the later line isn't after them.
fn found(alloc: Global, image: &[u8]) -> Result<usize, WantOfMemory> {
    let lines = lines_of(alloc, image)?;
    let next = gone_on(alloc, image)?;
    let all = lines_of(alloc, next.as_slice())?;
    let is_right = SESSION.starts_with(lines.as_slice())
        && all.as_slice().starts_with(lines.as_slice())
        && all.as_slice().ends_with(b"rollback 0\n")
        && all.as_slice().len() == lines.as_slice().len().saturating_add(11);
    Ok(if is_right {
        lines.as_slice().len() / 13
    } else {
        9
    })
}

fn found_after(alloc: Global, disk: &ScriptDisk, pick: Pick) -> Result<usize, WantOfMemory> {
    let image = disk.crash(alloc, pick)?;
    found(alloc, image.as_slice())
}

/// The table's line, without the number before the colon.
fn told(alloc: Global, last: u64) -> Result<String, WantOfMemory> {
    let mut disk = disk_of(alloc, b"", last)?;
    let done = acknowledged(alloc, &mut disk);
    let old = found_after(alloc, &disk, Pick::Old)?;
    let new = found_after(alloc, &disk, Pick::New)?;
    let zeros = found_after(alloc, &disk, Pick::Fill(0))?;
    let ones = found_after(alloc, &disk, Pick::Fill(1))?;
    let gates = found_after(alloc, &disk, Pick::Fill(0xa5))?;
    Ok(format!(in alloc; "{done}, {old} {new} {zeros} {ones} {gates}")?)
}

fn is_so(alloc: Global, line: &str) -> Result<bool, WantOfMemory> {
    let Some((last, want)) = line.split_once(": ") else {
        return Ok(false);
    };
    match last.parse::<u64>() {
        Ok(last) => Ok(told(alloc, last)?.as_str() == want),
        Err(_) => Ok(false),
    }
}

/// The first line at which a stop leaves another result.
fn first_other(alloc: Global) -> Result<Option<&'static str>, WantOfMemory> {
    'lines: for line in STOPS.lines() {
        if !is_so(alloc, line)? {
            return Ok(Some(line));
        }
    }
    Ok(None)
}

#[test]
fn what_was_acknowledged_is_found_again(rt: HostRuntime) -> Result<(), Fail> {
    match first_other(rt.alloc())? {
        Some(line) => Err(Fail::from(line)),
        None => Ok(()),
    }
}

/// An image of this many records with this body, and one with 70,000 bytes after them.
fn long_image(alloc: Global, count: u64) -> Result<Bytes, WantOfMemory> {
    let mut image = Bytes::new(alloc);
    'records: for _n in 0..count {
        image.push_all(alloc, b"\xa5\x00\x00\x00\x0ccontent YWJj")?;
    }
    image.push_all(alloc, b"\xa5\x00\x01\x11\x70")?;
    'bytes: for _n in 0..7000 {
        image.push_all(alloc, b"0123456789")?;
    }
    image.push_all(alloc, b"\x00")?;
    Ok(image)
}

/// Whether all its records are read, the last with 70,000 bytes.
fn is_read(records: &List<Bytes>, count: usize) -> bool {
    let records = records.as_slice();
    match records.last() {
        Some(last) => {
            records.len() == count
                && records[0].as_slice() == FIRST
                && last.as_slice().len() == 70_000
                && last.as_slice().ends_with(b"890123456789")
        }
        None => false,
    }
}

fn is_long_read(alloc: Global, count: u64) -> Result<bool, WantOfMemory> {
    let image = long_image(alloc, count)?;
    let mut disk = disk_of(alloc, image.as_slice(), u64::MAX)?;
    match open_journal(alloc, &mut disk) {
        Ok((journal, records)) => { Ok(journal.end() == 1_770_005 && is_read(&records, 100_001)) }
        Err(_refused) => Ok(false),
    }
}

#[test]
fn a_hundred_thousand_records_are_read(rt: HostRuntime) -> Result<(), Fail> {
    assert!(rt; is_long_read(rt.alloc(), 100_000)?);
    Ok(())
}
