use super::{append_line, disk_of};
use st_base::{Bytes, WantOfMemory};
use st_io::Pick;
use st_journal::{JournalRefused, Opening, open_journal};
use std::alloc::Global;
use std::test::Fail;

// In these tables `@` is an open gate, `.` a byte of 0, `/` and `,` the bytes 12 and 13, and every
// other character itself.

/// An image, and after two spaces the number of its records and the place of its first closed gate,
/// or that it is damaged. Fewer than 2 bytes become a closed gate.
const OPENED: &str = "\
@.../content YWJj.  1 17
@.../content YWJj.@  1 17
@.../content YWJj.@..../conten  1 17
@.../content YWJj@.../content YWJj.  2 34
@.../content YWJj@....x  2 22
@.....  1 5
@....@....x  2 10
  0 0
@  0 0
.  0 0
x  0 0
.@  0 0
x@@@@  0 0
@...,content YWJj.  damaged
@.../content YWJj  damaged
@.../content YWJj@  damaged
@.../content YWJj@...  damaged
@.../content YWJj@....  damaged
@.  damaged
@...  damaged
@....  damaged
@....@...  damaged
@@@@@@  damaged";

/// An image, and the results of its first two reads.
const COMING: &str = "\
@.../content YWJj.  record none
@.../content YWJj@.../content YWJj.  record record
@....@...  record damaged
@.../content YWJj@....  record damaged
@.  damaged damaged
.@  none none
  none none
@  none none";

/// An image, and the image after the line is appended.
const APPENDED: &str = "\
@  @.../content YWJj.
  @.../content YWJj.
x@@  @.../content YWJj.
.@@@@@@@@@@@@@@@@@@@  @.../content YWJj.@@
@.....@@  @....@.../content YWJj.
@.../content YWJj..../conten  @.../content YWJj@.../content YWJj.";

/// The byte of a character of the table.
fn byte_of(sign: u8) -> u8 {
    match sign {
        b'@' => 0xa5,
        b'.' => 0,
        b'/' => 12,
        b',' => 13,
        other => other,
    }
}

fn image_of(alloc: Global, text: &str) -> Result<Bytes, WantOfMemory> {
    let mut image = Bytes::new(alloc);
    'signs: for sign in text.as_bytes() {
        image.push_all(alloc, &[byte_of(*sign)])?;
    }
    Ok(image)
}

/// The result of opening an image, in the table's words.
fn seen(alloc: Global, image: &[u8]) -> Result<String, WantOfMemory> {
    let mut disk = disk_of(alloc, image, u64::MAX)?;
    match open_journal(alloc, &mut disk) {
        Ok((journal, records)) => {
            let len = records.len();
            let end = journal.end();
            Ok(format!(in alloc; "{len} {end}")?)
        }
        Err(JournalRefused::Damaged) => Ok(format!(in alloc; "damaged")?),
        Err(_refused) => Ok(format!(in alloc; "refused")?),
    }
}

/// The table's word for the result of a read.
fn word_of(came: Result<Option<Bytes>, JournalRefused>) -> &'static str {
    match came {
        Ok(Some(_body)) => "record",
        Ok(None) => "none",
        Err(JournalRefused::Damaged) => "damaged",
        Err(_refused) => "refused",
    }
}

/// The results of the first two reads of an image, in the table's words.
fn coming(alloc: Global, image: &[u8]) -> Result<String, WantOfMemory> {
    let mut disk = disk_of(alloc, image, u64::MAX)?;
    match Opening::begin(alloc, &mut disk) {
        Ok(mut opening) => {
            let first = word_of(opening.next(alloc, &mut disk));
            let then = word_of(opening.next(alloc, &mut disk));
            Ok(format!(in alloc; "{first} {then}")?)
        }
        Err(_refused) => Ok(format!(in alloc; "refused")?),
    }
}

/// An image after the line is appended.
fn appended(alloc: Global, image: &[u8]) -> Result<Bytes, WantOfMemory> {
    let mut disk = disk_of(alloc, image, u64::MAX)?;
    let _done = append_line(alloc, &mut disk, b"content YWJj");
    disk.crash(alloc, Pick::New)
}

/// The results in a table for an image.
#[derive(Clone, Copy)]
enum Told {
    Opened,
    Coming,
    Appended,
}

fn is_so(alloc: Global, told: Told, line: &str) -> Result<bool, WantOfMemory> {
    let Some((image, want)) = line.split_once("  ") else {
        return Ok(false);
    };
    let image = image_of(alloc, image)?;
    let image = image.as_slice();
    match told {
        Told::Opened => Ok(seen(alloc, image)?.as_str() == want),
        Told::Coming => Ok(coming(alloc, image)?.as_str() == want),
        Told::Appended => {
            let want = image_of(alloc, want)?;
            Ok(appended(alloc, image)?.as_slice() == want.as_slice())
        }
    }
}

/// The first line of a table with another result.
fn first_other(
    alloc: Global,
    told: Told,
    table: &'static str,
) -> Result<Option<&'static str>, WantOfMemory> {
    'lines: for line in table.lines() {
        if !is_so(alloc, told, line)? {
            return Ok(Some(line));
        }
    }
    Ok(None)
}

fn holds(alloc: Global, told: Told, table: &'static str) -> Result<(), Fail> {
    match first_other(alloc, told, table)? {
        Some(line) => Err(Fail::from(line)),
        None => Ok(()),
    }
}

#[test]
fn an_image_is_opened_or_damaged(rt: HostRuntime) -> Result<(), Fail> {
    holds(rt.alloc(), Told::Opened, OPENED)
}

#[test]
fn records_come_before_the_damage(rt: HostRuntime) -> Result<(), Fail> {
    holds(rt.alloc(), Told::Coming, COMING)
}

#[test]
fn a_record_comes_over_what_was_torn(rt: HostRuntime) -> Result<(), Fail> {
    holds(rt.alloc(), Told::Appended, APPENDED)
}
