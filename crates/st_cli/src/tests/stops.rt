use crate::tests::stops_files::{JOURNAL, OLD_JOURNAL, OLD_VAULT, Session, VAULT};
use crate::tests::support::{disk_of, run_pieces};
use st_base::{Bytes, WantOfMemory};
use st_io::{Pick, PlainDisk, ScriptDisk};
use st_journal::{JournalRefused, open_journal};
use st_vault::{OpenRefused, open_vault};
use std::alloc::Global;
use std::test::Fail;

// The lines of the sessions that change a journal.
const RECORDS: &[u8] = b"content YWJj\ncontent YWJk\n";

// The bytes of the sessions' vault before its map.
const HEAD: &[u8] =
    b"\xa5\x00\x00\x00\x02\x00\x00\x00\x05an identifier 16the seed of a vault in this test\x00\x00\x00\x00\x00\x00\x00";

// The number of these records, or 9 if they are not the first ones.
fn count_of(alloc: Global, records: &[Bytes]) -> Result<usize, WantOfMemory> {
    let mut lines = Bytes::new(alloc);
    'records: for record in records {
        lines.push_all(alloc, record.as_slice())?;
        lines.push_all(alloc, b"\n")?;
    }
    Ok(if RECORDS.starts_with(lines.as_slice()) {
        records.len()
    } else {
        9
    })
}

fn changes_of_journal(alloc: Global, image: Bytes) -> Result<usize, WantOfMemory> {
    let mut disk = PlainDisk::new(alloc, image);
    match open_journal(alloc, &mut disk) {
        Ok((_journal, records)) => Ok(count_of(alloc, records.as_slice())?),
        Err(JournalRefused::WantOfMemory) => Err(WantOfMemory),
        Err(_) => Ok(9),
    }
}

// A new vault has 32 counters, and the line that makes it is the first change.
fn changes_of_vault(alloc: Global, image: Bytes) -> usize {
    let is_key = image.as_slice().starts_with(HEAD);
    let mut disk = PlainDisk::new(alloc, image);
    match open_vault(&mut disk) {
        Ok(vault) => {
            if is_key {
                33usize.saturating_sub(vault.left() as usize)
            } else {
                9
            }
        }
        Err(OpenRefused::Blank) => 0,
        Err(_) => 9,
    }
}

// How many lines have changed what a stop leaves, or 9 if it is nothing of the session.
fn changes_after(
    alloc: Global,
    session: &Session,
    disk: &ScriptDisk,
    pick: Pick,
) -> Result<usize, WantOfMemory> {
    let image = disk.crash(alloc, pick)?;
    if session.words == "wallet" {
        return Ok(changes_of_vault(alloc, image));
    }
    Ok(changes_of_journal(alloc, image)?)
}

// The number of bytes, if the replies begin with them.
fn count_in(replies: &str, written: &[u8]) -> usize {
    if replies.as_bytes().starts_with(written) {
        written.len()
    } else {
        usize::MAX
    }
}

// The call that fails of this device, or 0 if that is another.
fn failing_of(device: &str, failing: &str, call: u64) -> u64 {
    if device == failing { call } else { 0 }
}

// The end of a row, after the colon, if this call of this device fails.
fn told(
    rt: &HostRuntime,
    session: &Session,
    failing: &str,
    call: u64,
) -> Result<String, WantOfMemory> {
    let alloc = rt.alloc();
    let mut disk = disk_of(alloc, session.image, failing_of("disk", failing, call))?;
    let (status, written) = run_pieces(
        rt,
        session.words,
        session.lines.as_bytes(),
        30,
        failing_of("source", failing, call),
        session.write.max(1),
        failing_of("sink", failing, call),
        &mut disk,
    )?;
    let count = count_in(session.replies, written.as_slice());
    let old = changes_after(alloc, session, &disk, Pick::Old)?;
    let new = changes_after(alloc, session, &disk, Pick::New)?;
    let zeros = changes_after(alloc, session, &disk, Pick::Fill(0))?;
    let ones = changes_after(alloc, session, &disk, Pick::Fill(1))?;
    let gates = changes_after(alloc, session, &disk, Pick::Fill(0xa5))?;
    Ok(format!(in alloc; "{status} {count}, {old} {new} {zeros} {ones} {gates}")?)
}

// The device of a row, its first and its last call, and the end of the row.
fn row_of(row: &str) -> Option<(&str, u64, u64, &str)> {
    let (calls, end) = row.split_once(": ")?;
    let (device, calls) = calls.split_once(' ')?;
    let (first, last) = calls.split_once(' ')?;
    Some((
        device,
        first.parse::<u64>().ok()?,
        last.parse::<u64>().ok()?,
        end,
    ))
}

fn is_so(rt: &HostRuntime, session: &Session, row: &str) -> Result<bool, WantOfMemory> {
    let Some((device, first, last, end)) = row_of(row) else {
        return Ok(false);
    };
    for call in first..=last {
        if told(rt, session, device, call)?.as_str() != end {
            return Ok(false);
        }
    }
    Ok(true)
}

// The first row in which a call leaves another result.
fn first_other(rt: &HostRuntime, session: &Session) -> Result<Option<&'static str>, WantOfMemory> {
    'rows: for row in session.faults.lines() {
        if !is_so(rt, session, row)? {
            return Ok(Some(row));
        }
    }
    Ok(None)
}

fn holds(rt: &HostRuntime, session: &Session) -> Result<(), Fail> {
    match first_other(rt, session)? {
        Some(row) => Err(Fail::from(row)),
        None => Ok(()),
    }
}

// Each change of which a byte of the reply is written is there after a stop, and at most one more.
#[test]
fn a_fault_costs_a_journal_at_most_one_line(rt: HostRuntime) -> Result<(), Fail> {
    holds(&rt, &JOURNAL)?;
    holds(&rt, &OLD_JOURNAL)
}

#[test]
fn a_fault_costs_a_vault_at_most_one_counter(rt: HostRuntime) -> Result<(), Fail> {
    holds(&rt, &VAULT)?;
    holds(&rt, &OLD_VAULT)
}
