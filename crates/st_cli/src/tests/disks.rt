use crate::tests::support::{disk_of, run_on};
use st_base::{Bytes, WantOfMemory};
use st_io::{Disk, Pick};
use std::alloc::Global;
use std::test::Fail;

const FILE: &str = "content YWJj\n";

const HAVE: &str = "have EiC6eBa_jwHP6kFBQN5driIjsANho5YXepy0EP9h8gAVrQ\n";

const HAD: &str = "had EiC6eBa_jwHP6kFBQN5driIjsANho5YXepy0EP9h8gAVrQ\n";

// The journal of that line: an open gate, the length of the line, the line, and a closed gate.
const RECORD: &[u8] = b"\xa5\x00\x00\x00\x0ccontent YWJj\x00";

// A gate is open, and one byte too few follow it.
const DAMAGED: &[u8] = b"\xa5\x00\x00\x00\x0dcontent YWJj\x00";

// Whether a run over this disk ends like this.
fn ends_on<D: Disk>(
    rt: &HostRuntime,
    words: &str,
    disk: &mut D,
    input: &str,
    status: u8,
    written: &str,
) -> Result<bool, WantOfMemory> {
    let (ending, bytes) = run_on(rt, words, input.as_bytes(), disk)?;
    Ok(ending == status && bytes.as_slice() == written.as_bytes())
}

// Whether a run from this image ends like this, and leaves that one.
fn leaves(
    rt: &HostRuntime,
    image: &[u8],
    status: u8,
    written: &str,
    left: &[u8],
) -> Result<bool, WantOfMemory> {
    let mut disk = disk_of(rt.alloc(), image, 0)?;
    let ended = ends_on(rt, "node --journal", &mut disk, FILE, status, written)?;
    let now = disk.crash(rt.alloc(), Pick::Old)?;
    Ok(ended && now.as_slice() == left)
}

fn keeps_the_journal(rt: &HostRuntime) -> Result<bool, WantOfMemory> {
    Ok(
        leaves(rt, b"", 0, HAVE, RECORD)?
            && leaves(rt, RECORD, 0, HAD, RECORD)?
            && leaves(rt, DAMAGED, 7, "", DAMAGED)?,
    )
}

#[test]
fn a_changing_line_is_recorded_and_a_damaged_journal_is_left(rt: HostRuntime) -> Result<(), Fail> {
    assert!(rt; keeps_the_journal(&rt)?);
    Ok(())
}

const WALLET: &str = "key -
format 9 5 07070707070707070707070707070707 0a0a0a0a0a0a0a0a0a0a0a0a0a0a0a0a0b0b0b0b0b0b0b0b0b0b0b0b0b0b0b0b
left
";

const WALLET_REPLIES: &str = "refused blank
refused line number
refused blank
";

// A whole gate byte, and nothing after it.
fn open_gate(alloc: Global) -> Result<Bytes, WantOfMemory> {
    let mut image = vec![in alloc; 0u8; 64]?;
    image[0] = 0xa5;
    Ok(Bytes::from_vec(image))
}

fn wallets(rt: &HostRuntime) -> Result<bool, WantOfMemory> {
    let alloc = rt.alloc();
    let gate = open_gate(alloc)?;
    Ok(
        ends_on(
            rt,
            "wallet",
            &mut disk_of(alloc, b"", 0)?,
            WALLET,
            0,
            WALLET_REPLIES,
        )? && ends_on(
            rt,
            "wallet",
            &mut disk_of(alloc, gate.as_slice(), 0)?,
            "left",
            0,
            "refused damaged\n",
        )?,
    )
}

#[test]
fn a_wallet_is_what_its_disk_is(rt: HostRuntime) -> Result<(), Fail> {
    assert!(rt; wallets(&rt)?);
    Ok(())
}
