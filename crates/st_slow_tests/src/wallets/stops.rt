use super::two_levels::image_with;
use st_base::{Bytes, List, WantOfMemory};
use st_hash::{DecRefused, dec};
use st_io::{Disk, Pick, PlainDisk, ScriptDisk};
use st_wallet::{Wallet, WalletRefused};
use std::alloc::Global;
use std::test::Fail;

// A vault of a type whose signatures are quick to compute, a key, and four requests that are
// signed. Two calls of the disk open it if it is empty, eight make the vault, and two spend each
// counter.
const LINES: &str = "\
format 2 5 07070707070707070707070707070707 0a0a0a0a0a0a0a0a0a0a0a0a0a0a0a0a0b0b0b0b0b0b0b0b0b0b0b0b0b0b0b0b
key -
update EiDjsMRCmPwcFJr79MiZb7kkJ65B5GSbk0yklZkbeFK4VQ - {\"patches\":[],\"updateCommitment\":\"EiDjsMRCmPwcFJr79MiZb7kkJ65B5GSbk0yklZkbeFK4VQ\"}
update EiDjsMRCmPwcFJr79MiZb7kkJ65B5GSbk0yklZkbeFK4VQ - {\"patches\":[],\"updateCommitment\":\"EiDjsMRCmPwcFJr79MiZb7kkJ65B5GSbk0yklZkbeFK4VQ\"}
update EiDjsMRCmPwcFJr79MiZb7kkJ65B5GSbk0yklZkbeFK4VQ - {\"patches\":[],\"updateCommitment\":\"EiDjsMRCmPwcFJr79MiZb7kkJ65B5GSbk0yklZkbeFK4VQ\"}
update EiDjsMRCmPwcFJr79MiZb7kkJ65B5GSbk0yklZkbeFK4VQ - {\"patches\":[],\"updateCommitment\":\"EiDjsMRCmPwcFJr79MiZb7kkJ65B5GSbk0yklZkbeFK4VQ\"}
";

const CALLS: u64 = 2 + 8 + 4 * 2;

// Two signatures of two levels, the first of which is the last of its lower key. Four calls open
// the vault.
const HSS_LINES: &str = "\
sign-hss YWJj
sign-hss YWJj
";

const HSS_CALLS: u64 = 4 + 2 * 2;

const FORMAT: &str = "\
format 4 5 07070707070707070707070707070707 0a0a0a0a0a0a0a0a0a0a0a0a0a0a0a0a0b0b0b0b0b0b0b0b0b0b0b0b0b0b0b0b
";

const UPDATE: &str = "\
update EiDjsMRCmPwcFJr79MiZb7kkJ65B5GSbk0yklZkbeFK4VQ - {\"patches\":[],\"updateCommitment\":\"EiDjsMRCmPwcFJr79MiZb7kkJ65B5GSbk0yklZkbeFK4VQ\"}
";

/// The results of a run over lines: `above` is greater than each counter in its replies, and
/// `whole` says whether it answered all of them.
#[derive(Clone, Copy)]
struct Released {
    above: u32,
    whole: bool,
}

// Runs over lines until the disk fails. `None` if the counters in the replies do not ascend from
// `above` on.
fn run<D: Disk>(
    alloc: Global,
    disk: &mut D,
    lines: &str,
    above: u32,
) -> Result<Option<Released>, WantOfMemory> {
    let mut above = above;
    let mut wallet = match Wallet::open(disk) {
        Ok(wallet) => wallet,
        Err(_) => return Ok(Some(Released {
            above,
            whole: false,
        })),
    };
    'lines: for line in lines.lines() {
        match wallet.step(alloc, disk, line.as_bytes()) {
            Ok((next, reply)) => {
                wallet = next;
                match above_counter(alloc, &reply, above)? {
                    Some(more) => above = more,
                    None => return Ok(None),
                }
            }
            Err(WalletRefused::DiskFault) => return Ok(Some(Released {
                above,
                whole: false,
            })),
            Err(WalletRefused::WantOfMemory) => return Err(WantOfMemory),
        }
    }
    Ok(Some(Released { above, whole: true }))
}

// One more than the counter of the signature in a reply, or `above` if there is none; `None` if the
// counter is less than that.
fn above_counter(alloc: Global, reply: &Bytes, above: u32) -> Result<Option<u32>, WantOfMemory> {
    match counter_in(alloc, reply)? {
        Some(counter) => {
            if counter < above {
                return Ok(None);
            }
            Ok(Some(counter.saturating_add(1)))
        }
        None => Ok(Some(above)),
    }
}

fn counter_in(alloc: Global, reply: &Bytes) -> Result<Option<u32>, WantOfMemory> {
    let text = str::from_utf8(reply.as_slice()).unwrap_or("");
    match text.strip_prefix("hss ") {
        Some(rest) => counter_in_hss(alloc, rest),
        None => counter_in_request(alloc, text),
    }
}

// The counter of a signature of two levels, which follows a space: 32 times the leaf of the top
// key, plus the leaf of the lower key.
fn counter_in_hss(alloc: Global, rest: &str) -> Result<Option<u32>, WantOfMemory> {
    let Some((_public, signature)) = rest.split_once(' ') else {
        return Ok(None);
    };
    match dec(alloc, signature.trim_end().as_bytes()) {
        Ok(bytes) => Ok(counter_of_leaves(bytes.as_slice())),
        Err(DecRefused::WantOfMemory) => Err(WantOfMemory),
        Err(_) => Ok(None),
    }
}

// With LM-OTS type 2 the lower signature is at offset 4,520, and the upper one at 4.
fn counter_of_leaves(signature: &[u8]) -> Option<u32> {
    let top = signature.get(4 + 3)?;
    let lower = signature.get(4520 + 3)?;
    Some(u32::from(*top) * 32 + u32::from(*lower))
}

// The counter of the signature in a request, whose text follows the second dot. The first four
// bytes of a signature are its counter.
fn counter_in_request(alloc: Global, text: &str) -> Result<Option<u32>, WantOfMemory> {
    let Some((_header, rest)) = text.split_once('.') else {
        return Ok(None);
    };
    let Some((_payload, signature)) = rest.split_once('.') else {
        return Ok(None);
    };
    let Some(first) = signature.as_bytes().get(..8) else {
        return Ok(None);
    };
    match dec(alloc, first) {
        Ok(bytes) => Ok(bytes.as_slice().get(3).map(|last| u32::from(*last))),
        Err(DecRefused::WantOfMemory) => Err(WantOfMemory),
        Err(_) => Ok(None),
    }
}

// Whether a run over the same lines continues after a stop that left this, and releases no counter
// again.
fn goes_on(
    alloc: Global,
    disk: &ScriptDisk,
    pick: Pick,
    lines: &str,
    above: u32,
) -> Result<bool, WantOfMemory> {
    let image = disk.crash(alloc, pick)?;
    let mut disk = PlainDisk::new(alloc, image);
    match run(alloc, &mut disk, lines, above)? {
        Some(released) => Ok(released.whole),
        None => Ok(false),
    }
}

// Whether all lines were answered on this disk. `None` if a counter was released twice in this run
// and the runs after a stop at its end.
fn answered_all(
    alloc: Global,
    disk: &mut ScriptDisk,
    lines: &str,
) -> Result<Option<bool>, WantOfMemory> {
    let Some(Released { above, whole }) = run(alloc, disk, lines, 0)? else {
        return Ok(None);
    };
    if goes_on(alloc, disk, Pick::Old, lines, above)?
        && goes_on(alloc, disk, Pick::New, lines, above)?
        && goes_on(alloc, disk, Pick::Fill(0), lines, above)?
        && goes_on(alloc, disk, Pick::Fill(1), lines, above)?
    {
        return Ok(Some(whole));
    }
    Ok(None)
}

fn stopped_after(
    alloc: Global,
    image: &[u8],
    lines: &str,
    last: u64,
) -> Result<Option<bool>, WantOfMemory> {
    let image = Bytes::from_slice(alloc, image)?;
    let mut disk = ScriptDisk::new(alloc, image, List::new(alloc), last);
    answered_all(alloc, &mut disk, lines)
}

// The first number of calls, up to this one, after which all lines are answered over this image,
// and no other stop releases a counter twice.
fn calls_of_all(
    alloc: Global,
    image: &[u8],
    lines: &str,
    most: u64,
) -> Result<Option<u64>, WantOfMemory> {
    for last in 0..=most {
        match stopped_after(alloc, image, lines, last)? {
            Some(true) => return Ok(Some(last)),
            Some(false) => {}
            None => return Ok(None),
        }
    }
    Ok(None)
}

// Lines that request one more counter than the vault has.
fn more_than_all(alloc: Global) -> Result<String, WantOfMemory> {
    let mut lines = String::from_str(alloc, FORMAT)?;
    for _n in 0..33 {
        lines.push_str(UPDATE)?;
    }
    Ok(lines)
}

fn all_released(alloc: Global) -> Result<Option<Released>, WantOfMemory> {
    let lines = more_than_all(alloc)?;
    let mut disk = PlainDisk::new(alloc, Bytes::new(alloc));
    run(alloc, &mut disk, lines.as_str(), 0)
}

#[test]
fn each_counter_is_released_once(rt: HostRuntime) -> Result<(), Fail> {
    match all_released(rt.alloc())? {
        Some(
            Released {
                above: 32,
                whole: true,
            },
        ) => Ok(()),
        _ => Err(Fail::from("not each counter, or one twice")),
    }
}

#[test]
fn no_stop_releases_a_counter_twice(rt: HostRuntime) -> Result<(), Fail> {
    if calls_of_all(rt.alloc(), &[], LINES, CALLS)? == Some(CALLS) {
        return Ok(());
    }
    Err(Fail::from("a counter came twice, or the run was whole at another call"))
}

#[test]
fn no_stop_of_two_levels_releases_a_counter_twice(rt: HostRuntime) -> Result<(), Fail> {
    let image = image_with(rt.alloc(), 31)?;
    if calls_of_all(rt.alloc(), image.as_slice(), HSS_LINES, HSS_CALLS)? == Some(HSS_CALLS) {
        return Ok(());
    }
    Err(Fail::from("a counter came twice, or the run was whole at another call"))
}
