//! Wallets whose signatures are slow to compute.
mod lives;
mod stops;
mod two_levels;

use st_base::{Bytes, WantOfMemory};
use st_hash::{hash_text, hash256};
use st_io::Disk;
use st_wallet::{Wallet, WalletRefused};
use std::alloc::Global;
use std::test::Fail;

// The first line of a session with another reply than the line after it, if there is one.
fn first_other<D: Disk>(
    alloc: Global,
    disk: &mut D,
    session: &'static str,
) -> Result<Option<&'static str>, WalletRefused> {
    let mut wallet = Wallet::open(disk)?;
    let mut lines = session.lines();
    'lines: while let Some(line) = lines.next() {
        let expected = lines.next().unwrap_or("");
        let (next, reply) = wallet.step(alloc, disk, line.as_bytes())?;
        wallet = next;
        if !is_reply(alloc, &reply, expected)? {
            return Ok(Some(line));
        }
    }
    Ok(None)
}

fn is_reply(alloc: Global, reply: &Bytes, expected: &str) -> Result<bool, WantOfMemory> {
    if let Some(hash) = expected.strip_prefix("hash ") {
        let text = hash_text(alloc, &hash256(reply.as_slice()))?;
        return Ok(text.as_str() == hash);
    }
    let reply = str::from_utf8(reply.as_slice()).unwrap_or("");
    Ok(reply.strip_suffix('\n') == Some(expected))
}

fn judged(other: Result<Option<&'static str>, WalletRefused>) -> Result<(), Fail> {
    match other {
        Ok(None) => Ok(()),
        Ok(Some(line)) => Err(Fail::from(line)),
        Err(_) => Err(Fail::from("no reply")),
    }
}
