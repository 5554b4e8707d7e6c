use crate::words::three;
use st_base::{Bytes, Copied, WantOfMemory, read_number};
use st_hash::read_hash;
use st_ledger::{Entry, Ledger, LedgerRefused, read_anchor};
use st_params::{Params, Schedule};
use std::alloc::Global;
use std::test::Fail;

// The hash text of `{}`.
const URI: &str = "EiBEE2-jVbNnihFGrRb36GSelPtPwh_nfoMQwGD2HKr_ig";

// A hash text of SHA-512.
const SHA_512: &str =
    "E0DdrzWhk2F6usxBc0muIEExEub6TompfqIKnu7mS1XTmiGSmSonT8GoNro8I6P-671FTUQjZDzoDiqayU-lTKSf";

fn is_appended(
    alloc: Global,
    ledger: &mut Ledger,
    height: u32,
    number: u32,
) -> Result<bool, WantOfMemory> {
    if ledger.admits(height).is_err() {
        return Ok(false);
    }
    let text = Bytes::from_slice(alloc, b"text")?;
    Ok(ledger.append(alloc, height, text)? == number)
}

fn is_entry(alloc: Global, entry: Option<&Entry>, height: u32) -> Result<bool, WantOfMemory> {
    let Some(entry) = entry else {
        return Ok(false);
    };
    let copied = entry.copy(alloc)?;
    Ok(copied.height == height && copied.text.as_slice() == b"text".as_slice())
}

fn is_filled(alloc: Global, ledger: &mut Ledger) -> Result<bool, WantOfMemory> {
    Ok(
        ledger.len() == 0
            && ledger.last_height() == 0
            && is_appended(alloc, ledger, 5, 0)?
            && is_appended(alloc, ledger, 5, 1)?
            && is_appended(alloc, ledger, 9, 2)?,
    )
}

fn admits_no_fall(ledger: &Ledger) -> bool {
    ledger.admits(8) == Err(LedgerRefused::HeightFalls(9))
        && ledger.admits(9) == Ok(())
        && ledger.entries().len() == 3
        && ledger.entry(3).is_none()
}

fn is_cut(ledger: &mut Ledger) -> bool {
    ledger.len() == 3
        && ledger.cut(1) == 2
        && ledger.len() == 1
        && ledger.last_height() == 5
        && ledger.admits(5) == Ok(())
}

fn never_falls(alloc: Global) -> Result<bool, WantOfMemory> {
    let mut ledger = Ledger::new(alloc);
    Ok(
        is_filled(alloc, &mut ledger)?
            && admits_no_fall(&ledger)
            && is_entry(alloc, ledger.entry(2), 9)?
            && is_cut(&mut ledger),
    )
}

#[test]
fn heights_never_fall_and_a_cut_takes_them_back(rt: HostRuntime) -> Result<(), Fail> {
    assert!(rt; never_falls(rt.alloc())?);
    Ok(())
}

// The version, the rule or the count, and the text, in which * is the URI and # a hash text of
// SHA-512.
const CASES: &str = "1 A1 
1 A1 1
1 A1 *
1 A2 .
1 A2 .*
1 A2 0.*
1 A2 01.*
1 A2 +1.*
1 A2 1001.*
1 A2 1001.x
1 A3 1.
1 A3 1.x
1 A3 1.*.
1 A3 1..*
1 A3 1.#
1 1 1.*
1 1000 1000.*
2 1001 1001.*
2 5000 5000.*
2 A2 5001.*
2 A3 1.#";

fn is_read(text: &[u8], params: &Params, wanted: &str) -> bool {
    match read_anchor(text, params) {
        Ok(anchor) => {
            Ok(anchor.core) == read_hash(URI.as_bytes())
                && read_number(wanted.as_bytes(), 10_000) == Some(anchor.count)
        }
        Err(rule) => rule.name() == wanted,
    }
}

fn is_so(alloc: Global, case: &str) -> Result<bool, WantOfMemory> {
    let Some((version, wanted, text)) = three(case) else {
        return Ok(false);
    };
    let text = text.replace(alloc, "*", URI)?;
    let text = text.replace(alloc, "#", SHA_512)?;
    let params = Schedule::with_second(2).at(if version == "1" { 1 } else { 2 });
    Ok(is_read(text.as_bytes(), &params, wanted))
}

#[test]
fn an_anchor_string_fails_its_first_rule(rt: HostRuntime) -> Result<(), Fail> {
    for case in CASES.lines() {
        assert!(rt; is_so(rt.alloc(), case)?, "{case}");
    }
    Ok(())
}
