use crate::jws::samples::{
    BAD_FORMS, BAD_HEADERS, BAD_PAYLOADS, BAD_SIGNATURES, PAYLOAD, SIGNED, SPACED, SPACED_PAYLOAD,
};
use st_base::{Copied, KeptText, Text, WantOfMemory, Work, read_number};
use st_canon::{Json, read, write};
use st_hash::dec;
use st_jws::{Signed, SignedRefused, join_signed, open_signed, signing_input};
use std::alloc::Global;
use std::test::Fail;

const LIMIT: usize = 13_000;

// Whether this is the refusal of the text, and one proof is counted.
fn is_refused(rt: &HostRuntime, text: &str, limit: usize, refused: SignedRefused) -> bool {
    let Ok(text) = Text::from_text(rt.alloc(), text) else {
        return false;
    };
    let mut work = Work::new(rt);
    match open_signed(rt.alloc(), &KeptText::new(text), limit, &mut work) {
        Ok(_) => false,
        Err(other) => other == refused && work.proofs() == 1,
    }
}

fn each_is_refused(
    rt: &HostRuntime,
    lines: &'static str,
    refused: SignedRefused,
) -> Result<(), Fail> {
    for line in lines.lines() {
        if !is_refused(rt, line, LIMIT, refused) {
            return Err(Fail::from(line));
        }
    }
    Ok(())
}

#[test]
fn the_first_rule_that_fails_is_told(rt: HostRuntime) -> Result<(), Fail> {
    each_is_refused(&rt, BAD_FORMS, SignedRefused::BadForm)?;
    each_is_refused(&rt, BAD_HEADERS, SignedRefused::BadHeader)?;
    each_is_refused(&rt, BAD_PAYLOADS, SignedRefused::BadPayload)?;
    each_is_refused(&rt, BAD_SIGNATURES, SignedRefused::BadSignature)?;
    assert!(rt; is_refused(&rt, "e30.e30.", 8, SignedRefused::BadHeader));
    assert!(rt; is_refused(&rt, "e30.e30.", 5, SignedRefused::BadForm));
    Ok(())
}

fn is_opened(
    alloc: Global,
    opened: &Signed,
    signed: &str,
    payload: &str,
) -> Result<bool, WantOfMemory> {
    let opened = opened.copy(alloc)?;
    let unpacked = opened.payload.unpack(alloc)?;
    let written = write(alloc, &unpacked)?;
    Ok(
        opened.text.as_str() == signed
            && written.as_slice() == payload.as_bytes()
            && opened.key.public.id()
                == *b"\x00\x01\x02\x03\x04\x05\x06\x07\x08\x09\x0a\x0b\x0c\x0d\x0e\x0f",
    )
}

// Whether the text opens to its payload, and one proof is counted.
fn opens(
    rt: &HostRuntime,
    signed: &str,
    limit: usize,
    payload: &str,
) -> Result<bool, WantOfMemory> {
    let text = KeptText::new(Text::from_text(rt.alloc(), signed)?);
    let mut work = Work::new(rt);
    let Ok(opened) = open_signed(rt.alloc(), &text, limit, &mut work) else {
        return Ok(false);
    };
    Ok(
        (work.files(), work.proofs(), work.applies()) == (0, 1, 0)
            && is_opened(rt.alloc(), &opened, signed, payload)?,
    )
}

#[test]
fn a_signed_text_opens_to_its_payload(rt: HostRuntime) -> Result<(), Fail> {
    assert!(rt; opens(&rt, SIGNED, SIGNED.len(), PAYLOAD)?);
    assert!(rt; opens(&rt, SIGNED, LIMIT, PAYLOAD)?);
    assert!(rt; opens(&rt, SPACED, LIMIT, SPACED_PAYLOAD)?);
    Ok(())
}

// The part that is changed, its place in the text, and the new character.
const TURNED: &str = "header 11 N
payload 45 F
number 315 Q
type 320 Z
randomizer 324 n
value 377 V
tree-type 1819 9
path 2032 k
payload-key 258 H";

// The signed text with this character at this place.
fn changed(alloc: Global, place: &str, sign: &str) -> Option<String> {
    let mut bytes = Vec::from_slice(alloc, SIGNED.as_bytes()).ok()?;
    let at = read_number(place.as_bytes(), 10_000)? as usize;
    let byte = sign.as_bytes().first()?;
    if at < bytes.len() {
        bytes[at] = *byte;
    }
    String::from_utf8(bytes).ok()
}

fn is_turned_refused(rt: &HostRuntime, line: &str) -> bool {
    let Some((field, rest)) = line.split_once(' ') else {
        return false;
    };
    let Some((place, sign)) = rest.split_once(' ') else {
        return false;
    };
    let refused = if field == "header" {
        SignedRefused::BadHeader
    } else {
        SignedRefused::BadSignature
    };
    match changed(rt.alloc(), place, sign) {
        Some(text) => is_refused(rt, text.as_str(), LIMIT, refused),
        None => false,
    }
}

#[test]
fn a_turned_bit_is_refused(rt: HostRuntime) -> Result<(), Fail> {
    for line in TURNED.lines() {
        assert!(rt; is_turned_refused(&rt, line), "{line}");
    }
    Ok(())
}

/// Whether this is the signing input of a payload, and joined with a signature the signed text.
fn is_joined(
    alloc: Global,
    payload: &Json,
    input: &str,
    signature: &str,
) -> Result<bool, WantOfMemory> {
    let made = signing_input(alloc, payload)?;
    let Ok(bytes) = dec(alloc, signature.as_bytes()) else {
        return Ok(false);
    };
    let joined = join_signed(alloc, &made, &bytes)?;
    Ok(made.as_slice() == input.as_bytes() && joined.as_str() == SIGNED)
}

fn joins(alloc: Global) -> Result<bool, WantOfMemory> {
    let Some((input, signature)) = SIGNED.rsplit_once('.') else {
        return Ok(false);
    };
    match read(alloc, PAYLOAD.as_bytes()) {
        Ok(payload) => is_joined(alloc, &payload, input, signature),
        Err(_) => Ok(false),
    }
}

#[test]
fn a_payload_and_its_signature_are_joined(rt: HostRuntime) -> Result<(), Fail> {
    assert!(rt; joins(rt.alloc())?);
    Ok(())
}
