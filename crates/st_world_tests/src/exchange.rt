use crate::words::three;
use st_base::{Bytes, WantOfMemory};
use st_content::Content;
use st_exchange::{Answer, DecodeRefused, Message, answer, ask, decode, encode};
use st_hash::{DecRefused, Hash, dec, enc, read_hash};
use std::alloc::Global;
use std::collections::BTreeSet;
use std::test::Fail;

// A message, the wanted URIs, the messages that are sent back, and the bytes that are stored, or
// `bad` for bytes that are not a message. Messages and files are in base64url; the files that are
// there are `abc`, `{}` and the empty one. All was computed with Python's hashlib, base64 and
// struct.
const ANSWERS: &str = "\
AQAAAAG6eBa_jwHP6kFBQN5driIjsANho5YXepy0EP9h8gAVrQ - A2FiYw -
AQAAAAZEE2-jVbNnihFGrRb36GSelPtPwh_nfoMQwGD2HKr_irp4Fr-PAc_qQUFA3l2uIiOwA2Gjlhd6nLQQ_2HyABWtRBNvo1WzZ4oRRq0W9-hknpT7T8If536DEMBg9hyq_4rZKYoQ0bBzWDfcS9hdrGQbDzzvJ6R-XVOlTy8_Wy_P-rp4Fr-PAc_qQUFA3l2uIiOwA2Gjlhd6nLQQ_2HyABWt47DEQpj8HBSa-_TImW-5JCeuQeRkm5NMpJWZG3hSuFU EiC6eBa_jwHP6kFBQN5driIjsANho5YXepy0EP9h8gAVrQ A3t9,A2FiYw,Aw -
AQAAAAHZKYoQ0bBzWDfcS9hdrGQbDzzvJ6R-XVOlTy8_Wy_P-g - - -
AQAAAAA - - -
AgAAAAG6eBa_jwHP6kFBQN5driIjsANho5YXepy0EP9h8gAVrQ EiC6eBa_jwHP6kFBQN5driIjsANho5YXepy0EP9h8gAVrQ AQAAAAG6eBa_jwHP6kFBQN5driIjsANho5YXepy0EP9h8gAVrQ -
AgAAAAXZKYoQ0bBzWDfcS9hdrGQbDzzvJ6R-XVOlTy8_Wy_P-rp4Fr-PAc_qQUFA3l2uIiOwA2Gjlhd6nLQQ_2HyABWtRBNvo1WzZ4oRRq0W9-hknpT7T8If536DEMBg9hyq_4q6eBa_jwHP6kFBQN5driIjsANho5YXepy0EP9h8gAVrdkpihDRsHNYN9xL2F2sZBsPPO8npH5dU6VPLz9bL8_6 EiC6eBa_jwHP6kFBQN5driIjsANho5YXepy0EP9h8gAVrQ,EiDZKYoQ0bBzWDfcS9hdrGQbDzzvJ6R-XVOlTy8_Wy_P-g AQAAAATZKYoQ0bBzWDfcS9hdrGQbDzzvJ6R-XVOlTy8_Wy_P-rp4Fr-PAc_qQUFA3l2uIiOwA2Gjlhd6nLQQ_2HyABWtungWv48Bz-pBQUDeXa4iI7ADYaOWF3qctBD_YfIAFa3ZKYoQ0bBzWDfcS9hdrGQbDzzvJ6R-XVOlTy8_Wy_P-g -
AgAAAALZKYoQ0bBzWDfcS9hdrGQbDzzvJ6R-XVOlTy8_Wy_P-kQTb6NVs2eKEUatFvfoZJ6U-0_CH-d-gxDAYPYcqv-K EiC6eBa_jwHP6kFBQN5driIjsANho5YXepy0EP9h8gAVrQ - -
AgAAAAA EiC6eBa_jwHP6kFBQN5driIjsANho5YXepy0EP9h8gAVrQ - -
A2FiYw EiC6eBa_jwHP6kFBQN5driIjsANho5YXepy0EP9h8gAVrQ - YWJj
A2FiYw EiBEE2-jVbNnihFGrRb36GSelPtPwh_nfoMQwGD2HKr_ig,EiC6eBa_jwHP6kFBQN5driIjsANho5YXepy0EP9h8gAVrQ - YWJj
A2FiYw EiBEE2-jVbNnihFGrRb36GSelPtPwh_nfoMQwGD2HKr_ig - -
A3t9 - - -
 - bad -
_w - bad -
AA - bad -
BGFiYw - bad -
AQ - bad -
AQAAAA - bad -
AgAAAAE - bad -
AQAAAAG6eBa_jwHP6kFBQN5driIjsANho5YXepy0EP9h8gAV - bad -
AQAAAAG6eBa_jwHP6kFBQN5driIjsANho5YXepy0EP9h8gAVrXg - bad -
AQAAAAB4 - bad -
AgAAAAK6eBa_jwHP6kFBQN5driIjsANho5YXepy0EP9h8gAVrQ - bad -
";

#[test]
fn each_message_has_its_answer(rt: HostRuntime) -> Result<(), Fail> {
    match first_other(rt.alloc())? {
        Some(line) => Err(Fail::from(line)),
        None => Ok(()),
    }
}

#[test]
fn a_message_keeps_to_its_limits(rt: HostRuntime) -> Result<(), Fail> {
    assert!(rt; limits_hold(rt.alloc())?);
    Ok(())
}

// The first line with another answer.
fn first_other(alloc: Global) -> Result<Option<&'static str>, WantOfMemory> {
    let mut content = Content::new(alloc);
    for file in ["abc", "{}", ""] {
        let (_uri, _put) = content.put(alloc, Bytes::from_slice(alloc, file.as_bytes())?)?;
    }
    for line in ANSWERS.lines() {
        if !is_answered(alloc, &content, line)? {
            return Ok(Some(line));
        }
    }
    Ok(None)
}

fn is_answered(alloc: Global, content: &Content, line: &str) -> Result<bool, WantOfMemory> {
    let Some((text, wanted, told)) = three(line) else {
        return Ok(false);
    };
    let bytes = decoded(alloc, text)?;
    let wanted = uris(alloc, wanted)?;
    match decode(alloc, bytes.as_slice()) {
        Ok(message) => {
            let answer = answer(alloc, content, &wanted, &message)?;
            let spelled = encode(alloc, &message)?;
            Ok(is_told(alloc, &answer, told)? && spelled.as_slice() == bytes.as_slice())
        }
        Err(DecodeRefused::BadMessage) => Ok(told == "bad -"),
        Err(DecodeRefused::WantOfMemory) => Err(WantOfMemory),
    }
}

// Whether this is sent and stored.
fn is_told(alloc: Global, answer: &Answer, told: &str) -> Result<bool, WantOfMemory> {
    let Some((sent, kept)) = told.split_once(' ') else {
        return Ok(false);
    };
    let keeps = match &answer.keep {
        Some(bytes) => enc(alloc, bytes.as_slice())?.as_str() == kept,
        None => kept == "-",
    };
    Ok(keeps && are_sent(alloc, answer.send.as_slice(), sent)?)
}

fn are_sent(alloc: Global, messages: &[Message], sent: &str) -> Result<bool, WantOfMemory> {
    if messages.is_empty() {
        return Ok(sent == "-");
    }
    let mut texts = sent.split(',');
    for message in messages {
        if !is_sent(alloc, message, texts.next().unwrap_or(""))? {
            return Ok(false);
        }
    }
    Ok(texts.next().is_none())
}

fn is_sent(alloc: Global, message: &Message, text: &str) -> Result<bool, WantOfMemory> {
    let bytes = decoded(alloc, text)?;
    match decode(alloc, bytes.as_slice()) {
        Ok(expected) => Ok(is_same(&expected, message)),
        Err(_) => Ok(false),
    }
}

fn is_same(first: &Message, second: &Message) -> bool {
    match (first, second) {
        (Message::Want(uris), Message::Want(others)) => uris.as_slice() == others.as_slice(),
        (Message::Have(uris), Message::Have(others)) => uris.as_slice() == others.as_slice(),
        (Message::Blob(bytes), Message::Blob(others)) => bytes.as_slice() == others.as_slice(),
        _ => false,
    }
}

// The bytes of a base64url text, or none.
fn decoded(alloc: Global, text: &str) -> Result<Bytes, WantOfMemory> {
    match dec(alloc, text.as_bytes()) {
        Ok(bytes) => Ok(bytes),
        Err(DecRefused::BadBase64) => Ok(Bytes::new(alloc)),
        Err(DecRefused::WantOfMemory) => Err(WantOfMemory),
    }
}

// The hashes of these texts; `-` is none.
fn uris(alloc: Global, texts: &str) -> Result<BTreeSet<Hash>, WantOfMemory> {
    let mut uris = BTreeSet::new(alloc);
    for text in texts.split(',') {
        if let Ok(uri) = read_hash(text.as_bytes()) {
            uris.insert(uri)?;
        }
    }
    Ok(uris)
}

// A list has at most 1,000 digests and a blob at most 16,000,000 bytes, and a node asks for at most
// 1,000 files.
fn limits_hold(alloc: Global) -> Result<bool, WantOfMemory> {
    Ok(
        lists(alloc, b"\x01\x00\x00\x00\x00", 0)?
            && lists(alloc, b"\x02\x00\x00\x03\xe8", 1_000)?
            && !lists(alloc, b"\x01\x00\x00\x03\xe9", 1_001)?
            && is_blob(alloc, 16_000_000)?
            && !is_blob(alloc, 16_000_001)?
            && asks_for(alloc, 1_000, 1_000)?
            && asks_for(alloc, 1_001, 1_000)?,
    )
}

// Whether this many digests after these bytes are a message, which then lists as many.
fn lists(alloc: Global, head: &[u8], digests: usize) -> Result<bool, WantOfMemory> {
    let mut bytes = Vec::from_slice(alloc, head)?;
    bytes.resize(head.len().saturating_add(digests.saturating_mul(32)), 7)?;
    match decode(alloc, bytes.as_slice()) {
        Ok(Message::Want(uris)) => Ok(uris.len() == digests),
        Ok(Message::Have(uris)) => Ok(uris.len() == digests),
        Ok(Message::Blob(_)) => Ok(false),
        Err(_) => Ok(false),
    }
}

// Whether this many bytes are a blob.
fn is_blob(alloc: Global, length: usize) -> Result<bool, WantOfMemory> {
    let bytes = vec![in alloc; 3u8; length.saturating_add(1)]?;
    match decode(alloc, bytes.as_slice()) {
        Ok(Message::Blob(bytes)) => Ok(bytes.as_slice().len() == length),
        _ => Ok(false),
    }
}

// Whether a node that wants this many files asks for that many.
fn asks_for(alloc: Global, wanted: usize, asked: usize) -> Result<bool, WantOfMemory> {
    let wanted = vec![in alloc; Hash::of_sha256([7; 32]); wanted]?;
    match ask(alloc, wanted.as_slice())? {
        Message::Want(uris) => Ok(uris.len() == asked),
        _ => Ok(false),
    }
}
