use st_base::{Bytes, Copied, List, Shared};
use st_canon::{Json, PackedJson, read, write};
use st_plain::canonical_text;
use std::test::Fail;

// The delta of a create that another program made.
const DELTA: &str =
    "{\"patches\":[],\"updateCommitment\":\"EiA-HpZ-m3k-kI-OroPHTbqbzMzmpVNbS0Yr2ZlFN7_hXA\"}";

// This many lists, each in the previous one.
fn nested(rt: &HostRuntime, levels: u32) -> Result<Json, Fail> {
    let mut value = Json::List(List::new(rt.alloc()));
    for _ in 1..levels {
        let mut items = List::new(rt.alloc());
        items.push(rt.alloc(), value)?;
        value = Json::List(items);
    }
    Ok(value)
}

fn packed_copy(rt: &HostRuntime, value: &Json) -> Result<PackedJson, Fail> {
    let packed = PackedJson::pack(rt.alloc(), value)?;
    Ok(packed.copy(rt.alloc())?)
}

// Whether it is unpacked as a value with this canonical text.
fn comes_out(rt: &HostRuntime, packed: &PackedJson, text: &Bytes) -> Result<bool, Fail> {
    let value = packed.unpack(rt.alloc())?;
    let found = write(rt.alloc(), &value)?;
    Ok(found.as_slice() == text.as_slice())
}

// Whether a value of this length is unpacked unchanged, and its text, if it is stored as text.
fn is(rt: &HostRuntime, packed: &PackedJson, value: &Json, long: u64) -> Result<bool, Fail> {
    let text = write(rt.alloc(), value)?;
    let is_text = match packed.text() {
        Some(kept) => kept == text.as_slice(),
        None => long > 254,
    };
    Ok(packed.size() == long && is_text && comes_out(rt, packed, &text)?)
}

// The same for a copy.
fn is_kept(rt: &HostRuntime, value: &Json, long: u64) -> Result<bool, Fail> {
    is(rt, &packed_copy(rt, value)?, value, long)
}

#[test]
fn a_delta_is_kept_as_its_text(rt: HostRuntime) -> Result<(), Fail> {
    let value = read(rt.alloc(), DELTA.as_bytes())?;
    assert!(rt; is_kept(&rt, &value, 82)?);
    Ok(())
}

// No text with more than 127 open brackets is read.
#[test]
fn a_value_of_any_depth_comes_out_again(rt: HostRuntime) -> Result<(), Fail> {
    assert!(rt; is_kept(&rt, &nested(&rt, 127)?, 254)?);
    assert!(rt; is_kept(&rt, &nested(&rt, 128)?, 256)?);
    Ok(())
}

// Whether the delta, kept in a file that has its text at 11, comes out again if it is looked for at this place.
fn is_kept_at(rt: &HostRuntime, at: usize) -> Result<bool, Fail> {
    let value = read(rt.alloc(), DELTA.as_bytes())?;
    let kept = canonical_text(rt.alloc(), DELTA.as_bytes())?;
    let text = format!(in rt.alloc(); "{{\"deltas\":[{DELTA}]}}")?;
    let file = Shared::new(rt.alloc(), Bytes::from_slice(rt.alloc(), text.as_bytes())?)?;
    let packed = PackedJson::keep_within(rt.alloc(), kept.as_slice(), &file, at)?;
    is(rt, &packed, &value, 82)
}

#[test]
fn a_delta_may_be_kept_in_its_file(rt: HostRuntime) -> Result<(), Fail> {
    for at in [0, 10, 11, 12, 93, 94, 95, usize::MAX] {
        assert!(rt; is_kept_at(&rt, at)?);
    }
    Ok(())
}
