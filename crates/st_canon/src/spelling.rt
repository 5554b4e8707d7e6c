ghost use Rattle.std.specs.List.{flat_map};
ghost use Rattle.std.specs.Option.{option_copied};
ghost use Rattle.std.specs.Prelude.{◌≡◌, ◌++◌, OnOk, ◌≤◌, IfOk, Ok, false, option_map};
ghost use Rattle.std.specs.Str.{IsUtf8};
ghost use Rattle.st_plain.specs.Plain.{escape, quoted, canonical, canonical_items, canonical_members, comma as comma_text, IsWhole, Plain, boolean, whole as whole_number, IsProper, ItemsAreProper, MembersAreProper};
ghost use Rattle.st_plain.specs.Measures.{depth_of};
ghost use Rattle.st_plain.specs.Objects.{text_there};
ghost use Rattle.st_plain.specs.Shapes.{json_of};
ghost use Rattle.st_canon.specs.View.{plain, plain_items, plain_members};

use crate::value::{Json, Object};
use st_base::{Bytes, List, WantOfMemory};
use st_plain::Whole;
use std::alloc::Global;
use std::mem;

/// Appends the text as a JSON string: escaped, between quotes.
pub fn append_text(alloc: Global, out: &mut Bytes, text: &str) -> Result<(), WantOfMemory>
    ensures text { OnOk result (out.new ≡ out.old ++ quoted text.now) }
    ensures utf8 { OnOk result (IsUtf8 text.now) }
{
    let mut bytes = mem::replace(out, Bytes::new(alloc)).into_vec();
    let done = st_plain::append_text(&mut bytes, text);
    *out = Bytes::from_vec(bytes);
    Ok(done?)
}

/// Appends the inside of a JSON string. The bytes between two escaped ones are copied at once.
pub fn append_escaped(alloc: Global, out: &mut Bytes, bytes: &[u8]) -> Result<(), WantOfMemory>
    ensures { OnOk result (out.new ≡ out.old ++ flat_map escape bytes.now) }
{
    let mut text = mem::replace(out, Bytes::new(alloc)).into_vec();
    let done = st_plain::append_escaped(&mut text, bytes);
    *out = Bytes::from_vec(text);
    Ok(done?)
}

// Room that most texts do not outgrow, so that they are not moved while they are written: a delta
// has at most 1,000 bytes in version 1, and 2,000 in version 2.
const USUAL: usize = 1_000;

/// The canonical text of a value (RFC 8785), in UTF-8. It has room for at least 1,000 bytes; copy a
/// short one to store it.
pub fn write(alloc: Global, value: &Json) -> Result<Bytes, WantOfMemory>
    ensures text { IfOk result (λ text. text ≡ canonical (plain value.now)) }
    ensures proper { OnOk result (IsProper (plain value.now)) }
    // It is read again as the value, if it does not nest too deep for `serde_json`.
    ensures read { IfOk result (λ text. depth_of (plain value.now) ≤ 127 → json_of text ≡ Ok (plain value.now)) }
    // It can be read only as this value.
    ensures same { IfOk result (λ text. (read : Plain) → json_of text ≡ Ok read → read ≡ plain value.now) }
    // No other value has this text.
    ensures only { IfOk result (λ text. (other : Plain) → IsProper other → canonical other ≡ text → other ≡ plain value.now) }
{
    let mut out = Bytes::with_room(alloc, USUAL)?;
    append(alloc, &mut out, value)?;
    Ok(out)
}

/// Appends the canonical text of a value.
#[cycle(append)]
pub fn append(alloc: Global, out: &mut Bytes, value: &Json) -> Result<(), WantOfMemory>
    ensures text { OnOk result (out.new ≡ out.old ++ canonical (plain value.now)) }
    ensures proper { OnOk result (IsProper (plain value.now)) }
{
    match value {
        Json::Null => out.push_all(alloc, b"null"),
        Json::Bool(b) => append_bool(alloc, out, *b),
        Json::Whole(w) => append_whole(alloc, out, *w),
        Json::Text(text) => append_text(alloc, out, text.as_str()),
        Json::List(items) => {
            out.push_all(alloc, b"[")?;
            append_items(alloc, out, items)?;
            out.push_all(alloc, b"]")
        }
        Json::Object(members) => {
            out.push_all(alloc, b"{")?;
            append_members(alloc, out, members)?;
            out.push_all(alloc, b"}")
        }
    }
}

#[cycle(append)]
fn append_items(alloc: Global, out: &mut Bytes, items: &List<Json>) -> Result<(), WantOfMemory>
    ensures text { OnOk result (out.new ≡ out.old ++ canonical_items false (plain_items items.now)) }
    ensures proper { OnOk result (ItemsAreProper (plain_items items.now)) }
{
    let mut comma = false;
    for item in items.as_slice() {
        append_comma(alloc, out, comma)?;
        append(alloc, out, item)?;
        comma = true;
    }
    Ok(())
}

#[cycle(append)]
#[tactic(auto, using(crate::proofs::TreeLemmas::value_below, crate::proofs::MemberLemmas::one_more_member))]
fn append_members(alloc: Global, out: &mut Bytes, members: &Object) -> Result<(), WantOfMemory>
    ensures text { OnOk result (out.new ≡ out.old ++ canonical_members false (plain_members members.now)) }
    ensures proper { OnOk result (MembersAreProper (plain_members members.now)) }
{
    let mut comma = false;
    for (name, member) in members.pairs() {
        append_comma(alloc, out, comma)?;
        append_text(alloc, out, name.as_str())?;
        out.push_all(alloc, b":")?;
        append(alloc, out, member)?;
        comma = true;
    }
    Ok(())
}

/// Appends the text of an optional value between these texts, or nothing if it is absent.
pub fn append_there(
    alloc: Global,
    out: &mut Bytes,
    front: &[u8],
    there: Option<&Json>,
    back: &[u8],
) -> Result<(), WantOfMemory>
    ensures { OnOk result (out.new ≡ out.old ++ text_there front.now (option_map plain (option_copied there.entry)) back.now) }
{
    match there {
        Some(value) => {
            out.push_all(alloc, front)?;
            append(alloc, out, value)?;
            out.push_all(alloc, back)
        }
        None => Ok(()),
    }
}

/// Appends the comma before an element that is not the first.
pub fn append_comma(alloc: Global, out: &mut Bytes, comma: bool) -> Result<(), WantOfMemory>
    ensures { OnOk result (out.new ≡ out.old ++ comma_text comma) }
{
    if comma {
        out.push_all(alloc, b",")
    } else {
        Ok(())
    }
}

pub(crate) fn append_bool(alloc: Global, out: &mut Bytes, b: bool) -> Result<(), WantOfMemory>
    ensures { OnOk result (out.new ≡ out.old ++ canonical (boolean b)) }
{
    if b {
        out.push_all(alloc, b"true")
    } else {
        out.push_all(alloc, b"false")
    }
}

pub(crate) fn append_whole(alloc: Global, out: &mut Bytes, whole: Whole) -> Result<(), WantOfMemory>
    ensures text { OnOk result (out.new ≡ out.old ++ canonical (whole_number whole)) }
    ensures proper { OnOk result (IsWhole whole) }
{
    let digits = whole.value().to_string(alloc)?;
    out.push_all(alloc, digits.as_bytes())
}
