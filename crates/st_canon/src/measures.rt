ghost use Rattle.std.specs.Fmt.{signed_decimal};
ghost use Rattle.std.specs.List.{flat_map};
ghost use Rattle.std.specs.Prelude.{◌≡◌, [], IfOk, ◌+◌, ◌-◌, ◌^◌, false, length, min};
ghost use Rattle.std.specs.Str.{IsUtf8};
ghost use Rattle.st_plain.specs.Plain.{canonical, canonical_items, canonical_members, comma as comma_text, escape, quoted, IsProper, ItemsAreProper, MembersAreProper};
ghost use Rattle.st_plain.specs.Measures.{depth_of, items_depth, members_depth, size_of, fits};
ghost use Rattle.st_plain.specs.inside.Walk.{saturated, less, room_after};
ghost use Rattle.st_canon.specs.View.{plain, plain_items, plain_members};

use crate::value::{Json, Object};
use itoa::Buffer;
use st_base::{List, WantOfMemory};
use st_plain::split_span;
use std::alloc::Global;

// An empty list with memory for exactly this many items: a list that grows allocates up to twice
// its items.
pub(crate) fn room_for<T>(alloc: Global, places: usize) -> Result<List<T>, WantOfMemory>
    ensures { IfOk result (λ list. list ≡ []) }
{
    Ok(List::from_vec(Vec::with_capacity(alloc, places)?))
}

/// The length of the canonical text of a value, or `u64::MAX` if that is longer.
pub fn size(value: &Json) -> u64
    ensures size { result ≡ min (size_of (plain value.now)) (2 ^ 64 - 1) }
    ensures proper { IsProper (plain value.now) }
{
    add(0, value)
}

// The sum of a size and that of one more value.
#[cycle(add)]
fn add(so_far: u64, value: &Json) -> u64
    ensures size { result ≡ saturated (so_far + length (canonical (plain value.now))) }
    ensures proper { IsProper (plain value.now) }
{
    match value {
        Json::Null => so_far.saturating_add(4),
        Json::Bool(b) => so_far.saturating_add(if *b { 4 } else { 5 }),
        Json::Whole(w) => so_far.saturating_add(digits(w.value())),
        Json::Text(text) => add_text(so_far, text.as_str()),
        Json::List(items) => add_items(so_far.saturating_add(2), items),
        Json::Object(members) => add_members(so_far.saturating_add(2), members),
    }
}

#[cycle(add)]
fn add_items(so_far: u64, items: &List<Json>) -> u64
    ensures size { result ≡ saturated (so_far + length (canonical_items false (plain_items items.now))) }
    ensures proper { ItemsAreProper (plain_items items.now) }
{
    let mut size = so_far;
    let mut comma = false;
    for item in items.as_slice() {
        size = add(size.saturating_add(comma_size(comma)), item);
        comma = true;
    }
    size
}

#[cycle(add)]
#[tactic(auto, using(crate::proofs::TreeLemmas::value_below, crate::proofs::MemberLemmas::one_more_member))]
fn add_members(so_far: u64, members: &Object) -> u64
    ensures size { result ≡ saturated (so_far + length (canonical_members false (plain_members members.now))) }
    ensures proper { MembersAreProper (plain_members members.now) }
{
    let mut size = so_far;
    let mut comma = false;
    for (name, member) in members.pairs() {
        let named = add_text(size.saturating_add(comma_size(comma)), name.as_str());
        size = add(named.saturating_add(1), member);
        comma = true;
    }
    size
}

fn add_text(so_far: u64, text: &str) -> u64
    ensures size { result ≡ saturated (so_far + length (quoted text.now)) }
    ensures utf8 { IsUtf8 text.now }
{
    add_bytes(so_far.saturating_add(2), text.as_bytes())
}

fn add_bytes(so_far: u64, bytes: &[u8]) -> u64
    ensures { result ≡ saturated (so_far + length (flat_map escape bytes.now)) }
{
    let (run, mut rest) = split_span(bytes);
    let mut size = so_far.saturating_add(run.len() as u64);
    while let Some((byte, behind)) = rest.split_first() {
        let (run, after) = split_span(behind);
        size = size
            .saturating_add(escape_size(*byte))
            .saturating_add(run.len() as u64);
        rest = after;
    }
    size
}

fn comma_size(comma: bool) -> u64
    ensures { result ≡ length (comma_text comma) }
{
    if comma { 1 } else { 0 }
}

#[tactic(auto, unfolding(st_plain::specs::Plain::escape))]
pub(crate) fn escape_size(byte: u8) -> u64
    ensures { result ≡ length (escape byte) }
{
    match byte {
        b'"' | b'\\' | 0x08 | b'\t' | b'\n' | 0x0c | b'\r' => 2,
        0..=31 => 6,
        _ => 1,
    }
}

pub(crate) fn digits(value: i64) -> u64
    ensures { result ≡ length (signed_decimal value) }
{
    Buffer::new().format(value).len() as u64
}

/// Whether a value nests no deeper than `max_depth`, and its canonical text has at most `max_size`
/// bytes. It stops at the first limit that is passed.
pub fn fits(value: &Json, max_depth: u64, max_size: u64) -> bool
    ensures { result ≡ fits max_depth max_size (plain value.now) }
{
    room_after(value, max_depth, max_size).is_some()
}

// The room that remains after the value's text, if it fits.
#[cycle(room_after)]
fn room_after(value: &Json, max_depth: u64, room: u64) -> Option<u64>
    ensures { result ≡ room_after max_depth room (depth_of (plain value.now)) (size_of (plain value.now)) }
{
    let depth_inside = max_depth.checked_sub(1)?;
    match value {
        Json::Null => room.checked_sub(4),
        Json::Bool(b) => room.checked_sub(if *b { 4 } else { 5 }),
        Json::Whole(w) => room.checked_sub(digits(w.value())),
        Json::Text(text) => less_text(room, text.as_str()),
        Json::List(items) => room_after_items(items, depth_inside, room.checked_sub(2)?),
        Json::Object(members) => room_after_members(members, depth_inside, room.checked_sub(2)?),
    }
}

#[cycle(room_after)]
fn room_after_items(items: &List<Json>, max_depth: u64, room: u64) -> Option<u64>
    ensures { result ≡ room_after max_depth room (items_depth (plain_items items.now)) (length (canonical_items false (plain_items items.now))) }
{
    let mut left = room;
    let mut comma = false;
    for item in items.as_slice() {
        left = room_after(item, max_depth, less_comma(left, comma)?)?;
        comma = true;
    }
    Some(left)
}

#[cycle(room_after)]
#[tactic(auto, using(crate::proofs::TreeLemmas::value_below))]
fn room_after_members(members: &Object, max_depth: u64, room: u64) -> Option<u64>
    ensures { result ≡ room_after max_depth room (members_depth (plain_members members.now)) (length (canonical_members false (plain_members members.now))) }
{
    let mut left = room;
    let mut comma = false;
    for (name, member) in members.pairs() {
        let named = less_text(less_comma(left, comma)?, name.as_str())?;
        left = room_after(member, max_depth, named.checked_sub(1)?)?;
        comma = true;
    }
    Some(left)
}

fn less_comma(room: u64, comma: bool) -> Option<u64>
    ensures { result ≡ less room (length (comma_text comma)) }
{
    if comma {
        room.checked_sub(1)
    } else {
        Some(room)
    }
}

fn less_text(room: u64, text: &str) -> Option<u64>
    ensures { result ≡ less room (length (quoted text.now)) }
{
    less_bytes(room.checked_sub(2)?, text.as_bytes())
}

fn less_bytes(room: u64, bytes: &[u8]) -> Option<u64>
    ensures { result ≡ less room (length (flat_map escape bytes.now)) }
{
    let (run, mut rest) = split_span(bytes);
    let mut left = room.checked_sub(run.len() as u64)?;
    while let Some((byte, behind)) = rest.split_first() {
        let (run, after) = split_span(behind);
        left = left
            .checked_sub(escape_size(*byte))?
            .checked_sub(run.len() as u64)?;
        rest = after;
    }
    Some(left)
}

/// How deep a value nests, or `u64::MAX` if that is more: a scalar, an empty list and an empty
/// object have depth 1, any other value 1 more than the deepest value in it.
#[cycle(depth)]
pub fn depth(value: &Json) -> u64
    ensures { result ≡ min (depth_of (plain value.now)) (2 ^ 64 - 1) }
{
    match value {
        Json::List(items) => deepest_item(items).saturating_add(1),
        Json::Object(members) => deepest_member(members).saturating_add(1),
        _ => 1,
    }
}

#[cycle(depth)]
fn deepest_item(items: &List<Json>) -> u64
    ensures { result ≡ saturated (items_depth (plain_items items.now)) }
{
    let mut deepest = 0u64;
    for item in items.as_slice() {
        deepest = deepest.max(depth(item));
    }
    deepest
}

#[cycle(depth)]
#[tactic(auto, using(crate::proofs::TreeLemmas::value_below))]
fn deepest_member(members: &Object) -> u64
    ensures { result ≡ saturated (members_depth (plain_members members.now)) }
{
    let mut deepest = 0u64;
    for (_, member) in members.pairs() {
        deepest = deepest.max(depth(member));
    }
    deepest
}
