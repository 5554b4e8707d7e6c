ghost use Rattle.std.specs.Borrow.{sem};
ghost use Rattle.std.specs.Option.{option_copied, option_copied_mut};
ghost use Rattle.std.specs.Prelude.{◌≡◌, ◌≤◌, option_and_then, IfSome, option_map, IfOk, Some};
ghost use Rattle.std.specs.Str.{all_ascii_digits};
ghost use Rattle.st_plain.specs.Objects.{member_at};
ghost use Rattle.st_canon.specs.View.{plain, plain_items, plain_members};
ghost use Rattle.st_jsonpatch.specs.Pointer.{index_of, is_index, item_at};
ghost use Rattle.st_jsonpatch.specs.Edited.{at_most, items_after, place_in, put_new, set_to, take_out, members_after};
ghost use Rattle.st_jsonpatch.specs.inside.Changed.{plain_act, Changes, HandsOut, LendsItem};

use crate::edits::Action;
use crate::steps::ChangeRefused;
use st_base::List;
use st_canon::{Json, Object};
use std::alloc::Global;

// The index of a token, if it is at most `most`.
pub(crate) fn read_index(token: &str, most: usize) -> Option<usize>
    ensures index { result ≡ option_and_then (at_most most) (index_of token.now) }
    ensures within { IfSome result (λ at. at ≤ most) }
{
    if !is_index(token.as_bytes()) {
        return None;
    }
    match token.parse::<usize>() {
        Ok(index) => if index <= most { Some(index) } else { None },
        Err(_) => None,
    }
}

fn is_index(token: &[u8]) -> bool
    ensures { result ≡ is_index token.now }
{
    match token {
        [] => false,
        [b'0', _, ..] => false,
        _ => all_digits(token),
    }
}

fn all_digits(token: &[u8]) -> bool
    ensures { result ≡ all_ascii_digits token.now }
{
    for byte in token {
        if !byte.is_ascii_digit() {
            return false;
        }
    }
    true
}

pub(crate) fn item<'a>(items: &'a List<Json>, token: &str) -> Option<&'a Json>
    ensures { option_map plain (option_copied result) ≡ item_at token.now (plain_items items.now) }
{
    match read_index(token, items.len()) {
        Some(at) => items.get(at),
        None => None,
    }
}

// A mutable reference to the item that a token selects.
pub(crate) fn item_mut<'a>(items: &'a mut List<Json>, token: &str) -> Option<&'a mut Json>
    ensures* writes_back { sem 𝓛 (LendsItem items.entry token.now result) }
    ensures item { option_map plain (option_copied_mut result) ≡ item_at token.now (plain_items items.old) }
{
    let length = items.len();
    match read_index(token, length) {
        Some(at) => items.get_mut(at),
        None => None,
    }
}

// Applies the action to the list, at the item that the token selects.
pub(crate) fn act_on_items(
    alloc: Global,
    items: &mut List<Json>,
    token: &str,
    action: Action,
) -> Result<Option<Json>, ChangeRefused>
    ensures items { Changes (items_after (plain_act action) token.now (plain_items items.old)) (plain_items items.new) result }
    ensures out { HandsOut (plain_act action) (item_at token.now (plain_items items.old)) result }
{
    match action {
        Action::Put(new) => {
            insert_item(alloc, items, token, new)?;
            Ok(None)
        }
        Action::Take => {
            let item = take_item(items, token)?;
            Ok(Some(item))
        }
        Action::Set(new) => {
            set_item(items, token, new)?;
            Ok(None)
        }
    }
}

fn insert_item(
    alloc: Global,
    items: &mut List<Json>,
    token: &str,
    new: Json,
) -> Result<(), ChangeRefused>
    ensures { Changes (items_after (put_new (plain new)) token.now (plain_items items.old)) (plain_items items.new) result }
{
    match place_in(token, items.len()) {
        Some(at) => {
            items.insert(alloc, at, new)?;
            Ok(())
        }
        None => Err(ChangeRefused::Fails),
    }
}

// The place for an item in a list of this length.
fn place_in(token: &str, length: usize) -> Option<usize>
    ensures place { result ≡ place_in length token.now }
    ensures within { IfSome result (λ at. at ≤ length) }
{
    if token == "-" {
        Some(length)
    } else {
        read_index(token, length)
    }
}

fn take_item(items: &mut List<Json>, token: &str) -> Result<Json, ChangeRefused>
    ensures items { Changes (items_after take_out token.now (plain_items items.old)) (plain_items items.new) result }
    ensures out { IfOk result (λ item. item_at token.now (plain_items items.old) ≡ Some (plain item)) }
{
    let length = items.len();
    match read_index(token, length) {
        Some(at) => if at < length {
            Ok(items.remove(at))
        } else {
            Err(ChangeRefused::Fails)
        },
        None => Err(ChangeRefused::Fails),
    }
}

fn set_item(items: &mut List<Json>, token: &str, new: Json) -> Result<(), ChangeRefused>
    ensures { Changes (items_after (set_to (plain new)) token.now (plain_items items.old)) (plain_items items.new) result }
{
    match item_mut(items, token) {
        Some(item) => {
            *item = new;
            Ok(())
        }
        None => Err(ChangeRefused::Fails),
    }
}

// Applies the action to the object, at the member that the token selects.
pub(crate) fn act_on_members(
    alloc: Global,
    members: &mut Object,
    token: &str,
    action: Action,
) -> Result<Option<Json>, ChangeRefused>
    ensures members { Changes (members_after (plain_act action) token.now (plain_members members.old)) (plain_members members.new) result }
    ensures out { HandsOut (plain_act action) (member_at token.now (plain_members members.old)) result }
{
    match action {
        Action::Put(new) => {
            members.set(alloc, token, new)?;
            Ok(None)
        }
        Action::Take => {
            let member = take_member(members, token)?;
            Ok(Some(member))
        }
        Action::Set(new) => {
            set_member(members, token, new)?;
            Ok(None)
        }
    }
}

fn take_member(members: &mut Object, token: &str) -> Result<Json, ChangeRefused>
    ensures members { Changes (members_after take_out token.now (plain_members members.old)) (plain_members members.new) result }
    ensures out { IfOk result (λ member. member_at token.now (plain_members members.old) ≡ Some (plain member)) }
{
    match members.remove(token) {
        Some(member) => Ok(member),
        None => Err(ChangeRefused::Fails),
    }
}

fn set_member(members: &mut Object, token: &str, new: Json) -> Result<(), ChangeRefused>
    ensures { Changes (members_after (set_to (plain new)) token.now (plain_members members.old)) (plain_members members.new) result }
{
    match members.get_mut(token) {
        Some(member) => {
            *member = new;
            Ok(())
        }
        None => Err(ChangeRefused::Fails),
    }
}
