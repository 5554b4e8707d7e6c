ghost use Rattle.std.specs.Option.{option_copied};
ghost use Rattle.std.specs.Prelude.{◌∷◌, option_and_then, ◌≡◌, option_map, IfOk, Some};
ghost use Rattle.st_plain.specs.Objects.{member_at};
ghost use Rattle.st_canon.specs.View.{plain, plain_items, plain_members};
ghost use Rattle.st_jsonpatch.specs.Pointer.{at, item_at, selected};
ghost use Rattle.st_jsonpatch.specs.Edited.{edited, items_inside, members_inside, parent_after};
ghost use Rattle.st_jsonpatch.specs.Stepped.{added, removed, replaced};
ghost use Rattle.st_jsonpatch.specs.inside.Changed.{plain_act, Changes, HandsOut};

use crate::items::{act_on_items, act_on_members, item, item_mut};
use crate::pointer::Pointer;
use crate::steps::ChangeRefused;
use st_base::{List, Text};
use st_canon::{Json, Object};
use std::alloc::Global;

// The effect of the last token of a path on its parent.
#[derive(Drop)]
pub(crate) enum Action {
    // Inserts this value as a new entry.
    Put(Json),
    // Removes the entry and returns it.
    Take,
    // Sets the entry to this value.
    Set(Json),
}

// The last token acts on its parent; above that only the selected entry changes.
#[cycle(edit)]
pub(crate) fn edit(
    alloc: Global,
    value: &mut Json,
    token: &str,
    path: &[Text],
    action: Action,
) -> Result<Option<Json>, ChangeRefused>
    ensures value { Changes (edited (plain_act action) token.now path.now (plain value.old)) (plain value.new) result }
    ensures out { HandsOut (plain_act action) (at (token.now ∷ path.now) (plain value.old)) result }
{
    let Some((next, rest)) = path.split_first() else {
        return act(alloc, value, token, action);
    };
    if let Some(items) = value.as_list_mut() {
        return edit_item(alloc, items, token, next.as_str(), rest, action);
    }
    match value.as_object_mut() {
        Some(members) => edit_member(alloc, members, token, next.as_str(), rest, action),
        None => Err(ChangeRefused::Fails),
    }
}

#[cycle(edit)]
fn edit_item(
    alloc: Global,
    items: &mut List<Json>,
    token: &str,
    next: &str,
    path: &[Text],
    action: Action,
) -> Result<Option<Json>, ChangeRefused>
    ensures items { let change = edited (plain_act action) next.now path.now in
        Changes (items_inside token.now change (plain_items items.old)) (plain_items items.new) result }
    ensures out { HandsOut (plain_act action) (option_and_then (at (next.now ∷ path.now)) (item_at token.now (plain_items items.old))) result }
{
    match item_mut(items, token) {
        Some(item) => edit(alloc, item, next, path, action),
        None => Err(ChangeRefused::Fails),
    }
}

#[cycle(edit)]
fn edit_member(
    alloc: Global,
    members: &mut Object,
    token: &str,
    next: &str,
    path: &[Text],
    action: Action,
) -> Result<Option<Json>, ChangeRefused>
    ensures members { let change = edited (plain_act action) next.now path.now in
        Changes (members_inside token.now change (plain_members members.old)) (plain_members members.new) result }
    ensures out { HandsOut (plain_act action) (option_and_then (at (next.now ∷ path.now)) (member_at token.now (plain_members members.old))) result }
{
    match members.get_mut(token) {
        Some(member) => edit(alloc, member, next, path, action),
        None => Err(ChangeRefused::Fails),
    }
}

fn act(
    alloc: Global,
    parent: &mut Json,
    token: &str,
    action: Action,
) -> Result<Option<Json>, ChangeRefused>
    ensures value { Changes (parent_after (plain_act action) token.now (plain parent.old)) (plain parent.new) result }
    ensures out { HandsOut (plain_act action) (selected token.now (plain parent.old)) result }
{
    if let Some(items) = parent.as_list_mut() {
        return act_on_items(alloc, items, token, action);
    }
    match parent.as_object_mut() {
        Some(members) => act_on_members(alloc, members, token, action),
        None => Err(ChangeRefused::Fails),
    }
}

/// The value at the pointer; `None` if and only if there is none.
pub fn find<'a>(value: &'a Json, pointer: &Pointer) -> Option<&'a Json>
    ensures { option_map plain (option_copied result) ≡ at pointer.now (plain value.now) }
{
    target(value, pointer.tokens())
}

pub(crate) fn target<'a>(value: &'a Json, path: &[Text]) -> Option<&'a Json>
    ensures { option_map plain (option_copied result) ≡ at path.now (plain value.now) }
{
    let mut here = value;
    for token in path {
        here = entry(here, token.as_str())?;
    }
    Some(here)
}

fn entry<'a>(value: &'a Json, token: &str) -> Option<&'a Json>
    ensures { option_map plain (option_copied result) ≡ selected token.now (plain value.now) }
{
    match value {
        Json::List(items) => item(items, token),
        Json::Object(members) => members.get(token),
        _ => None,
    }
}

pub(crate) fn add(
    alloc: Global,
    value: &mut Json,
    path: &[Text],
    new: Json,
) -> Result<(), ChangeRefused>
    ensures { Changes (added (plain new) path.now (plain value.old)) (plain value.new) result }
{
    match path.split_first() {
        Some((token, rest)) => {
            edit(alloc, value, token.as_str(), rest, Action::Put(new))?;
            Ok(())
        }
        None => {
            *value = new;
            Ok(())
        }
    }
}

// Returns the removed value.
pub(crate) fn remove(alloc: Global, value: &mut Json, path: &[Text]) -> Result<Json, ChangeRefused>
    ensures value { Changes (removed path.now (plain value.old)) (plain value.new) result }
    ensures out { IfOk result (λ out. at path.now (plain value.old) ≡ Some (plain out)) }
{
    let Some((token, rest)) = path.split_first() else {
        return Err(ChangeRefused::Fails);
    };
    match edit(alloc, value, token.as_str(), rest, Action::Take)? {
        Some(out) => Ok(out),
        None => Err(ChangeRefused::Fails),
    }
}

pub(crate) fn replace(
    alloc: Global,
    value: &mut Json,
    path: &[Text],
    new: Json,
) -> Result<(), ChangeRefused>
    ensures { Changes (replaced (plain new) path.now (plain value.old)) (plain value.new) result }
{
    match path.split_first() {
        Some((token, rest)) => {
            edit(alloc, value, token.as_str(), rest, Action::Set(new))?;
            Ok(())
        }
        None => {
            *value = new;
            Ok(())
        }
    }
}
