use super::{is_written, moved, object, pair_of, step_of};
use st_base::{Copied, List, Text, WantOfMemory};
use st_canon::{Json, Object, read};
use std::alloc::Global;
use std::test::Fail;

#[test]
fn members_may_be_put_in_any_order(rt: HostRuntime) -> Result<(), Fail> {
    assert!(rt; pairs(rt.alloc())?);
    Ok(())
}

fn pairs(alloc: Global) -> Result<bool, WantOfMemory> {
    let pair = pair_of(alloc, Json::Null, Json::Bool(true))?;
    Ok(is_written(alloc, &pair, "{\"deltaHash\":true,\"type\":null}"))
}

fn leaves_both_out(alloc: Global) -> Result<bool, WantOfMemory> {
    let none = step_of(alloc, None, List::new(alloc))?;
    Ok(is_written(alloc, &none, "{}"))
}

fn leaves_none_out(alloc: Global) -> Result<bool, WantOfMemory> {
    let mut ids = List::new(alloc);
    ids.push(alloc, Json::Null)?;
    let both = step_of(alloc, Some(Json::Bool(true)), ids)?;
    Ok(is_written(alloc, &both, "{\"from\":true,\"ids\":[null]}"))
}

#[test]
fn members_without_a_value_are_left_out(rt: HostRuntime) -> Result<(), Fail> {
    assert!(rt; leaves_both_out(rt.alloc())? && leaves_none_out(rt.alloc())?);
    Ok(())
}

fn put(alloc: Global, members: &mut Object) -> Result<(), WantOfMemory> {
    let name = Text::from_text(alloc, "b")?;
    members.insert(alloc, name, Json::Null)?;
    members.set(alloc, "a", Json::Bool(false))
}

fn are_found(members: &Object) -> bool {
    members.pairs().len() == 3
        && matches!(members.get("a"), Some(Json::Bool(false)))
        && members.get("d").is_none()
}

// A member is removed once.
fn is_null_removed(members: &mut Object) -> bool {
    matches!(members.remove("b"), Some(Json::Null))
}

fn is_nothing_removed(members: &mut Object) -> bool {
    members.remove("b").is_none()
}

fn is_copied(alloc: Global, members: &Object) -> Result<bool, WantOfMemory> {
    let copied = Json::Object(members.copy(alloc)?);
    Ok(is_written(alloc, &copied, "{\"a\":false,\"c\":2}"))
}

fn change(alloc: Global, members: &mut Object) -> Result<bool, WantOfMemory> {
    put(alloc, members)?;
    Ok(
        are_found(members)
            && is_null_removed(members)
            && is_nothing_removed(members)
            && is_copied(alloc, members)?,
    )
}

fn changes(alloc: Global) -> Result<bool, WantOfMemory> {
    match object(alloc, "{\"a\":1,\"c\":2}") {
        Some(mut members) => change(alloc, &mut members),
        None => Ok(false),
    }
}

#[test]
fn members_are_put_replaced_found_and_removed(rt: HostRuntime) -> Result<(), Fail> {
    assert!(rt; changes(rt.alloc())?);
    Ok(())
}

fn moves(alloc: Global) -> Result<bool, WantOfMemory> {
    let Some(mut members) = object(alloc, "{\"op\":1,\"from\":2}") else {
        return Ok(false);
    };
    moved(alloc, &mut members, Json::Null)?;
    Ok(is_written(alloc, &Json::Object(members), "{\"op\":1,\"to\":null}"))
}

#[test]
fn a_member_is_moved(rt: HostRuntime) -> Result<(), Fail> {
    assert!(rt; moves(rt.alloc())?);
    Ok(())
}

// Changes the first entry of the list under the name, if there is one.
fn change_first(object: &mut Object, name: &str) {
    if let Some(value) = object.get_mut(name) {
        if let Some(list) = value.as_list_mut() {
            if let Some(entry) = list.get_mut(0) {
                *entry = Json::Null;
            }
        }
    }
}

fn change_value(value: &mut Json) {
    if let Some(members) = value.as_object_mut() {
        change_first(members, "a");
    }
}

// Whether a copy is unchanged when the value is changed.
fn keeps_its_copy(alloc: Global, value: &mut Json, text: &str) -> Result<bool, WantOfMemory> {
    let copied = value.copy(alloc)?;
    change_value(value);
    Ok(is_written(alloc, &copied, text))
}

fn is_changed_in_place(alloc: Global, text: &str) -> Result<bool, WantOfMemory> {
    match read(alloc, text.as_bytes()) {
        Ok(mut value) => Ok(
            keeps_its_copy(alloc, &mut value, text)?
                && is_written(alloc, &value, "{\"a\":[null,\"x\",{\"b\":-3}]}"),
        ),
        Err(_) => Ok(false),
    }
}

#[test]
fn a_value_is_copied_and_changed_in_place(rt: HostRuntime) -> Result<(), Fail> {
    assert!(rt; is_changed_in_place(rt.alloc(), "{\"a\":[true,\"x\",{\"b\":-3}]}")?);
    Ok(())
}
