ghost use Rattle.std.specs.Prelude.{◌≡◌, IfOk, ok_or, string_bytes, IfSome, option_map};
ghost use Rattle.std.specs.Str.{IsUtf8};
ghost use Rattle.serde_json.specs.View.{view, items_view, members_view, number_view};
ghost use Rattle.st_base.specs.Answers.{GivesAs};
ghost use Rattle.st_plain.specs.Plain.{IsProper, ItemsAreProper, MembersAreProper};
ghost use Rattle.st_plain.specs.ReadAgain.{IsReadAgain, value_read};
ghost use Rattle.st_plain.specs.Shapes.{refusal_of, whole_value, whole_items, whole_members, whole_number, json_of, json_in};
ghost use Rattle.st_plain.specs.declared.respelling.ReadRefused.TheVariants.{NotWhole};
ghost use Rattle.st_canon.specs.View.{plain, plain_items, plain_members};

use crate::object::Members;
use crate::value::{Json, Object};
use serde_json::{Map, Number, Value};
use st_base::{List, Text, WantOfMemory};
use st_plain::{ReadRefused, Whole};
use std::alloc::Global;

// The value, if each number in it is whole. It takes over the texts without a copy.
#[cycle(convert)]
pub(crate) fn convert(alloc: Global, value: Value) -> Result<Json, ReadRefused>
    ensures value { GivesAs plain refusal_of (ok_or (whole_value (view value)) NotWhole) result }
    ensures proper { IfOk result (λ json. IsProper (plain json)) }
{
    match value {
        Value::Null => Ok(Json::Null),
        Value::Bool(b) => Ok(Json::Bool(b)),
        Value::Number(n) => match whole_of(&n) {
            Some(w) => Ok(Json::Whole(w)),
            None => Err(ReadRefused::NotWhole),
        },
        Value::String(s) => Ok(Json::Text(text_of(s))),
        Value::Array(items) => Ok(Json::List(convert_items(alloc, items)?)),
        Value::Object(members) => Ok(Json::Object(convert_members(alloc, members)?)),
    }
}

#[cycle(convert)]
fn convert_items(alloc: Global, items: Vec<Value>) -> Result<List<Json>, ReadRefused>
    ensures value { GivesAs plain_items refusal_of (ok_or (whole_items (items_view items.items)) NotWhole) result }
    ensures proper { IfOk result (λ items. ItemsAreProper (plain_items items)) }
{
    let mut found = Vec::with_capacity(alloc, items.len())?;
    for item in items {
        let json = convert(alloc, item)?;
        found.push(json)?;
    }
    Ok(List::from_vec(found))
}

#[cycle(convert)]
fn convert_members(alloc: Global, members: Map<String, Value>) -> Result<Object, ReadRefused>
    ensures value { GivesAs plain_members refusal_of (ok_or (whole_members (members_view members.entries)) NotWhole) result }
    ensures proper { IfOk result (λ members. MembersAreProper (plain_members members)) }
{
    let mut pairs = Vec::with_capacity(alloc, members.len())?;
    for (key, member) in members {
        let json = convert(alloc, member)?;
        pairs.push((text_of(key), json))?;
    }
    Ok(Members::sorted(pairs)?)
}

fn text_of(string: String) -> Text
    ensures value { result ≡ string_bytes string }
    ensures utf8 { IsUtf8 result }
{
    Text::from_string(string)
}

fn whole_of(number: &Number) -> Option<Whole>
    ensures { result ≡ whole_number (number_view number.now) }
{
    match number.as_i64() {
        Some(value) => Whole::new(value),
        None => None,
    }
}

/// Reads a JSON text of any spelling. A member that appears twice has its last value.
///
/// The result is `NotJson` if and only if `serde_json` refuses the bytes, and `NotWhole` if and
/// only if they are JSON with a number that no `Whole` holds or that is written as a float.
pub fn read(alloc: Global, bytes: &[u8]) -> Result<Json, ReadRefused>
    ensures value { GivesAs plain refusal_of (json_of bytes.now) result }
    ensures proper { IfOk result (λ json. IsProper (plain json)) }
{
    match Value::from_slice(alloc, bytes) {
        Ok(value) => convert(alloc, value),
        Err(e) => if e.is_memory() {
            Err(ReadRefused::WantOfMemory)
        } else {
            Err(ReadRefused::NotJson)
        },
    }
}

/// The JSON value of the bytes; `None` if and only if they are not JSON with whole numbers.
pub fn read_json(alloc: Global, bytes: &[u8]) -> Result<Option<Json>, WantOfMemory>
    ensures value { IfOk result (λ json. option_map plain json ≡ json_in bytes.now) }
    ensures proper { IfOk result (λ json. IfSome json (λ json. IsProper (plain json))) }
{
    match read(alloc, bytes) {
        Ok(json) => Ok(Some(json)),
        Err(ReadRefused::NotJson) => Ok(None),
        Err(ReadRefused::NotWhole) => Ok(None),
        Err(ReadRefused::WantOfMemory) => Err(WantOfMemory),
    }
}

/// The value with this canonical text.
pub fn read_again(alloc: Global, text: &[u8]) -> Result<Json, WantOfMemory>
    requires { IsReadAgain text.now }
    ensures { IfOk result (λ value. plain value ≡ value_read (json_of text.now)) }
{
    match read(alloc, text) {
        Ok(value) => Ok(value),
        // The text was written from a value, so reading can only run out of memory.
        Err(_) => Err(WantOfMemory),
    }
}
