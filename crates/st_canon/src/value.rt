ghost use Rattle.std.specs.Borrow.{sem};
ghost use Rattle.std.specs.Option.{option_copied};
ghost use Rattle.std.specs.Prelude.{◌≡◌, IfOk, Some, map, option_map, option_and_then, OnOk, OnErr};
ghost use Rattle.st_plain.specs.Objects.{put_some, some_list, some_object, items_in, list_in, members_in, text_in};
ghost use Rattle.st_plain.specs.Shapes.{is_object_of, member_in, only_member, entries_in, is_list_if_there, is_text_if_there};
ghost use Rattle.st_canon.specs.View.{LendsList, LendsObject, plain, plain_items, plain_members};

use crate::measures::room_for;
use crate::object::Members;
use st_base::{Copied, List, Text, WantOfMemory};
use st_plain::Whole;
use std::alloc::Global;

/// A JSON value (RFC 8259) whose numbers are whole. Contracts see its plain value.
#[derive(Drop)]
pub enum Json {
    Null,
    Bool(bool),
    Whole(Whole),
    Text(Text),
    List(List<Json>),
    Object(Object),
}

/// The members of a JSON object, in the order of names of RFC 8785.
pub type Object = Members<Json>;

impl Copied for Json {
    fn copy(&self, alloc: Global) -> Result<Json, WantOfMemory> {
        copy_json(alloc, self)
    }
}

impl Copied for Object {
    fn copy(&self, alloc: Global) -> Result<Object, WantOfMemory> {
        copy_members(alloc, self)
    }
}

#[cycle(copy)]
fn copy_json(alloc: Global, value: &Json) -> Result<Json, WantOfMemory>
    ensures { IfOk result (λ copied. copied ≡ value.now) }
{
    match value {
        Json::Null => Ok(Json::Null),
        Json::Bool(b) => Ok(Json::Bool(*b)),
        Json::Whole(w) => Ok(Json::Whole(*w)),
        Json::Text(text) => Ok(Json::Text(text.copy(alloc)?)),
        Json::List(items) => Ok(Json::List(copy_items(alloc, items)?)),
        Json::Object(members) => Ok(Json::Object(copy_members(alloc, members)?)),
    }
}

#[cycle(copy)]
fn copy_items(alloc: Global, items: &List<Json>) -> Result<List<Json>, WantOfMemory>
    ensures { IfOk result (λ copied. copied ≡ items.now) }
{
    let mut copies = room_for(alloc, items.len())?;
    for item in items.as_slice() {
        copies.push(alloc, copy_json(alloc, item)?)?;
    }
    Ok(copies)
}

#[cycle(copy)]
#[tactic(auto, using(crate::proofs::TreeLemmas::value_below))]
fn copy_members(alloc: Global, members: &Object) -> Result<Object, WantOfMemory>
    ensures { IfOk result (λ copied. copied ≡ members.now) }
{
    let mut pairs = Vec::with_capacity(alloc, members.pairs().len())?;
    for (name, member) in members.pairs() {
        pairs.push((name.copy(alloc)?, copy_json(alloc, member)?))?;
    }
    Ok(Members::from_pairs(pairs))
}

impl Json {
    /// The text, if this value is one.
    pub fn as_text(&self) -> Option<&str>
        ensures { option_map (λ text. text.now) result ≡ text_in (plain self.now) }
    {
        match self {
            Json::Text(text) => Some(text.as_str()),
            _ => None,
        }
    }

    /// The list, if this value is one.
    #[tactic(auto, using(crate::proofs::TreeLemmas::entries_listed))]
    pub fn as_list(&self) -> Option<&List<Json>>
        ensures items { option_map (λ items. plain_items items.now) result ≡ items_in (plain self.now) }
        ensures list { option_map (λ items. map plain items.now) result ≡ list_in (plain self.now) }
    {
        match items_of(self) {
            Some(items) => Some(items),
            None => None,
        }
    }

    /// A mutable reference to the list, if this value is one.
    pub fn as_list_mut(&mut self) -> Option<&mut List<Json>>
        ensures* writes_back { sem 𝓛 (LendsList self.entry result) }
        ensures list { option_map (λ items. plain_items items.now) result ≡ items_in (plain self.old) }
    {
        if let Json::List(items) = self {
            Some(items)
        } else {
            None
        }
    }

    /// A mutable reference to the object, if this value is one.
    pub fn as_object_mut(&mut self) -> Option<&mut Object>
        ensures* writes_back { sem 𝓛 (LendsObject self.entry result) }
        ensures object { option_map (λ members. plain_members members.now) result ≡ members_in (plain self.old) }
    {
        if let Json::Object(members) = self {
            Some(members)
        } else {
            None
        }
    }

    /// The value of the member of this name, if this is an object that has one.
    pub fn member(&self, name: &str) -> Option<&Json>
        ensures { option_map plain (option_copied result) ≡ member_in name.now (Some (plain self.now)) }
    {
        match self {
            Json::Object(members) => members.get(name),
            _ => None,
        }
    }

    /// Whether this is an object whose members all have one of these names.
    pub fn is_object_of(&self, names: &[&str]) -> bool
        ensures { result ≡ is_object_of (map (λ n. n.now) names.now) (Some (plain self.now)) }
    {
        match self {
            Json::Object(members) => members.has_only(names),
            _ => false,
        }
    }
}

fn items_of(value: &Json) -> Option<&List<Json>>
    ensures { option_map (λ items. plain_items items.now) result ≡ items_in (plain value.now) }
{
    match value {
        Json::List(items) => Some(items),
        _ => None,
    }
}

/// Whether the value is a text or missing.
pub fn is_text_if_there(there: Option<&Json>) -> bool
    ensures { result ≡ is_text_if_there (option_map plain (option_copied there.entry)) }
{
    match there {
        None => true,
        Some(Json::Text(_)) => true,
        Some(_) => false,
    }
}

/// Whether the value is a list or missing.
pub fn is_list_if_there(there: Option<&Json>) -> bool
    ensures { result ≡ is_list_if_there (option_map plain (option_copied there.entry)) }
{
    match there {
        None => true,
        Some(Json::List(_)) => true,
        Some(_) => false,
    }
}

/// The entries of a list. A missing value and any other kind have none.
pub fn entries_in<'a>(there: Option<&'a Json>) -> &'a [Json]
    ensures { map plain result.now ≡ entries_in (option_map plain (option_copied there.entry)) }
{
    match list_there(there) {
        Some(items) => items.as_slice(),
        None => &[],
    }
}

fn list_there(there: Option<&Json>) -> Option<&List<Json>>
    ensures { option_map (λ items. map plain items.now) result ≡ option_and_then list_in (option_map plain (option_copied there.entry)) }
{
    there?.as_list()
}

impl Object {
    /// `set`, if there is a value.
    #[tactic(auto, unfolding(st_plain::specs::Objects::put_some))]
    pub fn set_some(
        &mut self,
        alloc: Global,
        name: &str,
        value: Option<Json>,
    ) -> Result<(), WantOfMemory>
        ensures ok { OnOk result (plain_members self.new ≡ put_some name.now (option_map plain value) (plain_members self.old)) }
        ensures err { OnErr result (self.new ≡ self.old) }
    {
        match value {
            Some(value) => self.set(alloc, name, value),
            None => Ok(()),
        }
    }
}

/// A list, or nothing if it is empty.
#[tactic(auto, unfolding(st_plain::specs::Objects::some_list))]
pub fn some_list(list: List<Json>) -> Option<Json>
    ensures { option_map plain result ≡ some_list (map plain list) }
{
    if list.as_slice().is_empty() {
        None
    } else {
        Some(Json::List(list))
    }
}

/// An object, or nothing if it is empty.
#[tactic(auto, unfolding(st_plain::specs::Objects::some_object))]
pub fn some_object(object: Object) -> Option<Json>
    ensures { option_map plain result ≡ some_object (plain_members object) }
{
    if object.is_empty() {
        None
    } else {
        Some(Json::Object(object))
    }
}
