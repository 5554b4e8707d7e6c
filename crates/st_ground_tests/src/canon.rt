ghost use Rattle.std.specs.Prelude.{◌≡◌, [], ◌∷◌, ◌&&◌, codes, is_some, map, option_map, IfOk, OnOk, Some, None};
ghost use Rattle.st_plain.specs.Objects.{member_at, object_of, object_of_some, some_list};
ghost use Rattle.st_plain.specs.Shapes.{is_object_of, is_text_if_there, member_in, text_at};
ghost use Rattle.st_canon.specs.View.{plain, plain_members};

mod measures;
mod members;
mod packed;
mod shapes;
mod spelling;

use st_base::{List, WantOfMemory};
use st_canon::{Json, Object, is_text_if_there, read, some_list, write};
use std::alloc::Global;

// An object of fixed members, put in another order than they are listed.
#[tactic(auto, unfolding(st_plain::proofs::NameLemmas::names_on_literals))]
fn pair_of(alloc: Global, first: Json, second: Json) -> Result<Json, WantOfMemory>
    ensures { IfOk result (λ json. plain json ≡ object_of ((codes "type", plain first) ∷ (codes "deltaHash", plain second) ∷ [])) }
{
    let mut pair = Object::new(alloc);
    pair.set(alloc, "deltaHash", second)?;
    pair.set(alloc, "type", first)?;
    Ok(Json::Object(pair))
}

// An object of optional members, put in the order in which they are listed.
fn step_of(alloc: Global, from: Option<Json>, ids: List<Json>) -> Result<Json, WantOfMemory>
    ensures { IfOk result (λ json. plain json ≡ object_of_some ((codes "from", option_map plain from) ∷ (codes "ids", some_list (map plain ids)) ∷ [])) }
{
    let mut step = Object::new(alloc);
    step.set_some(alloc, "from", from)?;
    step.set_some(alloc, "ids", some_list(ids))?;
    Ok(Json::Object(step))
}

// A test of a shape, whose definition is total.
fn is_header(json: &Json) -> bool
    ensures { result ≡ (is_object_of (codes "alg" ∷ codes "kid" ∷ []) (Some (plain json.now))
        && (is_some (text_at (codes "alg") (Some (plain json.now)))
        && is_text_if_there (member_in (codes "kid") (Some (plain json.now))))) }
{
    match json {
        Json::Object(members) => members.has_only(&["alg", "kid"])
            && members.text("alg").is_some()
            && is_text_if_there(members.get("kid")),
        _ => false,
    }
}

// A member that was set is found, one that was removed is gone, and the others stay.
#[tactic(auto, using(st_plain::proofs::NameLemmas::by_name))]
fn moved(alloc: Global, object: &mut Object, value: Json) -> Result<(), WantOfMemory>
    ensures set { OnOk result (member_at (codes "to") (plain_members object.new) ≡ Some (plain value)) }
    ensures gone { OnOk result (member_at (codes "from") (plain_members object.new) ≡ None) }
    ensures kept { OnOk result (member_at (codes "op") (plain_members object.new) ≡ member_at (codes "op") (plain_members object.old)) }
{
    object.set(alloc, "to", value)?;
    let _gone = object.remove("from");
    Ok(())
}

fn is_written(alloc: Global, json: &Json, text: &str) -> bool {
    match write(alloc, json) {
        Ok(written) => written.as_slice() == text.as_bytes(),
        Err(_) => false,
    }
}

// Whether a text is read, and then written like this.
fn is_respelled(alloc: Global, text: &str, canonical: &str) -> bool {
    match read(alloc, text.as_bytes()) {
        Ok(json) => is_written(alloc, &json, canonical),
        Err(_) => false,
    }
}

fn object(alloc: Global, text: &str) -> Option<Object> {
    match read(alloc, text.as_bytes()) {
        Ok(Json::Object(object)) => Some(object),
        _ => None,
    }
}
