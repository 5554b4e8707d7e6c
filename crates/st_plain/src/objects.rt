ghost use Rattle.std.specs.List.{AllByRecursion};
ghost use Rattle.std.specs.Prelude.{◌≡◌, ◌∷◌, [], ◌++◌, length, map, reverse, take, None, false, IfOk, OnOk};
ghost use Rattle.std.specs.Str.{IsUtf8};
ghost use Rattle.st_plain.specs.Plain.{comma as comma_text, quoted};
ghost use Rattle.st_plain.specs.inside.Objects.{IsHeld, between, entries_in, entry_at, is_again, joined, once, firsts};

use crate::appending::{append_comma, append_text, push_all};
use crate::names::{behind, compare_at};
use std::alloc::{AllocError, Global};

// The members of an object in the order of the input, one after another in a text: the start and
// the end of each are kept.

// Begins a member at the end of the text, with its name and a colon; the caller appends the value.
// Returns where the member begins.
pub(crate) fn begin(text: &mut Vec<u8>, comma: bool, name: &str) -> Result<u32, AllocError>
    ensures text { OnOk result (text.new.items ≡ (text.old.items ++ comma_text comma) ++ (quoted name.now ++ 58 ∷ [])) }
    ensures place { IfOk result (λ place. place ≡ length (text.old.items ++ comma_text comma)) }
    ensures utf8 { OnOk result (IsUtf8 name.now) }
{
    append_comma(text, comma)?;
    let place = place_behind(text)?;
    append_text(text, name)?;
    push_all(text, b":")?;
    Ok(place)
}

// Ends the member that begins there.
pub(crate) fn end(
    text: &Vec<u8>,
    places: &mut Vec<(u32, u32)>,
    begun: u32,
) -> Result<(), AllocError>
    ensures { OnOk result (places.new.items ≡ places.old.items ++ (begun, length text.now.items) ∷ []) }
{
    let place = place_behind(text)?;
    places.push((begun, place))?;
    Ok(())
}

fn place_behind(text: &Vec<u8>) -> Result<u32, AllocError>
    ensures { IfOk result (λ place. place ≡ length text.now.items) }
{
    match u32::try_from(text.len()) {
        Ok(place) => Ok(place),
        Err(_) => Err(AllocError),
    }
}

// Sorts the members in the text from here on by name, and keeps the last of several with one name.
pub(crate) fn put_in_order(
    alloc: Global,
    text: &mut Vec<u8>,
    from: usize,
    places: Vec<(u32, u32)>,
) -> Result<(), AllocError>
    requires { AllByRecursion (IsHeld text.old.items) (reverse places.items) }
    ensures { OnOk result (text.new.items ≡ take from text.old.items ++ joined false (map (λ e. e.1) (entries_in text.old.items places.items))) }
{
    let mut places = places;
    sort(text.as_slice(), &mut places)?;
    let mut ordered = Vec::with_capacity(alloc, text.len().saturating_sub(from))?;
    append_members(&mut ordered, text.as_slice(), places.as_slice())?;
    text.truncate(from);
    Ok(push_all(text, ordered.as_slice())?)
}

// Sorts the places by name; of several with one name the last is first.
fn sort(text: &[u8], places: &mut Vec<(u32, u32)>) -> Result<(), AllocError>
    requires { AllByRecursion (IsHeld text.now) (reverse places.old.items) }
    ensures first { OnOk result (firsts None (map (entry_at text.now) places.new.items) ≡ entries_in text.now places.old.items) }
    ensures held { OnOk result (AllByRecursion (IsHeld text.now) places.new.items) }
{
    places.reverse();
    places.sort_by(|first, second| compare_at(text, first.0, second.0))?;
    Ok(())
}

fn append_members(out: &mut Vec<u8>, text: &[u8], places: &[(u32, u32)]) -> Result<(), AllocError>
    ensures { OnOk result (out.new.items ≡ out.old.items ++ joined false (once text.now None places.now)) }
{
    let mut last: Option<u32> = None;
    'places: for place in places {
        if is_again(text, last, place.0) {
            continue;
        }
        append_comma(out, last.is_some())?;
        push_all(out, between(text, *place))?;
        last = Some(place.0);
    }
    Ok(())
}

// Whether the name at a place equals that of the previous member, if any.
fn is_again(text: &[u8], last: Option<u32>, place: u32) -> bool
    ensures { result ≡ is_again text.now last place }
{
    match last {
        Some(last) => compare_at(text, last, place).is_eq(),
        None => false,
    }
}

#[tactic(auto, unfolding(crate::specs::inside::Objects::between))]
fn between(text: &[u8], place: (u32, u32)) -> &[u8]
    ensures { result.now ≡ between text.now place }
{
    let rest = behind(text, place.0);
    let length = place.1.saturating_sub(place.0);
    match rest.split_at_checked(length as usize) {
        Some((front, _)) => front,
        None => rest,
    }
}
