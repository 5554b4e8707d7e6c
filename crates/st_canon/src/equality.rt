ghost use Rattle.std.specs.Prelude.{◌≡◌, ◌↔◌, IsTrue};
ghost use Rattle.st_plain.specs.Plain.{canonical, null, boolean, whole, text};
ghost use Rattle.st_plain.specs.Measures.{is_equal};
ghost use Rattle.st_canon.specs.View.{plain, plain_items, plain_members};

use crate::measures::size;
use crate::value::{Json, Object};
use st_base::List;

/// Whether the canonical texts of two values are equal. Neither text is written.
pub fn equal(first: &Json, second: &Json) -> bool
    ensures value { result ≡ is_equal (plain first.now) (plain second.now) }
    ensures texts { IsTrue result ↔ (canonical (plain first.now) ≡ canonical (plain second.now)) }
    ensures values { IsTrue result ↔ (plain first.now ≡ plain second.now) }
{
    // Comparing the sizes first also proves the values proper: no two proper values have the same
    // text.
    size(first) == size(second) && same(first, second)
}

#[cycle(same)]
fn same(first: &Json, second: &Json) -> bool
    ensures { IsTrue result ↔ (plain first.now ≡ plain second.now) }
{
    match first {
        Json::Null => is_null(second),
        Json::Bool(b) => is_bool(second, *b),
        Json::Whole(w) => is_whole(second, w.value()),
        Json::Text(text) => is_text(second, text.as_str()),
        Json::List(items) => match second {
            Json::List(others) => same_items(items, others),
            _ => false,
        },
        Json::Object(members) => match second {
            Json::Object(others) => same_members(members, others),
            _ => false,
        },
    }
}

#[cycle(same)]
fn same_items(first: &List<Json>, second: &List<Json>) -> bool
    ensures { IsTrue result ↔ (plain_items first.now ≡ plain_items second.now) }
{
    let items = first.as_slice();
    let others = second.as_slice();
    if items.len() != others.len() {
        return false;
    }
    for (at, item) in items.iter().enumerate() {
        if !same(item, &others[at]) {
            return false;
        }
    }
    true
}

#[cycle(same)]
#[tactic(auto, using(crate::proofs::TreeLemmas::value_below))]
fn same_members(first: &Object, second: &Object) -> bool
    ensures { IsTrue result ↔ (plain_members first.now ≡ plain_members second.now) }
{
    let pairs = first.pairs();
    let others = second.pairs();
    if pairs.len() != others.len() {
        return false;
    }
    for (at, (name, member)) in pairs.iter().enumerate() {
        let (other_name, other) = &others[at];
        if !is_name(name.as_str(), other_name.as_str()) {
            return false;
        }
        if !same(member, other) {
            return false;
        }
    }
    true
}

fn is_name(first: &str, second: &str) -> bool
    ensures { IsTrue result ↔ (first.now ≡ second.now) }
{
    first == second
}

fn is_null(value: &Json) -> bool
    ensures { IsTrue result ↔ (plain value.now ≡ null) }
{
    match value {
        Json::Null => true,
        _ => false,
    }
}

fn is_bool(value: &Json, expected: bool) -> bool
    ensures { IsTrue result ↔ (plain value.now ≡ boolean expected) }
{
    match value {
        Json::Bool(b) => *b == expected,
        _ => false,
    }
}

fn is_whole(value: &Json, expected: i64) -> bool
    ensures { IsTrue result ↔ (plain value.now ≡ whole expected) }
{
    match value {
        Json::Whole(w) => w.value() == expected,
        _ => false,
    }
}

fn is_text(value: &Json, expected: &str) -> bool
    ensures { IsTrue result ↔ (plain value.now ≡ text expected.now) }
{
    match value {
        Json::Text(text) => text.as_str() == expected,
        _ => false,
    }
}
