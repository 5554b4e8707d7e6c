//! The view of an observer, in words.
use super::files::SUFFIXES;
use super::steps::found;
use st_anchor::RoleState;
use st_apply::{DidState, StateParts};
use st_base::{Work, read_number};
use st_canon::Json;
use st_doc::Document;
use st_hash::{Hash, hash_text, read_hash};
use st_observer::{Held, Observer};
use std::alloc::Global;

fn word(state: &RoleState) -> &str {
    match state {
        RoleState::Unneeded => "unneeded",
        RoleState::Missing(_) => "missing",
        RoleState::Rejected(rule) => rule.name(),
        RoleState::Read => "read",
    }
}

// Whether the roles of an entry have these states, or with `none`: there is no entry.
fn reports(observer: &Observer, n: u32, words: &str) -> bool {
    match observer.report(n) {
        Some(states) => states.iter().map(word).eq(words.split(' ')),
        None => words == "none",
    }
}

fn reports_so(observer: &Observer, number_and_words: &str) -> bool {
    let Some((number, words)) = number_and_words.split_once(' ') else {
        return false;
    };
    match read_number(number.as_bytes(), 1_000) {
        Some(n) => reports(observer, n, words),
        None => false,
    }
}

fn suffix(name: &str) -> Option<Hash> {
    match found(SUFFIXES, name) {
        Some(text) => read_hash(text.as_bytes()).ok(),
        None => None,
    }
}

fn has_active(rt: &HostRuntime, observer: &Observer, name: &str) -> bool {
    match suffix(name) {
        Some(suffix) => matches!(
            observer.state(&suffix).open(rt.alloc(), &mut Work::new(rt)),
            Ok(StateParts::Active { .. })
        ),
        None => false,
    }
}

fn has_absent(rt: &HostRuntime, observer: &Observer, name: &str) -> bool {
    match suffix(name) {
        Some(suffix) => matches!(
            observer.state(&suffix).open(rt.alloc(), &mut Work::new(rt)),
            Ok(StateParts::Absent)
        ),
        None => false,
    }
}

fn is_number(text: &str, number: usize) -> bool {
    match read_number(text.as_bytes(), 1_000) {
        Some(read) => read as usize == number,
        None => false,
    }
}

fn counts(alloc: Global, observer: &Observer, suffix: &Hash, many: &str) -> bool {
    match observer.items(alloc, suffix) {
        Ok(items) => is_number(many, items.len()),
        Err(_) => false,
    }
}

// Whether a suffix has this many operations.
fn has_items(alloc: Global, observer: &Observer, name: &str, many: &str) -> bool {
    match suffix(name) {
        Some(suffix) => counts(alloc, observer, &suffix, many),
        None => false,
    }
}

fn number(text: &str) -> Option<u32> {
    read_number(text.as_bytes(), 1_000)
}

fn place(held: &Held) -> Option<u32> {
    Some(held.place)
}

// Whether the operations of a suffix have these places in this order, or there are none.
fn stand_at(alloc: Global, observer: &Observer, suffix: &Hash, places: &str) -> bool {
    match observer.items(alloc, suffix) {
        Ok(items) => if places == "none" {
            items.as_slice().is_empty()
        } else {
            items
                .as_slice()
                .iter()
                .map(place)
                .eq(places.split(' ').map(number))
        },
        Err(_) => false,
    }
}

fn has_places(alloc: Global, observer: &Observer, name_and_places: &str) -> bool {
    let Some((name, places)) = name_and_places.split_once(' ') else {
        return false;
    };
    match suffix(name) {
        Some(suffix) => stand_at(alloc, observer, &suffix, places),
        None => false,
    }
}

fn has_so_many(alloc: Global, observer: &Observer, name_and_number: &str) -> bool {
    match name_and_number.split_once(' ') {
        Some((name, many)) => has_items(alloc, observer, name, many),
        None => false,
    }
}

fn is_of(alloc: Global, uri: &Hash, text: Option<&str>) -> bool {
    match (hash_text(alloc, uri), text) {
        (Ok(written), Some(text)) => written.as_str() == text,
        _ => false,
    }
}

fn are_of(alloc: Global, uris: &[Hash], texts: &str) -> bool {
    let mut texts = texts.split(' ');
    for uri in uris {
        if !is_of(alloc, uri, texts.next()) {
            return false;
        }
    }
    texts.next().is_none()
}

// Whether exactly the files of these URIs are wanted, in this order, or none.
fn wants_only(alloc: Global, observer: &Observer, texts: &str) -> bool {
    match observer.wanted(alloc) {
        Ok(uris) => if texts == "none" {
            uris.as_slice().is_empty()
        } else {
            are_of(alloc, uris.as_slice(), texts)
        },
        Err(_) => false,
    }
}

// Whether the file of this URI is wanted, as the word before it says.
fn answers(alloc: Global, observer: &Observer, uri: &str, wanted: bool) -> bool {
    match read_hash(uri.as_bytes()) {
        Ok(uri) => match observer.wants(alloc, &uri) {
            Ok(found) => found == wanted,
            Err(_) => false,
        },
        Err(_) => false,
    }
}

fn id(service: &Json) -> &str {
    match service {
        Json::Object(members) => members.text("id").unwrap_or(""),
        _ => "",
    }
}

fn has_services(document: &Document, ids: &str) -> bool {
    if ids == "none" {
        return document.services().is_empty();
    }
    document.services().iter().map(id).eq(ids.split(' '))
}

fn serves_in(rt: &HostRuntime, state: &DidState, ids: &str) -> bool {
    match state.open(rt.alloc(), &mut Work::new(rt)) {
        Ok(StateParts::Active { document, .. }) => has_services(document.get(), ids),
        _ => false,
    }
}

// Whether the document of a suffix has exactly these services in this order.
fn serves(rt: &HostRuntime, observer: &Observer, name_and_ids: &str) -> bool {
    let Some((name, ids)) = name_and_ids.split_once(' ') else {
        return false;
    };
    match suffix(name) {
        Some(suffix) => serves_in(rt, observer.state(&suffix), ids),
        None => false,
    }
}

// Whether at most this many operations were applied.
fn is_within(applied: u64, most: &str) -> bool {
    match read_number(most.as_bytes(), 1_000) {
        Some(most) => applied <= most as u64,
        None => false,
    }
}

// Whether this is seen after steps that applied this many operations.
fn is_seen(rt: &HostRuntime, observer: &Observer, applied: u64, look: &str) -> bool {
    let Some((what, rest)) = look.split_once(' ') else {
        return false;
    };
    match what {
        "entry" => reports_so(observer, rest),
        "active" => has_active(rt, observer, rest),
        "absent" => has_absent(rt, observer, rest),
        "operations" => has_so_many(rt.alloc(), observer, rest),
        "places" => has_places(rt.alloc(), observer, rest),
        "wanted" => wants_only(rt.alloc(), observer, rest),
        "wants" => answers(rt.alloc(), observer, rest, true),
        "spares" => answers(rt.alloc(), observer, rest, false),
        "services" => serves(rt, observer, rest),
        "applied" => is_within(applied, rest),
        _ => false,
    }
}

// Whether all of these are seen. Bars separate them.
pub(super) fn are_seen(rt: &HostRuntime, observer: &Observer, applied: u64, looks: &str) -> bool {
    for look in looks.split('|') {
        if !is_seen(rt, observer, applied, look) {
            return false;
        }
    }
    true
}
