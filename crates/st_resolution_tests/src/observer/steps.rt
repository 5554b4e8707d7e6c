//! Steps by words: `new` starts an empty observer, `+NAME` appends the entry of a name, `-N` keeps
//! only the first N entries, and any other name is a file to receive.
use super::files::{ENTRIES, FILES};
use super::signed_files::{SIGNED_ENTRIES, SIGNED_FILES};
use st_base::{Bytes, Work, read_number};
use st_ledger::Entry;
use st_observer::Observer;
use st_params::Schedule;
use std::alloc::Global;

// The text after a name in a table.
pub(super) fn found(table: &'static str, name: &str) -> Option<&'static str> {
    for line in table.lines() {
        if let Some((named, text)) = line.split_once(' ')
            && named == name
        {
            return Some(text);
        }
    }
    None
}

fn file(name: &str) -> Option<&'static str> {
    match found(FILES, name) {
        Some(file) => Some(file),
        None => found(SIGNED_FILES, name),
    }
}

fn entry(name: &str) -> Option<&'static str> {
    match found(ENTRIES, name) {
        Some(entry) => Some(entry),
        None => found(SIGNED_ENTRIES, name),
    }
}

fn is_known(step: &str) -> bool {
    match step.strip_prefix('+') {
        Some(name) => entry(name).is_some(),
        None => step == "new" || step.starts_with('-') || file(step).is_some(),
    }
}

pub(super) fn are_known(steps: &str) -> bool {
    for step in steps.split_whitespace() {
        if !is_known(step) {
            return false;
        }
    }
    true
}

fn bytes_of(alloc: Global, text: Option<&'static str>) -> Option<Bytes> {
    Bytes::from_slice(alloc, text?.as_bytes()).ok()
}

fn entry_of(alloc: Global, name: &str) -> Option<Entry> {
    let (height, text) = entry(name)?.split_once(' ')?;
    let height = read_number(height.as_bytes(), 1_000)?;
    let text = bytes_of(alloc, Some(text))?;
    Some(Entry { height, text })
}

fn push(alloc: Global, observer: Observer, entry: Entry, work: &mut Work) -> Option<Observer> {
    if observer.ledger().admits(entry.height).is_err() {
        return Some(observer);
    }
    let (observer, _) = observer.append(alloc, entry, work).ok()?;
    Some(observer)
}

fn append(alloc: Global, observer: Observer, name: &str, work: &mut Work) -> Option<Observer> {
    match entry_of(alloc, name) {
        Some(entry) => push(alloc, observer, entry, work),
        None => Some(observer),
    }
}

fn cut(alloc: Global, observer: Observer, number: &str, work: &mut Work) -> Option<Observer> {
    let Some(n) = read_number(number.as_bytes(), observer.ledger().len()) else {
        return Some(observer);
    };
    let (observer, _) = observer.cut(alloc, n, work).ok()?;
    Some(observer)
}

fn arrive(alloc: Global, observer: Observer, name: &str, work: &mut Work) -> Option<Observer> {
    match bytes_of(alloc, file(name)) {
        Some(file) => {
            let (observer, _, _) = observer.arrive(alloc, file, work).ok()?;
            Some(observer)
        }
        None => Some(observer),
    }
}

// A step that is refused changes nothing.
fn stepped(alloc: Global, observer: Observer, step: &str, work: &mut Work) -> Option<Observer> {
    if step == "new" {
        return Observer::new(alloc, Schedule::new()).ok();
    }
    match step.strip_prefix('+') {
        Some(name) => append(alloc, observer, name, work),
        None => match step.strip_prefix('-') {
            Some(number) => cut(alloc, observer, number, work),
            None => arrive(alloc, observer, step, work),
        },
    }
}

pub(super) fn after(
    alloc: Global,
    observer: Observer,
    steps: &str,
    work: &mut Work,
) -> Option<Observer> {
    let mut observer = observer;
    for step in steps.split_whitespace() {
        observer = stepped(alloc, observer, step, work)?;
    }
    Some(observer)
}
