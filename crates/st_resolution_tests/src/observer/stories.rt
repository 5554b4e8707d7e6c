//! Stories: each line has steps, and after a bar what is seen then. A line without it applies at
//! most 8 operations.
use super::seen::are_seen;
use super::steps::{after, are_known};
use st_base::Work;
use st_observer::Observer;
use st_params::Schedule;

fn steps_of(line: &str) -> &str {
    match line.split_once('|') {
        Some((steps, _)) => steps,
        None => line,
    }
}

// Whether the observer is as the line says, or if the line says nothing, as the words for all lines
// say.
fn is_so(rt: &HostRuntime, observer: &Observer, applied: u64, line: &str, all: &str) -> bool {
    match line.split_once('|') {
        Some((steps, looks)) => { are_known(steps) && are_seen(rt, observer, applied, looks) }
        None => are_known(line) && are_seen(rt, observer, applied, all),
    }
}

// The first line after which the observer differs.
pub(super) fn first_other(rt: &HostRuntime, story: &'static str) -> Option<&'static str> {
    first_other_under(rt, story, "applied 8")
}

// The same, if this is seen after each line that says nothing.
pub(super) fn first_other_under(
    rt: &HostRuntime,
    story: &'static str,
    all: &str,
) -> Option<&'static str> {
    let alloc = rt.alloc();
    let mut work = Work::new(rt);
    let mut observer = match Observer::new(alloc, Schedule::new()) {
        Ok(observer) => observer,
        Err(_) => return Some("new"),
    };
    for line in story.lines() {
        let before = work.applies();
        observer = match after(alloc, observer, steps_of(line), &mut work) {
            Some(observer) => observer,
            None => return Some(line),
        };
        let applied = work.applies().saturating_sub(before);
        if !is_so(rt, &observer, applied, line, all) {
            return Some(line);
        }
    }
    None
}
