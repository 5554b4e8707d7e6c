mod entries;
mod files;
mod judged;

use st_anchor::{Bound, RoleState};
use st_base::{Bytes, WantOfMemory, Work};
use st_content::Content;
use st_datafiles::Role;
use st_params::Schedule;
use std::alloc::Global;

// What is known about an entry of version 1 with this text, after these files were received one by
// one.
fn after(
    alloc: Global,
    text: &str,
    files: &[&str],
    work: &mut Work,
) -> Result<Bound, WantOfMemory> {
    let mut content = Content::new(alloc);
    let mut bound = Bound::new(alloc, text.as_bytes(), &Schedule::new().at(0))?;
    for file in files {
        let file = Bytes::from_slice(alloc, file.as_bytes())?;
        let _ = content.put(alloc, file)?;
        bound = bound.settle(alloc, &content, work)?;
    }
    Ok(bound)
}

fn word(state: RoleState) -> &'static str {
    match state {
        RoleState::Unneeded => "unneeded",
        RoleState::Missing(_) => "missing",
        RoleState::Rejected(rule) => rule.name(),
        RoleState::Read => "read",
    }
}

// Whether these are the states of the core index file, and of the other four roles.
fn shows(bound: &Bound, core: &str, others: &str) -> bool {
    let mut words = others.split(' ');
    word(bound.state(Role::Core)) == core
        && words.next() == Some(word(bound.state(Role::CoreProof)))
        && words.next() == Some(word(bound.state(Role::Provisional)))
        && words.next() == Some(word(bound.state(Role::ProvisionalProof)))
        && words.next() == Some(word(bound.state(Role::Chunk)))
}

// Whether these are then the states of the entry's roles, after this many files were read and texts
// opened.
fn stands(
    rt: &HostRuntime,
    text: &str,
    files: &[&str],
    core: &str,
    others: &str,
    counts: (u64, u64),
) -> Result<bool, WantOfMemory> {
    let mut work = Work::new(rt);
    let bound = after(rt.alloc(), text, files, &mut work)?;
    Ok(shows(&bound, core, others) && (work.files(), work.proofs()) == counts)
}
