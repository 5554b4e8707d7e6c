//! Files of one byte too many.
mod samples;

use crate::sizes::samples::{
    LONG_C1, LONG_C1_REPLIES, LONG_K1, LONG_K1_REPLIES, LONG_P1, LONG_P1_REPLIES, LONG_Q1,
    LONG_Q1_REPLIES,
};
use st_base::{Bytes, WantOfMemory, Work};
use st_node::Node;
use st_params::Schedule;
use std::alloc::Global;
use std::test::Fail;

// The line of a file of three times this many spaces and two more.
fn spaces(alloc: Global, threes: u32) -> Result<Bytes, WantOfMemory> {
    let mut line = Bytes::from_slice(alloc, b"content ")?;
    for _n in 0..threes {
        line.push_all(alloc, b"ICAg")?;
    }
    line.push_all(alloc, b"ICA")?;
    Ok(line)
}

// The replies of a node to these lines, after its earlier replies.
fn replies_behind(
    alloc: Global,
    started: (Node, Bytes),
    lines: &str,
    work: &mut Work,
) -> Result<Bytes, WantOfMemory> {
    let (mut node, mut replies) = started;
    for line in lines.lines() {
        let (next, reply) = node.answer(alloc, line.as_bytes(), work)?;
        node = next;
        replies.push_all(alloc, reply.as_slice())?;
    }
    Ok(replies)
}

// Whether these are the replies of a node to a file of three times this many spaces and two more,
// and then to these lines.
fn replies_so(
    rt: &HostRuntime,
    threes: u32,
    lines: &str,
    replies: &str,
) -> Result<bool, WantOfMemory> {
    let alloc = rt.alloc();
    let mut work = Work::new(rt);
    let node = Node::new(alloc, Schedule::new())?;
    let started = node.answer(alloc, spaces(alloc, threes)?.as_slice(), &mut work)?;
    let written = replies_behind(alloc, started, lines, &mut work)?;
    Ok(written.as_slice() == replies.as_bytes())
}

#[test]
fn a_core_index_file_has_a_largest_size(rt: HostRuntime) -> Result<(), Fail> {
    assert!(rt; replies_so(&rt, 333_333, LONG_C1, LONG_C1_REPLIES)?);
    Ok(())
}

#[test]
fn a_provisional_index_file_has_a_largest_size(rt: HostRuntime) -> Result<(), Fail> {
    assert!(rt; replies_so(&rt, 333_333, LONG_P1, LONG_P1_REPLIES)?);
    Ok(())
}

#[test]
fn a_proof_file_has_a_largest_size(rt: HostRuntime) -> Result<(), Fail> {
    assert!(rt; replies_so(&rt, 5_333_333, LONG_Q1, LONG_Q1_REPLIES)?);
    Ok(())
}

#[test]
fn a_chunk_file_has_a_largest_size(rt: HostRuntime) -> Result<(), Fail> {
    assert!(rt; replies_so(&rt, 3_333_333, LONG_K1, LONG_K1_REPLIES)?);
    Ok(())
}
