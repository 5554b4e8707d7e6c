use itoa::Buffer;
use st_base::{Bytes, List, WantOfMemory};
use st_workload::events;
use std::alloc::Global;
use std::test::Fail;

// The lines of another program's second node for seed 1, three identifiers and four rounds of
// updates: anchors and files by their numbers.
const EVENTS: &str =
    "a0 a1 rollback 1 a1 f8 f18 f3 a2 f12 f17 a3 rollback 3 a3 a4 f1 f5 f11 f2 f16 f13 f4 f14 f6 f7 f15 f0 f10 f9 ";

// This many short lines: a letter and a number from 0 on.
fn numbered(alloc: Global, letter: &[u8], count: u32) -> Result<List<Bytes>, WantOfMemory> {
    let mut lines = List::new(alloc);
    for number in 0..count {
        let mut line = Bytes::from_slice(alloc, letter)?;
        line.push_all(alloc, Buffer::new().format(number).as_bytes())?;
        lines.push(alloc, line)?;
    }
    Ok(lines)
}

fn joined(alloc: Global, lines: &[Bytes]) -> Result<Bytes, WantOfMemory> {
    let mut text = Bytes::new(alloc);
    for line in lines {
        text.push_all(alloc, line.as_slice())?;
        text.push_all(alloc, b" ")?;
    }
    Ok(text)
}

fn orders_the_events(alloc: Global) -> Result<bool, WantOfMemory> {
    let anchors = numbered(alloc, b"a", 5)?;
    let files = numbered(alloc, b"f", 19)?;
    let lines = events(alloc, 1, 3, anchors.as_slice(), files)?;
    let text = joined(alloc, lines.as_slice())?;
    Ok(text.as_slice() == EVENTS.as_bytes())
}

#[test]
fn a_seed_orders_the_events(rt: HostRuntime) -> Result<(), Fail> {
    assert!(rt; orders_the_events(rt.alloc())?);
    Ok(())
}
