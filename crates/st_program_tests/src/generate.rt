use st_base::{List, Text, WantOfMemory, Work};
use st_generate::{Plan, read_plan, run_generate};
use st_io::{PlainSink, ScriptSink, Sink};
use st_node::Node;
use std::alloc::Global;
use std::test::Fail;

// The summary of the smallest workload, computed by hand.
const SMALLEST: &str =
    "dids 1\nbatches 1\noperations 1\nanchors 1\nrollbacks 0\nfiles 3\nresolved 1\nagreed 1\nfilesWithin yes\n";

// Words after what they are: a plan, or none.
const PLANS: &str = "plan 0 1 0
plan 18446744073709551615 200 30
none 18446744073709551616 1 0
none 00 1 0
none +1 1 0
none 1 0 0
none 1 201 0
none 1 1 31
none 1 1 01
none 1 1
none 1 1 1 1
none 1 1 ";

// The status of the smallest workload's run, which writes to this sink.
fn run<K: Sink>(alloc: Global, sink: &mut K, work: &mut Work) -> u8 {
    let plan = Plan {
        seed: 0,
        dids: 1,
        rounds: 0,
    };
    run_generate::<Node, K>(alloc, plan, sink, work)
}

fn writes_the_smallest(alloc: Global, work: &mut Work) -> bool {
    let mut sink = PlainSink::new(alloc);
    run(alloc, &mut sink, work) == 0 && sink.written().as_slice() == SMALLEST.as_bytes()
}

// A sink that takes three bytes per call, and fails at the second.
fn stops_where_the_sink_fails(alloc: Global, work: &mut Work) -> Result<bool, WantOfMemory> {
    let mut failing = List::new(alloc);
    failing.push(alloc, 2)?;
    let mut sink = ScriptSink::new(alloc, 3, failing);
    Ok(run(alloc, &mut sink, work) == 3 && sink.written().as_slice() == "did".as_bytes())
}

fn is_plan(alloc: Global, words: &str) -> Result<bool, WantOfMemory> {
    let mut list = List::new(alloc);
    for word in words.split(' ') {
        list.push(alloc, Text::from_text(alloc, word)?)?;
    }
    Ok(read_plan(list.as_slice()).is_some())
}

// Whether the words of this line are what its first word says.
fn is_read(alloc: Global, line: &str) -> Result<bool, WantOfMemory> {
    match line.split_once(' ') {
        Some((kind, words)) => Ok(is_plan(alloc, words)? == (kind == "plan")),
        None => Ok(false),
    }
}

// The first line that is read differently.
fn misread(alloc: Global) -> Result<Option<&'static str>, WantOfMemory> {
    for line in PLANS.lines() {
        if !is_read(alloc, line)? {
            return Ok(Some(line));
        }
    }
    Ok(None)
}

#[test]
fn the_smallest_workload_is_summed_up(rt: HostRuntime) -> Result<(), Fail> {
    let mut work = Work::new(&rt);
    assert!(rt; writes_the_smallest(rt.alloc(), &mut work));
    assert!(rt; stops_where_the_sink_fails(rt.alloc(), &mut work)?);
    Ok(())
}

#[test]
fn a_plan_has_three_numbers_within_bounds(rt: HostRuntime) -> Result<(), Fail> {
    match misread(rt.alloc())? {
        Some(line) => Err(Fail::from(line)),
        None => Ok(()),
    }
}
