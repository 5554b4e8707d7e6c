ghost use Rattle.std.specs.Prelude.{◌<◌, ◌^◌};

mod machines;

use machines::{Allowance, Numbered};
use st_base::{Bytes, List, WantOfMemory};
use st_drive::{Stop, answer_all, drive};
use st_io::{PlainSource, ScriptSink, ScriptSource};
use std::alloc::Global;
use std::test::Fail;

// Nine lines: empty ones, long ones, one with a carriage return, the last without a line feed.
const INPUT: &[u8] = b"ab\n\nabcdef\nq\r\nabcd\nabcde\n\n\nxyz";

const REPLIES: &[u8] = b"0ab\n1\n2abcd\n3q\r\n4abcd\n5abcd\n6\n7\n8xyz\n";

// A line of these tables has the most bytes per call, the call that fails to read and the one that
// fails to write, or 0, the lines that the device allows, and the most bytes that are accepted;
// then the result of a run of the numbering machine over the input, and the number of bytes of the
// replies that it has written.

const PIECES: &str = "\
1 0 0 9 100 whole 37
2 0 0 9 100 whole 37
7 0 0 9 100 whole 37
64 0 0 9 100 whole 37";

const READ_FAULTS: &str = "\
7 1 0 9 100 read 0
7 2 0 9 100 read 6
7 3 0 9 100 read 16
7 4 0 9 100 read 22
7 5 0 9 100 read 32
7 6 0 9 100 read 32";

const WRITE_FAULTS: &str = "\
7 0 1 9 100 write 0
7 0 2 9 100 write 6
7 0 3 9 100 write 13
7 0 4 9 100 write 16
7 0 5 9 100 write 22
7 0 6 9 100 write 29
7 0 7 9 100 write 32
7 0 8 9 100 write 37";

const DEVICE_FAULTS: &str = "\
64 0 0 0 100 device 0
64 0 0 1 100 device 4
64 0 0 2 100 device 6
64 0 0 7 100 device 30
64 0 0 8 100 device 32";

const LIMITS: &str = "\
1 0 0 9 0 limit 0
64 0 0 9 0 limit 0
1 0 0 9 2 limit 0
64 0 0 9 2 limit 0
1 0 0 9 3 limit 4
64 0 0 9 3 limit 4
1 0 0 9 10 limit 6
64 0 0 9 10 limit 6
1 0 0 9 29 limit 32
64 0 0 9 29 limit 32
1 0 0 9 30 whole 37
64 0 0 9 30 whole 37";

fn number(word: &str) -> u64 {
    word.parse::<u64>().unwrap_or(0)
}

fn word_of(end: Result<(), Stop>) -> &'static str {
    match end {
        Ok(()) => "whole",
        Err(Stop::ReadFault) => "read",
        Err(Stop::WriteFault) => "write",
        Err(Stop::DeviceFault) => "device",
        Err(Stop::OverLimit) => "limit",
        Err(Stop::WantOfMemory) => "memory",
    }
}

fn one(alloc: Global, number: u64) -> Result<List<u64>, WantOfMemory> {
    let mut list = List::new(alloc);
    list.push(alloc, number)?;
    Ok(list)
}

// The result of a run, by its word in a table, and the number of bytes of the replies that it has
// written, if it wrote no others.
fn ran(
    alloc: Global,
    piece: usize,
    failing: (u64, u64),
    allowed: u64,
    limit: usize,
) -> Result<(&'static str, usize), WantOfMemory>
    requires some { 0 < piece }
    requires limited { limit < 2 ^ 62 }
{
    let input = Bytes::from_slice(alloc, INPUT)?;
    let mut source = ScriptSource::new(input, piece, one(alloc, failing.0)?);
    let mut sink = ScriptSink::new(alloc, piece, one(alloc, failing.1)?);
    let mut buffer = [0u8; 10];
    let end = drive(
        alloc,
        &mut buffer,
        limit,
        Numbered::new(),
        &mut Allowance::new(allowed),
        &mut (),
        &mut source,
        &mut sink,
    );
    let written = sink.written().as_slice();
    if REPLIES.starts_with(written) {
        Ok((word_of(end), written.len()))
    } else {
        Ok(("other replies", 0))
    }
}

fn is_so(alloc: Global, line: &str) -> Result<bool, WantOfMemory> {
    let words: Vec<&str> = line.split(' ').collect(alloc)?;
    match words.as_slice() {
        [piece, read, write, allowed, limit, end, length] => {
            let piece = (number(piece) as usize).max(1);
            let failing = (number(read), number(write));
            let limit = (number(limit) as usize).min(100);
            let (ended, written) = ran(alloc, piece, failing, number(allowed), limit)?;
            Ok(ended == *end && written as u64 == number(length))
        }
        _ => Ok(false),
    }
}

// The first line of a table with another result.
fn first_other(alloc: Global, table: &'static str) -> Result<Option<&'static str>, WantOfMemory> {
    for line in table.lines() {
        if !is_so(alloc, line)? {
            return Ok(Some(line));
        }
    }
    Ok(None)
}

fn holds(alloc: Global, table: &'static str) -> Result<(), Fail> {
    match first_other(alloc, table)? {
        Some(line) => Err(Fail::from(line)),
        None => Ok(()),
    }
}

#[test]
fn pieces_change_nothing(rt: HostRuntime) -> Result<(), Fail> {
    holds(rt.alloc(), PIECES)
}

#[test]
fn a_read_fault_leaves_the_replies_to_whole_lines(rt: HostRuntime) -> Result<(), Fail> {
    holds(rt.alloc(), READ_FAULTS)
}

#[test]
fn a_write_fault_leaves_a_beginning_of_the_replies(rt: HostRuntime) -> Result<(), Fail> {
    holds(rt.alloc(), WRITE_FAULTS)
}

#[test]
fn a_device_fault_leaves_the_replies_before_it(rt: HostRuntime) -> Result<(), Fail> {
    holds(rt.alloc(), DEVICE_FAULTS)
}

#[test]
fn the_limit_is_the_most_that_is_answered(rt: HostRuntime) -> Result<(), Fail> {
    holds(rt.alloc(), LIMITS)
}

fn replies_alike(alloc: Global) -> bool {
    let mut allowance = Allowance::new(20);
    match answer_all(alloc, Numbered::new(), &mut allowance, &mut (), INPUT) {
        Ok(replies) => replies.as_slice() == REPLIES && allowance.left() == 11,
        Err(_) => false,
    }
}

#[test]
fn the_plain_program_replies_alike(rt: HostRuntime) {
    assert!(rt; replies_alike(rt.alloc()));
}

// The first call writes, the second finishes, and there is no third: so the sink is finished once.
fn writes_once(alloc: Global) -> Result<bool, WantOfMemory> {
    let mut source = PlainSource::new(Bytes::from_vec(vec![in alloc; b'\n'; 1000]?));
    let mut sink = ScriptSink::new(alloc, 5000, one(alloc, 3)?);
    let mut buffer = [0u8; 1000];
    let end = drive(
        alloc,
        &mut buffer,
        1000,
        Numbered::new(),
        &mut Allowance::new(1000),
        &mut (),
        &mut source,
        &mut sink,
    );
    Ok(end == Ok(()) && sink.written().as_slice().len() == 2000 && sink.calls() == 2)
}

#[test]
fn many_short_lines_are_one_write(rt: HostRuntime) -> Result<(), Fail> {
    assert!(rt; writes_once(rt.alloc())?);
    Ok(())
}
