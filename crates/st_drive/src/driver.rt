ghost use Rattle.std.specs.Io.KnownBytes.{Consumes, Keeps, IsAtEnd};
ghost use Rattle.std.specs.Prelude.{◌≡◌, ◌+◌, ◌≤◌, ◌<◌, ◌^◌, take, length, vec_len, true, IfOk, OnOk, OnErr, IfErr, IsTrue};
ghost use Rattle.st_base.specs.Texts.{HasNo};
ghost use Rattle.st_io.specs.Past.{Rose, HasCause, FinishesNothing};
ghost use Rattle.st_drive.specs.Lines.{last_line, streams};
ghost use Rattle.st_drive.specs.Runs.{Orderly, Writes, Wrote, WroteSome, turn, course, IsRunStop};
ghost use Rattle.st_drive.specs.Tables.{RunTable, status_of, AnswersLines, is_end};
ghost use Rattle.st_drive.specs.inside.Parts.{Ended};

use crate::machine::{Machine, Stop};
use crate::progress::Progress;
use st_base::WantOfMemory;
use st_io::{Failed, Sink, Source};
use std::alloc::Global;
use std::mem::forget;

// Reads at most `want` bytes into the front of the buffer.
fn read_some<S: Source>(source: &mut S, buffer: &mut [u8], want: usize) -> Result<usize, Failed>
    requires some { 0 < want }
    requires room { want ≤ length buffer.old }
    ensures count { IfOk result (λ count. count ≤ want) }
    ensures bytes { IfOk result (λ count.
        Consumes (S.left source.old) (S.left source.new) (take count buffer.new)) }
    ensures end { IfOk result (λ count. count ≡ 0 → IsAtEnd (S.left source.new)) }
    ensures err { OnErr result (Keeps (S.left source.old) (S.left source.new)) }
    ensures cause { HasCause (S.faults source.old) (S.faults source.new) result }
{
    match source.read(&mut buffer[..want]) {
        Ok(count) => Ok(count),
        Err(failed) => Err(failed),
    }
}

// Answers the line without a line feed, if it has a byte.
fn answer_last<M: Machine, K: Sink>(
    alloc: Global,
    progress: Progress<M>,
    context: &mut M::Context,
    device: &mut M::Device,
    sink: &mut K,
) -> Result<M, Stop>
    requires fits { M.fits progress.machine (context.old, device.old) (vec_len progress.line + 1) }
    ensures writes { Writes M.meaning.prompt (turn M.meaning M.CAP progress.machine (context.old, device.old) (context.new, device.new))
        (last_line progress.line.items) (K.written sink.old) (K.written sink.new) (λ next. next) result }
    ensures orderly { Orderly (K.is_finished sink.old) (K.is_finished sink.new) (K.faults sink.old, K.faults sink.new)
        (M.faults (context.old, device.old), M.faults (context.new, device.new)) result }
{
    if progress.line.is_empty() {
        return Ok(progress.machine);
    }
    // The end of the input ends the line, as a line feed does.
    match progress.feed(alloc, context, device, sink, b"\n") {
        Ok(next) => Ok(next.machine),
        Err(stop) => Err(stop),
    }
}

// Answers the line without a line feed, if it has a byte, and finishes the sink.
fn end_run<M: Machine, K: Sink>(
    alloc: Global,
    progress: Progress<M>,
    context: &mut M::Context,
    device: &mut M::Device,
    sink: &mut K,
) -> Result<(), Stop>
    requires fits { M.fits progress.machine (context.old, device.old) (vec_len progress.line + 1) }
    ensures ok { OnOk result ((next : _) × Wrote M.meaning M.CAP
        progress.machine (context.old, device.old) (last_line progress.line.items)
        next (context.new, device.new) (K.written sink.old) (K.written sink.new)) }
    ensures err { OnErr result (WroteSome M.meaning.prompt M.meaning M.CAP
        progress.machine (context.old, device.old) (last_line progress.line.items)
        (context.new, device.new) (K.written sink.old) (K.written sink.new)) }
    ensures orderly { Ended (K.is_finished sink.old) (K.is_finished sink.new) (K.faults sink.old, K.faults sink.new)
        (M.faults (context.old, device.old), M.faults (context.new, device.new)) result }
{
    match answer_last(alloc, progress, context, device, sink) {
        Err(stop) => Err(stop),
        Ok(machine) => {
            // The process ends after a run, which frees all memory at once.
            forget(machine);
            match sink.finish() {
                Ok(()) => Ok(()),
                Err(_) => Err(Stop::WriteFault),
            }
        }
    }
}

/// Runs the machine over all lines of a source of at most `limit` bytes, and writes its replies.
///
/// The bytes of each read are given to one call of `Progress::feed`, before the next read, so a
/// line is answered and its reply written after its line feed was read. A prompt machine's reply is
/// written before the next line is executed, so whatever ends the run, at most one executed line
/// has an unwritten reply. At the end of the input the last line is answered too, if it has a byte.
/// Reads go through `buffer`, and at most `limit + 1` bytes are taken. The machine gets the first
/// `CAP` bytes of a line; all clauses are about the whole line.
///
/// The result is `Ok` at the end of the input, when everything is answered and written and the sink
/// was finished, once and as the last step; no other end finishes it. That no read is between a
/// line feed and its reply, and that the sink is finished once, follows from the code and is not a
/// clause. `ReadFault`, `WriteFault` and `DeviceFault` are returned only if the count of faults of
/// the source, the sink or the device rose. `OverLimit` is returned if and only if `limit` bytes
/// were taken and the source gave one more, unless a fault ended the run or memory ran out; that
/// byte isn't answered. Under `ReadFault` and `OverLimit` every whole line is answered and the
/// replies are written; under `WriteFault`, `DeviceFault` and `WantOfMemory` a prefix of the
/// replies is. It may run out of memory. Clauses about replies hold if the machine's meaning
/// reveals them.
///
/// At the end of the input the machine is not dropped: its memory is freed with the process.
pub fn drive<M: Machine, S: Source, K: Sink>(
    alloc: Global,
    buffer: &mut [u8],
    limit: usize,
    machine: M,
    context: &mut M::Context,
    device: &mut M::Device,
    source: &mut S,
    sink: &mut K,
) -> Result<(), Stop>
    requires some { 0 < length buffer.old }
    requires fits { M.fits machine (context.old, device.old) (limit + 1) }
    requires limit { limit < 2 ^ 62 }
    ensures table { RunTable (course M.meaning machine (context.old, device.old) (context.new, device.new)) limit
        (streams S.left S.faults source.old source.new K.written K.is_finished K.faults sink.old sink.new) (status_of result) }
    ensures finished { OnOk result (K.is_finished sink.new ≡ true) }
    ensures unfinished { OnErr result
        (FinishesNothing (K.is_finished sink.old) (K.is_finished sink.new)) }
    ensures source_later { S.faults source.old ≤ S.faults source.new }
    ensures sink_later { K.faults sink.old ≤ K.faults sink.new }
    ensures context_later { M.faults (context.old, device.old) ≤ M.faults (context.new, device.new) }
    ensures cause { IfErr result (IsRunStop (Rose (S.faults source.old) (S.faults source.new))
        (Rose (K.faults sink.old) (K.faults sink.new))
        (Rose (M.faults (context.old, device.old)) (M.faults (context.new, device.new)))) }
{
    let mut progress = Progress::new(alloc, machine);
    let mut room = limit;
    'pieces: loop {
        let want = buffer.len().min(room + 1);
        let count = match read_some(source, buffer, want) {
            Ok(count) => count,
            Err(_) => return Err(Stop::ReadFault),
        };
        if count == 0 {
            return end_run(alloc, progress, context, device, sink);
        }
        if count > room {
            match progress.feed(alloc, context, device, sink, &buffer[..room]) {
                Ok(_) => return Err(Stop::OverLimit),
                Err(stop) => return Err(stop),
            }
        }
        room -= count;
        progress = match progress.feed(alloc, context, device, sink, &buffer[..count]) {
            Ok(next) => next,
            Err(stop) => return Err(stop),
        };
    }
}

// How many bytes one read may return.
const PIECE: usize = 65_536;

/// Runs a machine over a source of at most `limit` bytes, and returns the status of the run: 0 at
/// the end of the input, 2 if the source failed, 3 if the sink did, 4 if the machine's device did,
/// 5 if the source gave more bytes than the limit, 6 if memory ran out. There is no other.
pub fn run_machine<M: Machine, S: Source, K: Sink>(
    alloc: Global,
    limit: usize,
    machine: M,
    context: &mut M::Context,
    device: &mut M::Device,
    source: &mut S,
    sink: &mut K,
) -> u8
    requires limit { limit < 2 ^ 62 }
    requires fits { M.fits machine (context.old, device.old) (limit + 1) }
    ensures { AnswersLines (course M.meaning machine (context.old, device.old) (context.new, device.new)) limit
        (streams S.left S.faults source.old source.new K.written K.is_finished K.faults sink.old sink.new)
        (Rose (M.faults (context.old, device.old)) (M.faults (context.new, device.new))) result }
{
    match new_buffer(alloc) {
        Ok(mut buffer) => status(drive(
            alloc,
            buffer.as_mut_slice(),
            limit,
            machine,
            context,
            device,
            source,
            sink,
        )),
        Err(_) => 6,
    }
}

fn new_buffer(alloc: Global) -> Result<Vec<u8>, WantOfMemory>
    ensures { IfOk result (λ buffer. 0 < vec_len buffer) }
{
    let buffer = vec![in alloc; 0u8; PIECE]?;
    Ok(buffer)
}

fn status(ending: Result<(), Stop>) -> u8
    ensures value { result ≡ status_of ending }
    ensures known { IsTrue (is_end result) }
{
    match ending {
        Ok(()) => 0,
        Err(Stop::ReadFault) => 2,
        Err(Stop::WriteFault) => 3,
        Err(Stop::DeviceFault) => 4,
        Err(Stop::OverLimit) => 5,
        Err(Stop::WantOfMemory) => 6,
    }
}
