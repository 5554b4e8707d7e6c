ghost use Rattle.std.specs.Prelude.{◌≡◌, ◌+◌, ◌≤◌, [], ◌∷◌, ◌++◌, length, take, vec_len, IfOk, OnOk};
ghost use Rattle.std.proofs.Props.{props};
ghost use Rattle.st_base.specs.Texts.{HasNo};
ghost use Rattle.st_drive.specs.Lines.{capped, FitsAfter, FitsBeside};
ghost use Rattle.st_drive.specs.Runs.{Orderly, Writes, turn};
ghost use Rattle.st_drive.specs.inside.Parts.{Gathers, outlet};

use crate::lines::{LINE_FEED, cut_front, cut_line, keep_front};
use crate::machine::{Machine, StepError, Stop};
use crate::replies::{gather, write_gathered};
use st_base::cut_at;
use st_io::Sink;
use std::alloc::Global;

// Answers one line, and buffers the reply.
fn answer_line<M: Machine, K: Sink>(
    alloc: Global,
    machine: M,
    context: &mut M::Context,
    device: &mut M::Device,
    sink: &mut K,
    gathered: &mut Vec<u8>,
    line: &[u8],
) -> Result<M, Stop>
    requires { M.fits machine (context.old, device.old) (length line.now + 1) }
    ensures fits { IfOk result (λ next. FitsAfter M.fits
        machine (context.old, device.old) (length line.now + 1) next (context.new, device.new)) }
    ensures gathers { Gathers (turn M.meaning M.CAP machine (context.old, device.old) (context.new, device.new)) (line.now ∷ [])
        (outlet (K.written sink.old) gathered.old.items (K.written sink.new) gathered.new.items) (λ next. next) result }
    ensures orderly { Orderly (K.is_finished sink.old) (K.is_finished sink.new) (K.faults sink.old, K.faults sink.new)
        (M.faults (context.old, device.old), M.faults (context.new, device.new)) result }
{
    match machine.step(alloc, context, device, line) {
        Err(StepError::WantOfMemory) => Err(Stop::WantOfMemory),
        Err(StepError::DeviceFault) => Err(Stop::DeviceFault),
        Ok((next, reply)) => match gather(sink, gathered, reply) {
            Err(stop) => Err(stop),
            Ok(()) => Ok(next),
        },
    }
}

// Answers the line that ends with `front`, and starts a new one.
fn end_line<M: Machine, K: Sink>(
    alloc: Global,
    machine: M,
    context: &mut M::Context,
    device: &mut M::Device,
    line: &mut Vec<u8>,
    sink: &mut K,
    gathered: &mut Vec<u8>,
    front: &[u8],
) -> Result<M, Stop>
    requires cap { vec_len line.old ≤ M.CAP }
    requires fits { M.fits machine (context.old, device.old) (vec_len line.old + length front.now + 1) }
    ensures fits { IfOk result (λ next. FitsAfter M.fits
        machine (context.old, device.old) (vec_len line.old + length front.now + 1) next (context.new, device.new)) }
    ensures gathers { Gathers (turn M.meaning M.CAP machine (context.old, device.old) (context.new, device.new))
        (take M.CAP (line.old.items ++ front.now) ∷ [])
        (outlet (K.written sink.old) gathered.old.items (K.written sink.new) gathered.new.items) (λ next. next) result }
    ensures emptied { OnOk result (line.new.items ≡ []) }
    ensures orderly { Orderly (K.is_finished sink.old) (K.is_finished sink.new) (K.faults sink.old, K.faults sink.new)
        (M.faults (context.old, device.old), M.faults (context.new, device.new)) result }
{
    if line.is_empty() {
        // The whole line is in the piece, so it isn't copied.
        let front = cut_front(M::CAP, front);
        return answer_line(alloc, machine, context, device, sink, gathered, front);
    }
    if keep_front(M::CAP, line, front).is_err() {
        return Err(Stop::WantOfMemory);
    }
    let next = answer_line(alloc, machine, context, device, sink, gathered, line)?;
    line.clear();
    Ok(next)
}

/// A run in progress: its machine, and the unfinished line, of which at most `CAP` bytes are kept.
#[derive(Drop)]
pub struct Progress<M: Machine> {
    /// The machine, after all whole lines.
    pub machine: M,
    /// The first bytes of the unfinished line.
    pub line: Vec<u8>,
    pub ghost capped: { vec_len line ≤ M.CAP },
    pub ghost open: { HasNo 10 line.items } by { Prim.hlevel props },
}

impl<M: Machine> Progress<M> {
    /// A run that has taken nothing. It allocates nothing.
    pub fn new(alloc: Global, machine: M) -> Self
        ensures machine { result.machine ≡ machine }
        ensures line { result.line.items ≡ [] }
    {
        Progress {
            machine,
            line: Vec::new(alloc),
        }
    }

    // Takes the next bytes, answers each line that they complete, and buffers the replies.
    fn answer_lines<K: Sink>(
        self,
        alloc: Global,
        context: &mut M::Context,
        device: &mut M::Device,
        sink: &mut K,
        gathered: &mut Vec<u8>,
        piece: &[u8],
    ) -> Result<Self, Stop>
        requires fits { M.fits self.machine (context.old, device.old) (vec_len self.line + length piece.now) }
        ensures fits { IfOk result (λ next. FitsBeside M.fits
            self.machine (context.old, device.old) (vec_len self.line + length piece.now)
            next.machine (context.new, device.new) (vec_len next.line)) }
        ensures gathers { Gathers (turn M.meaning M.CAP self.machine (context.old, device.old) (context.new, device.new))
            (capped M.CAP (self.line.items ++ piece.now)).0
            (outlet (K.written sink.old) gathered.old.items (K.written sink.new) gathered.new.items) (λ next. next.machine) result }
        ensures line { IfOk result (λ next. next.line.items
            ≡ (capped M.CAP (self.line.items ++ piece.now)).1) }
        ensures orderly { Orderly (K.is_finished sink.old) (K.is_finished sink.new) (K.faults sink.old, K.faults sink.new)
            (M.faults (context.old, device.old), M.faults (context.new, device.new)) result }
    {
        let Progress {
            mut machine,
            mut line,
        } = self;
        let mut rest = piece;
        'lines: while let Some((front, after)) = cut_at(rest, LINE_FEED) {
            machine = match end_line(
                alloc, machine, context, device, &mut line, sink, gathered, front,
            ) {
                Ok(next) => next,
                Err(stop) => return Err(stop),
            };
            rest = after;
        }
        if keep_front(M::CAP, &mut line, rest).is_err() {
            return Err(Stop::WantOfMemory);
        }
        Ok(Progress { machine, line })
    }

    // Takes the next bytes, answers each line that they complete, and then writes the replies.
    fn feed_at_once<K: Sink>(
        self,
        alloc: Global,
        context: &mut M::Context,
        device: &mut M::Device,
        sink: &mut K,
        piece: &[u8],
    ) -> Result<Self, Stop>
        requires fits { M.fits self.machine (context.old, device.old) (vec_len self.line + length piece.now) }
        ensures fits { IfOk result (λ next. FitsBeside M.fits
            self.machine (context.old, device.old) (vec_len self.line + length piece.now)
            next.machine (context.new, device.new) (vec_len next.line)) }
        ensures writes { Writes ⊥ (turn M.meaning M.CAP self.machine (context.old, device.old) (context.new, device.new))
            (capped M.CAP (self.line.items ++ piece.now)).0 (K.written sink.old) (K.written sink.new) (λ next. next.machine) result }
        ensures line { IfOk result (λ next. next.line.items
            ≡ (capped M.CAP (self.line.items ++ piece.now)).1) }
        ensures orderly { Orderly (K.is_finished sink.old) (K.is_finished sink.new) (K.faults sink.old, K.faults sink.new)
            (M.faults (context.old, device.old), M.faults (context.new, device.new)) result }
    {
        let mut gathered = Vec::new(alloc);
        let outcome = self.answer_lines(alloc, context, device, sink, &mut gathered, piece);
        if write_gathered(sink, &mut gathered).is_err() {
            return Err(Stop::WriteFault);
        }
        match outcome {
            Ok(next) => Ok(next),
            Err(stop) => Err(stop),
        }
    }

    // Takes the next bytes line by line, and writes each reply before the next line is executed.
    fn feed_promptly<K: Sink>(
        self,
        alloc: Global,
        context: &mut M::Context,
        device: &mut M::Device,
        sink: &mut K,
        piece: &[u8],
    ) -> Result<Self, Stop>
        requires fits { M.fits self.machine (context.old, device.old) (vec_len self.line + length piece.now) }
        ensures fits { IfOk result (λ next. FitsBeside M.fits
            self.machine (context.old, device.old) (vec_len self.line + length piece.now)
            next.machine (context.new, device.new) (vec_len next.line)) }
        ensures writes { Writes M.meaning.prompt (turn M.meaning M.CAP self.machine (context.old, device.old) (context.new, device.new))
            (capped M.CAP (self.line.items ++ piece.now)).0 (K.written sink.old) (K.written sink.new) (λ next. next.machine) result }
        ensures line { IfOk result (λ next. next.line.items
            ≡ (capped M.CAP (self.line.items ++ piece.now)).1) }
        ensures orderly { Orderly (K.is_finished sink.old) (K.is_finished sink.new) (K.faults sink.old, K.faults sink.new)
            (M.faults (context.old, device.old), M.faults (context.new, device.new)) result }
    {
        let mut progress = self;
        let mut rest = piece;
        'lines: while let Some((line, after)) = cut_line(rest) {
            progress = match progress.feed_at_once(alloc, context, device, sink, line) {
                Ok(next) => next,
                Err(stop) => return Err(stop),
            };
            rest = after;
        }
        match progress.feed_at_once(alloc, context, device, sink, rest) {
            Ok(next) => Ok(next),
            Err(stop) => Err(stop),
        }
    }

    /// Takes the next bytes, answers each line that they complete, and writes the replies.
    ///
    /// If the result is `Ok`, the replies to all lines that these bytes complete are written, and
    /// at most `CAP` bytes of the line that they start are kept. If it is `Err`, a prefix of these
    /// replies is written: if the machine gave up, those to all earlier lines, unless the sink
    /// fails too. At most one line that a prompt machine has executed then has an unwritten reply.
    /// `WriteFault` and `DeviceFault` are returned only if the count of faults of the sink or the
    /// device rose; it may run out of memory, and there is no other stop. The sink isn't finished.
    pub fn feed<K: Sink>(
        self,
        alloc: Global,
        context: &mut M::Context,
        device: &mut M::Device,
        sink: &mut K,
        piece: &[u8],
    ) -> Result<Self, Stop>
        requires fits { M.fits self.machine (context.old, device.old) (vec_len self.line + length piece.now) }
        ensures fits { IfOk result (λ next. FitsBeside M.fits
            self.machine (context.old, device.old) (vec_len self.line + length piece.now)
            next.machine (context.new, device.new) (vec_len next.line)) }
        ensures writes { Writes M.meaning.prompt (turn M.meaning M.CAP self.machine (context.old, device.old) (context.new, device.new))
            (capped M.CAP (self.line.items ++ piece.now)).0 (K.written sink.old) (K.written sink.new) (λ next. next.machine) result }
        ensures line { IfOk result (λ next. next.line.items
            ≡ (capped M.CAP (self.line.items ++ piece.now)).1) }
        ensures orderly { Orderly (K.is_finished sink.old) (K.is_finished sink.new) (K.faults sink.old, K.faults sink.new)
            (M.faults (context.old, device.old), M.faults (context.new, device.new)) result }
    {
        if M::PROMPT {
            return self.feed_promptly(alloc, context, device, sink, piece);
        }
        match self.feed_at_once(alloc, context, device, sink, piece) {
            Ok(next) => Ok(next),
            Err(stop) => Err(stop),
        }
    }
}
