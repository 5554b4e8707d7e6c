ghost use Rattle.std.specs.Prelude.{◌≡◌, ◌≤◌, IfOk, OnOk, length};
ghost use Rattle.st_base.specs.Work.{ProofsAtMost};
ghost use Rattle.st_node.specs.Laws.{TellsChange};
ghost use Rattle.st_node.specs.inside.Changed.{IsCountable, Serves, TakesSome};
ghost use Rattle.st_node.specs.Command.{command_of};
ghost use Rattle.st_node.specs.Machine.{AnswersWith, answered, answered_anchor, answered_command, answered_content, answered_flush, answered_report, answered_rollback, answered_submit, answered_wanted, new_machine};
ghost use Rattle.st_node.specs.Work.{AdmittedCounts, ArrivalCounts, CommandCounts, FlushCounts, LineCounts, RollbackCounts, StaysDue, entry_of_command, entry_of_line, submitted_by, submitted_by_line};
ghost use Rattle.st_ledger.specs.Ledger.{admitted};

use crate::batches::{limits_now, submit, take_files, tell_batch};
use crate::command::{Command, LineRefused, read_command};
use crate::explaining::explain;
use crate::replies::{cause_word, ledger_word, resolve, tell_states, tell_wanted};
use itoa::Buffer;
use st_base::{Bytes, WantOfMemory, Work, reply};
use st_batch::{Batch, FlushRefused, Queue};
use st_content::Put;
use st_hash::hash_text;
use st_ledger::Entry;
use st_observer::Observer;
use st_params::Schedule;
use std::alloc::Global;
use std::marker::Model;

/// A node. Contracts see the reference machine: its schedule of limits, its ledger and its files,
/// and the operations that wait for a batch.
#[derive(Drop)]
pub struct Node {
    pub(crate) observer: Observer,
    pub(crate) queue: Queue,
}

impl Model for Node {
    ghost use Rattle.st_node.specs.Machine.{coded_machine, Machine};

    ghost Value = { Machine };

    ghost coded = { coded_machine };

    ghost view = { λ n. record { observed = n.observer; queue = n.queue } };
}

impl Node {
    /// A node under this schedule of limits, without entries and files.
    pub fn new(alloc: Global, schedule: Schedule) -> Result<Node, WantOfMemory>
        ensures { IfOk result (λ node. node ≡ new_machine schedule) }
    {
        let observer = Observer::new(alloc, schedule)?;
        Ok(Node {
            observer,
            queue: Queue::new(alloc),
        })
    }

    /// The ledger and the files received, and all that follows from them.
    pub fn observer(&self) -> &Observer
        ensures { result.now ≡ self.now.observed }
    {
        &self.observer
    }

    /// The number of operations that wait for a batch.
    pub fn queued(&self) -> usize
        ensures { result ≡ length self.now.queue }
    {
        self.queue.len()
    }

    /// Answers a line, which is given without its line feed. The reply has its line end. It has the
    /// form that `changing` recognizes if and only if the line changed the node.
    ///
    /// The counts are bounded by the line's command, and nothing is counted for a line that is not
    /// a command. Over all lines, at most five files are read for each accepted anchor, and at most
    /// as many signed texts opened as these declare operations, and one for each `submit`.
    pub fn answer(
        self,
        alloc: Global,
        line: &[u8],
        work: &mut Work,
    ) -> Result<(Node, Bytes), WantOfMemory>
        ensures answer { IfOk result (AnswersWith (answered self line.now)) }
        ensures changing { IfOk result (λ done. TellsChange self done.0 done.1) }
        ensures counts { LineCounts self (command_of line.now) work.old work.new }
        ensures due { StaysDue self.observed (answered self line.now).next.observed
            (entry_of_line self line.now) (submitted_by_line line.now) work.old work.new }
    {
        match read_command(alloc, line) {
            Ok(command) => self.step(alloc, command, work),
            Err(LineRefused::BadLine(cause)) => {
                let text = reply(alloc, "refused line ", cause_word(cause).as_bytes())?;
                Ok((self, text))
            }
            Err(LineRefused::WantOfMemory) => Err(WantOfMemory),
        }
    }

    /// Executes a command, and returns the reply with its line end. It has the form that `changing`
    /// recognizes if and only if the command changed the node.
    ///
    /// A `content` and an `anchor` count at most one file for each role that they decide, and at
    /// most the signed texts of the proof files that they read. A `rollback` counts neither. A
    /// `resolve` counts neither, and at most one applied operation; an `explain` counts neither,
    /// and at most as many applied operations as entries give for its identifier. `wanted` and
    /// `report` count nothing. A `submit` counts at most one signed text, also if it is refused. A
    /// `flush` counts what its files do when they are received one after another, and nothing if
    /// nothing is queued. No count ever falls.
    pub fn step(
        self,
        alloc: Global,
        command: Command<'_>,
        work: &mut Work,
    ) -> Result<(Node, Bytes), WantOfMemory>
        ensures answer { IfOk result (AnswersWith (answered_command self command.entry)) }
        ensures changing { IfOk result (λ done. TellsChange self done.0 done.1) }
        ensures counts { CommandCounts self command.entry work.old work.new }
        ensures due { StaysDue self.observed (answered_command self command.entry).next.observed
            (entry_of_command self command.entry) (submitted_by command.entry) work.old work.new }
    {
        // In two steps, so that the bound on the remaining work is proved once, from the counts,
        // and the form of the reply once, from the reply.
        match self.carry_out(alloc, command, work) {
            Ok(done) => Ok(done),
            Err(want) => Err(want),
        }
    }

    fn carry_out(
        self,
        alloc: Global,
        command: Command<'_>,
        work: &mut Work,
    ) -> Result<(Node, Bytes), WantOfMemory>
        ensures answer { IfOk result (AnswersWith (answered_command self command.entry)) }
        ensures serves { OnOk result (Serves self command.entry) }
        ensures counts { CommandCounts self command.entry work.old work.new }
    {
        match command {
            Command::Content(bytes) => self.take(alloc, bytes, work),
            Command::Anchor { height, text } => self.append(alloc, height, text.as_slice(), work),
            Command::Rollback(n) => self.cut(alloc, n, work),
            Command::Resolve(did) => {
                let text = resolve(alloc, &self.observer, did.as_slice(), work)?;
                Ok((self, text))
            }
            Command::Explain(did) => {
                let text = explain(alloc, &self.observer, did.as_slice(), work)?;
                Ok((self, text))
            }
            Command::Wanted => self.wanted(alloc),
            Command::Report(n) => self.report(alloc, n),
            Command::Submit(request) => self.submit(alloc, request.as_slice(), work),
            Command::Flush => self.flush(alloc, work),
        }
    }

    // `content`
    fn take(
        self,
        alloc: Global,
        bytes: Bytes,
        work: &mut Work,
    ) -> Result<(Node, Bytes), WantOfMemory>
        ensures answer { IfOk result (AnswersWith (answered_content self bytes)) }
        ensures counts { ArrivalCounts self.observed bytes work.old work.new }
    {
        let Node { observer, queue } = self;
        let (observer, uri, put) = observer.arrive(alloc, bytes, work)?;
        let uri = hash_text(alloc, &uri)?;
        let word = match put {
            Put::New => "have ",
            Put::Had => "had ",
        };
        let text = reply(alloc, word, uri.as_str().as_bytes())?;
        let node = Node { observer, queue };
        Ok((node, text))
    }

    // `anchor`
    fn append(
        self,
        alloc: Global,
        height: u32,
        text: &[u8],
        work: &mut Work,
    ) -> Result<(Node, Bytes), WantOfMemory>
        ensures answer { IfOk result (AnswersWith
            (answered_anchor self (record { height = height; text = text.now }))) }
        ensures counts { AdmittedCounts self.observed (record { height = height; text = text.now })
            (admitted self.observed.ledger height) work.old work.new }
    {
        if let Err(refused) = self.observer.ledger().admits(height) {
            let text = reply(alloc, "refused ", ledger_word(refused).as_bytes())?;
            return Ok((self, text));
        }
        let text = Bytes::from_slice(alloc, text)?;
        let Node { observer, queue } = self;
        let (observer, number) = observer.append(alloc, Entry { height, text }, work)?;
        let text = reply(alloc, "anchored ", Buffer::new().format(number).as_bytes())?;
        let node = Node { observer, queue };
        Ok((node, text))
    }

    // `rollback`
    fn cut(self, alloc: Global, n: u32, work: &mut Work) -> Result<(Node, Bytes), WantOfMemory>
        ensures answer { IfOk result (AnswersWith (answered_rollback self n)) }
        ensures countable { OnOk result (IsCountable self) }
        ensures counts { RollbackCounts self.observed n work.old work.new }
    {
        if n > self.observer.ledger().len() {
            let text = reply(alloc, "refused ", b"range")?;
            return Ok((self, text));
        }
        let Node { observer, queue } = self;
        let (observer, removed) = observer.cut(alloc, n, work)?;
        let text = reply(alloc, "cut ", Buffer::new().format(removed).as_bytes())?;
        let node = Node { observer, queue };
        Ok((node, text))
    }

    fn wanted(self, alloc: Global) -> Result<(Node, Bytes), WantOfMemory>
        ensures { IfOk result (AnswersWith (answered_wanted self)) }
    {
        let uris = self.observer.wanted(alloc)?;
        let text = tell_wanted(alloc, uris.as_slice())?;
        Ok((self, text))
    }

    fn report(self, alloc: Global, n: u32) -> Result<(Node, Bytes), WantOfMemory>
        ensures { IfOk result (AnswersWith (answered_report self n)) }
    {
        let text = match self.observer.report(n) {
            Some(states) => tell_states(alloc, &states)?,
            None => reply(alloc, "refused ", b"range")?,
        };
        Ok((self, text))
    }

    fn submit(
        self,
        alloc: Global,
        request: &[u8],
        work: &mut Work,
    ) -> Result<(Node, Bytes), WantOfMemory>
        ensures answer { IfOk result (AnswersWith (answered_submit self request.now)) }
        ensures counts { ProofsAtMost 1 work.old work.new }
    {
        let Node {
            observer,
            mut queue,
        } = self;
        let params = limits_now(&observer);
        let text = submit(alloc, &mut queue, request, &params, work)?;
        let node = Node { observer, queue };
        Ok((node, text))
    }

    fn flush(self, alloc: Global, work: &mut Work) -> Result<(Node, Bytes), WantOfMemory>
        ensures answer { IfOk result (AnswersWith (answered_flush self)) }
        ensures takes { OnOk result (TakesSome self) }
        ensures counts { FlushCounts self work.old work.new }
    {
        let Node { observer, queue } = self;
        let params = limits_now(&observer);
        match queue.flush(alloc, &params) {
            Ok((queue, batch)) => {
                let text = tell_batch(alloc, &batch)?;
                let Batch { files, .. } = batch;
                let observer = take_files(alloc, observer, files, work)?;
                let node = Node { observer, queue };
                Ok((node, text))
            }
            Err(FlushRefused::Nothing(queue)) => {
                let text = reply(alloc, "refused ", b"nothing")?;
                let node = Node { observer, queue };
                Ok((node, text))
            }
            Err(FlushRefused::WantOfMemory) => Err(WantOfMemory),
        }
    }
}
