ghost use Rattle.std.specs.Prelude.{◌≡◌, ◌∷◌, [], IfOk, ⊤, false, ◌<◌, ◌^◌, codes};
ghost use Rattle.st_base.specs.Texts.{reply};
ghost use Rattle.st_drive.specs.Lines.{streams};
ghost use Rattle.st_drive.specs.Tables.{AnswersLines};
ghost use Rattle.st_network.specs.Exchange.{AnswersWith, answered, cause_word, post_reply, Network as Seen, new_network};
ghost use Rattle.st_network.specs.LineLaws.{network_laws};
ghost use Rattle.st_network.specs.Run.{kept_of_line, network_meaning, exchange_course, AreAddressed, AreFour, StoresOnlyWanted, DueOver};

use crate::command::{Cause, StepRefused, read_step};
use crate::letters::{Letter, Letters};
use crate::steps::take;
use itoa::Buffer;
use st_base::{Bytes, List, WantOfMemory, Work, reply};
use st_drive::{Machine, StepError, run_machine};
use st_exchange::Peer;
use st_io::{Sink, Source};
use std::alloc::Global;
use std::marker::Model;

/// Four nodes, and the messages between them. Contracts see the reference machines of the nodes,
/// and the messages in the order in which they were sent.
#[derive(Drop)]
pub struct Network<N> {
    pub(crate) nodes: List<N>,
    pub(crate) letters: Letters,
}

impl<N> Model for Network<N> {
    ghost use Rattle.st_network.specs.Exchange.{coded_network, Network as Seen};

    ghost Value = { Seen N };

    ghost coded = { coded_network N.code };

    ghost view = { λ n. record { nodes = n.nodes; letters = n.letters } };
}

impl<N: Peer> Network<N> {
    /// Four nodes, without entries and files.
    pub fn new(alloc: Global) -> Result<Network<N>, WantOfMemory>
        ensures { IfOk result (λ network. network ≡ new_network N.peer) }
    {
        let mut nodes = List::new(alloc);
        nodes.push(alloc, N::start(alloc)?)?;
        nodes.push(alloc, N::start(alloc)?)?;
        nodes.push(alloc, N::start(alloc)?)?;
        nodes.push(alloc, N::start(alloc)?)?;
        Ok(Network {
            nodes,
            letters: Letters::new(alloc),
        })
    }

    /// The nodes.
    pub fn nodes(&self) -> &List<N>
        ensures { result.now ≡ self.now.nodes }
    {
        &self.nodes
    }

    /// The messages sent between them.
    pub(crate) fn letters(&self) -> &Letters
        ensures { result.now ≡ self.now.letters }
    {
        &self.letters
    }

    /// Answers a line, which is given without its line feed. The reply has its line end.
    ///
    /// A line that is refused changes nothing. A `deliver` takes the time of its message and of its
    /// answer, and of a lookup whether its addressee wants the blob, or each listed file. The time
    /// does not depend on the number of messages, and no list of wanted files is made.
    ///
    /// The nodes count at most the work that was due, five files for an anchor that one of them
    /// accepts, and the signed texts that a line of its own adds; also if memory runs out.
    pub fn answer(
        self,
        alloc: Global,
        line: &[u8],
        work: &mut Work,
    ) -> Result<(Network<N>, Bytes), WantOfMemory>
        ensures answer { IfOk result (AnswersWith (answered N.peer self line.now)) }
        ensures due { IfOk result (λ done. DueOver N.peer self (line.now ∷ []) done.0 work.old work.new) }
        ensures within { (later : Seen N) × DueOver N.peer self (line.now ∷ []) later work.old work.new }
    {
        match read_step(alloc, &self, line) {
            Ok(step) => match take(self, alloc, step, work) {
                Ok(done) => Ok(done),
                Err(want) => Err(want),
            },
            Err(StepRefused::Refused(cause)) => {
                let text = tell_refused(alloc, cause)?;
                Ok((self, text))
            }
            Err(StepRefused::WantOfMemory) => Err(WantOfMemory),
        }
    }
}

/// The largest number of bytes of a line.
pub const LONGEST_LINE: usize = 24_000_000;

// It reads one byte more of a line than a line may have, to recognize one that is too long.
impl<N: Peer> Machine for Network<N> {
    type Context = Work;

    type Device = ();

    ghost meaning = { network_meaning N.peer };

    ghost CAP = { kept_of_line };

    const CAP: usize = LONGEST_LINE + 1;

    ghost PROMPT = { false };

    const PROMPT: bool = false;

    ghost fits = { λ _ _ _. ⊤ };

    ghost faults = { λ _. 0 };

    fn step(
        self,
        alloc: Global,
        context: &mut Work,
        _device: &mut (),
        line: &[u8],
    ) -> Result<(Network<N>, Bytes), StepError> {
        match self.answer(alloc, line, context) {
            Ok(done) => Ok(done),
            Err(want) => Err(StepError::from(want)),
        }
    }

    ghost fewer = { λ m c many few le fits. fits };

    ghost prompt = { λ never. absurd never };

    ghost laws = { network_laws N.peer };
}

/// Answers the lines of a source of at most `limit` bytes as four new nodes, with the messages
/// between them.
///
/// It uses no disk, so the status is never 4. For any status, at most five files are read for each
/// anchor that a node accepts, and at most as many signed texts opened as the nodes' lines add.
pub fn run_exchange<N: Peer, S: Source, K: Sink>(
    alloc: Global,
    limit: usize,
    source: &mut S,
    sink: &mut K,
    work: &mut Work,
) -> u8
    requires { limit < 2 ^ 62 }
    ensures { AnswersLines (exchange_course N.peer work.old work.new) limit
        (streams S.left S.faults source.old source.new K.written K.is_finished K.faults sink.old sink.new) ⊥ result }
{
    match Network::<N>::new(alloc) {
        Ok(network) => run_machine(alloc, limit, network, work, &mut (), source, sink),
        Err(_) => 6,
    }
}

pub fn tell_refused(alloc: Global, cause: Cause) -> Result<Bytes, WantOfMemory>
    ensures { IfOk result (λ text. text ≡ reply (codes "refused ") (cause_word cause)) }
{
    reply(alloc, "refused ", cause_word(cause).as_bytes())
}

pub fn tell_posted(alloc: Global, letters: &[Letter]) -> Result<Bytes, WantOfMemory>
    ensures { IfOk result (λ text. text ≡ post_reply letters.now) }
{
    match letters {
        [] => reply(alloc, "ignored", b""),
        _ => reply(
            alloc,
            "sent ",
            Buffer::new().format(letters.len()).as_bytes(),
        ),
    }
}

fn cause_word(cause: Cause) -> &'static str
    ensures { result.now ≡ cause_word cause }
{
    match cause {
        Cause::Long => "line long",
        Cause::Command => "line command",
        Cause::Words => "line words",
        Cause::Number => "line number",
        Cause::Base64 => "line base64",
        Cause::Hash => "line hash",
        Cause::Range => "range",
        Cause::Unknown => "unknown",
        Cause::Message => "message",
        Cause::Full => "full",
    }
}

/// For any lines: a message that is delivered stores at most a file that its addressee wants and
/// lacks, by its own URI, and changes nothing else in any node. So for any loss, repetition and
/// reordering, and for any injected bytes, no node receives a file by a message that it doesn't
/// want.
pub fn exchange_law<N: Peer>()
    ensures stores { StoresOnlyWanted N.peer }
    ensures four { AreFour N.peer }
    ensures addressed { AreAddressed N.peer }
{}
