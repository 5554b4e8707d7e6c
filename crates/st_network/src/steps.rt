ghost use Rattle.std.specs.List.{AllByRecursion};
ghost use Rattle.std.specs.Option.{option_copied};
ghost use Rattle.std.specs.Prelude.{◌≡◌, ◌<◌, codes, length, slice_get, slice_set, IfOk, IfSome, Ok, Some, ◌++◌, ◌∷◌, [], map, OnOk};
ghost use Rattle.st_base.specs.Answers.{Gives};
ghost use Rattle.st_base.specs.Texts.{reply};
ghost use Rattle.st_hash.specs.Hash.{hash_text, uri_of};
ghost use Rattle.st_exchange.specs.Peer.{answer_of, FileDue, LineDue};
ghost use Rattle.st_exchange.specs.Message.{IsShort};
ghost use Rattle.st_network.specs.Exchange.{AnswersWith, done, line_done, post_done, store_done, answer_step, back, deliver_step};
ghost use Rattle.st_network.specs.declared.letters.Step.TheVariants.{Line, Store};
ghost use Rattle.st_network.specs.inside.Work.{cause_of, StepDue};

use crate::command::{Cause, StepRefused, node_at, number};
use crate::letters::{Letter, Step};
use crate::network::{Network, tell_posted, tell_refused};
use st_base::{Bytes, List, WantOfMemory, Work, reply};
use st_exchange::{Answer, DecodeRefused, Message, Peer, Wants, answer, decode, encode};
use st_hash::{Hash, hash_text};
use std::alloc::Global;

/// The wanted files of a node, by lookup in it.
#[derive(Drop)]
pub(crate) struct WantedBy<'a, N> {
    pub(crate) node: &'a N,
}

impl<N: Peer> Wants for WantedBy<'_, N> {
    ghost wanted = { λ by. N.peer.wanted by.node.now };

    fn wants(&self, alloc: Global, uri: &Hash) -> Result<bool, WantOfMemory> {
        self.node.wants(alloc, uri)
    }
}

// Executes a step, and returns the reply. For any result, no more is counted than was due.
pub fn take<N: Peer>(
    network: Network<N>,
    alloc: Global,
    step: Step,
    work: &mut Work,
) -> Result<(Network<N>, Bytes), WantOfMemory>
    ensures answer { IfOk result (AnswersWith (done N.peer network step)) }
    ensures due { StepDue N.peer network (Ok step) work.old work.new }
{
    match step {
        Step::Line { node, line } => answer_line(network, alloc, node, line.as_slice(), work),
        Step::Post(letters) => post(network, alloc, letters),
        Step::Store { node, bytes } => store(network, alloc, node, bytes, work),
    }
}

fn answer_line<N: Peer>(
    network: Network<N>,
    alloc: Global,
    i: u32,
    line: &[u8],
    work: &mut Work,
) -> Result<(Network<N>, Bytes), WantOfMemory>
    ensures answer { IfOk result (AnswersWith (line_done N.peer network i line.now (slice_get network.nodes i))) }
    ensures due { StepDue N.peer network (Ok (Line i line.now)) work.old work.new }
{
    let at = i as usize;
    if at >= network.nodes().len() {
        let text = tell_refused(alloc, Cause::Range)?;
        return Ok((network, text));
    }
    let Network { nodes, letters } = network;
    let (nodes, text) = answer_at(alloc, nodes, at, line, work)?;
    Ok((Network { nodes, letters }, text))
}

// The node at this place answers a line.
fn answer_at<N: Peer>(
    alloc: Global,
    nodes: List<N>,
    at: usize,
    line: &[u8],
    work: &mut Work,
) -> Result<(List<N>, Bytes), WantOfMemory>
    requires { at < length nodes }
    ensures answer { IfOk result (λ done. IfSome (slice_get nodes at) (λ node.
        (done.0 ≡ slice_set nodes at (N.peer.next node line.now)) × (done.1 ≡ N.peer.reply node line.now))) }
    ensures due { (node : N) × (slice_get nodes at ≡ Some node) × LineDue N.peer node line.now work.old work.new }
{
    let mut nodes = nodes;
    let node = nodes.remove(at);
    let (node, text) = node.answer(alloc, line, work)?;
    nodes.insert(alloc, at, node)?;
    Ok((nodes, text))
}

fn store<N: Peer>(
    network: Network<N>,
    alloc: Global,
    i: u32,
    bytes: Bytes,
    work: &mut Work,
) -> Result<(Network<N>, Bytes), WantOfMemory>
    ensures answer { IfOk result (AnswersWith (store_done N.peer network i bytes (slice_get network.nodes i))) }
    ensures due { StepDue N.peer network (Ok (Store i bytes)) work.old work.new }
{
    let at = i as usize;
    if at >= network.nodes().len() {
        let text = tell_refused(alloc, Cause::Range)?;
        return Ok((network, text));
    }
    let Network { nodes, letters } = network;
    let (nodes, text) = store_at(alloc, nodes, at, bytes, work)?;
    Ok((Network { nodes, letters }, text))
}

// The node at this place keeps a file, as by `content`.
fn store_at<N: Peer>(
    alloc: Global,
    nodes: List<N>,
    at: usize,
    bytes: Bytes,
    work: &mut Work,
) -> Result<(List<N>, Bytes), WantOfMemory>
    requires { at < length nodes }
    ensures answer { IfOk result (λ done. IfSome (slice_get nodes at) (λ node.
        (done.0 ≡ slice_set nodes at (N.peer.stored node bytes))
        × (done.1 ≡ reply (codes "stored ") (hash_text (uri_of bytes))))) }
    ensures due { (node : N) × (slice_get nodes at ≡ Some node) × FileDue N.peer node bytes work.old work.new }
{
    let mut nodes = nodes;
    let node = nodes.remove(at);
    let (node, uri) = node.keep(alloc, bytes, work)?;
    let uri = hash_text(alloc, &uri)?;
    let text = reply(alloc, "stored ", uri.as_str().as_bytes())?;
    nodes.insert(alloc, at, node)?;
    Ok((nodes, text))
}

fn post<N: Peer>(
    network: Network<N>,
    alloc: Global,
    letters: List<Letter>,
) -> Result<(Network<N>, Bytes), WantOfMemory>
    ensures { IfOk result (AnswersWith (post_done network letters)) }
{
    let text = tell_posted(alloc, letters.as_slice())?;
    let Network {
        nodes,
        letters: kept,
    } = network;
    let (letters, fits) = kept.post(alloc, letters)?;
    if fits {
        return Ok((Network { nodes, letters }, text));
    }
    let text = tell_refused(alloc, Cause::Full)?;
    Ok((Network { nodes, letters }, text))
}

// The step of a `deliver`, from the text after the word.
pub fn read_deliver<N: Peer>(
    alloc: Global,
    network: &Network<N>,
    behind: Option<&[u8]>,
) -> Result<Step, StepRefused>
    ensures { Gives cause_of (deliver_step N.peer network.now (option_copied behind.entry)) result }
{
    let Some(rest) = behind else {
        return Err(StepRefused::Refused(Cause::Words));
    };
    let m = number(rest)?;
    let Some(received) = network.letters().get(m as usize) else {
        return Err(StepRefused::Refused(Cause::Range));
    };
    let message = match decode(alloc, received.bytes.as_slice()) {
        Ok(message) => message,
        Err(DecodeRefused::BadMessage) => return Err(StepRefused::Refused(Cause::Message)),
        Err(DecodeRefused::WantOfMemory) => return Err(StepRefused::WantOfMemory),
    };
    let to = node_at(network, received.to)?;
    Ok(answered(alloc, received, to, &message)?)
}

// The answer of a message's addressee.
fn answered<N: Peer>(
    alloc: Global,
    received: &Letter,
    to: &N,
    message: &Message,
) -> Result<Step, WantOfMemory>
    requires { IsShort message.now }
    ensures { IfOk result (λ step. step ≡ answer_step received.now
        (answer_of (N.peer.files to.now) (N.peer.wanted to.now) message.now)) }
{
    let answer = answer(alloc, to.content(), &WantedBy { node: to }, message)?;
    step_by(alloc, received, answer)
}

fn step_by(alloc: Global, received: &Letter, answer: Answer) -> Result<Step, WantOfMemory>
    requires { AllByRecursion IsShort answer.send }
    ensures { IfOk result (λ step. step ≡ answer_step received.now answer) }
{
    let Answer { send, keep } = answer;
    match keep {
        Some(bytes) => Ok(Step::Store {
            node: received.to,
            bytes,
        }),
        None => Ok(Step::Post(sent_back(alloc, received, send)?)),
    }
}

// The messages back to the sender. Each is dropped after it is encoded, so that no file is in
// memory twice next to the others.
fn sent_back(
    alloc: Global,
    received: &Letter,
    messages: List<Message>,
) -> Result<List<Letter>, WantOfMemory>
    requires { AllByRecursion IsShort messages }
    ensures { IfOk result (λ letters. letters ≡ map (back received.now) messages) }
{
    let mut letters = List::new(alloc);
    for message in messages.into_vec() {
        put_back(alloc, &mut letters, received, &message)?;
    }
    Ok(letters)
}

fn put_back(
    alloc: Global,
    letters: &mut List<Letter>,
    received: &Letter,
    message: &Message,
) -> Result<(), WantOfMemory>
    requires { IsShort message.now }
    ensures { OnOk result (letters.new ≡ letters.old ++ back received.now message.now ∷ []) }
{
    let bytes = encode(alloc, message)?;
    letters.push(
        alloc,
        Letter {
            from: received.to,
            to: received.from,
            bytes,
        },
    )
}
