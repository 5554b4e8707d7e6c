ghost use Rattle.std.specs.Option.{option_copied};
ghost use Rattle.std.specs.Prelude.{◌≡◌, ◌∷◌, [], IfOk};
ghost use Rattle.st_base.specs.Answers.{Gives, GivesAs};
ghost use Rattle.st_exchange.specs.Peer.{ask_of};
ghost use Rattle.st_exchange.specs.Message.{spelling};
ghost use Rattle.st_exchange.specs.declared.message.Message.TheVariants.{Have};
ghost use Rattle.st_network.specs.Exchange.{number_or, three_of, two_of, ask_step, at_step, inject_step, node_at, offer_step, step_of, step_of_words};
ghost use Rattle.st_network.specs.declared.letters.Step.TheVariants.{Post};
ghost use Rattle.st_network.specs.inside.Work.{cause_of};

use crate::letters::{Letter, Step};
use crate::network::{LONGEST_LINE, Network};
use crate::steps::read_deliver;
use st_base::{Bytes, List, WantOfMemory, cut_at, cut_word, read_number};
use st_exchange::{Message, Peer, ask, encode};
use st_hash::{DecRefused, Hash, dec, read_hash};
use std::alloc::Global;

/// Why a line is refused: the first of these that holds, in this order.
#[derive(Clone, Copy)]
pub enum Cause {
    /// The line has more than 24,000,000 bytes.
    Long,
    /// The command word is unknown. It is the part before the first space, or the whole line.
    Command,
    /// A space is missing.
    Words,
    /// A number is not decimal from 0 to 4,294,967,295 without leading zeros.
    Number,
    /// A text is not the base64url of any bytes.
    Base64,
    /// A URI is not the hash text of a SHA-256 hash.
    Hash,
    /// There is no node, or no message, with this number.
    Range,
    /// The node does not have the file that it should offer.
    Unknown,
    /// The bytes of the message are not the encoding of a message.
    Message,
    /// There would be too many messages, or too many bytes of them.
    Full,
}

/// Why a line has no step.
#[derive(Clone, Copy)]
pub enum StepRefused {
    /// It is refused, for this cause.
    Refused(Cause),
    /// Out of memory.
    WantOfMemory,
}

impl From<WantOfMemory> for StepRefused {
    ghost use Rattle.std.specs.Prelude.{◌≡◌};
    ghost use Rattle.st_network.specs.declared.command.StepRefused.TheVariants.{WantOfMemory};

    ghost from_gives = { λ _ refused. refused ≡ WantOfMemory };

    fn from(_want: WantOfMemory) -> StepRefused {
        StepRefused::WantOfMemory
    }
}

// A word, and the text after it and a space.
pub fn two(behind: Option<&[u8]>) -> Result<(&[u8], &[u8]), StepRefused>
    ensures { GivesAs (λ words. (words.0.now, words.1.now)) cause_of (two_of (option_copied behind.entry)) result }
{
    let Some(rest) = behind else {
        return Err(StepRefused::Refused(Cause::Words));
    };
    let Some(words) = cut_at(rest, b' ') else {
        return Err(StepRefused::Refused(Cause::Words));
    };
    Ok(words)
}

// Two words, and the text after them.
pub fn three(behind: Option<&[u8]>) -> Result<(&[u8], &[u8], &[u8]), StepRefused>
    ensures { GivesAs (λ words. (words.0.now, (words.1.now, words.2.now))) cause_of
        (three_of (option_copied behind.entry)) result }
{
    let (first, rest) = two(behind)?;
    let Some((second, others)) = cut_at(rest, b' ') else {
        return Err(StepRefused::Refused(Cause::Words));
    };
    Ok((first, second, others))
}

// The number in a word.
pub fn number(word: &[u8]) -> Result<u32, StepRefused>
    ensures { Gives cause_of (number_or word.now) result }
{
    match read_number(word, u32::MAX) {
        Some(number) => Ok(number),
        None => Err(StepRefused::Refused(Cause::Number)),
    }
}

const AT: &[u8] = b"at";

const ASK: &[u8] = b"ask";

const OFFER: &[u8] = b"offer";

const INJECT: &[u8] = b"inject";

const DELIVER: &[u8] = b"deliver";

// The step of a line. It changes nothing.
pub fn read_step<N: Peer>(
    alloc: Global,
    network: &Network<N>,
    line: &[u8],
) -> Result<Step, StepRefused>
    ensures { Gives cause_of (step_of N.peer network.now line.now) result }
{
    if line.len() > LONGEST_LINE {
        return Err(StepRefused::Refused(Cause::Long));
    }
    let (word, behind) = cut_word(line, b' ');
    read_words(alloc, network, word, behind)
}

fn read_words<N: Peer>(
    alloc: Global,
    network: &Network<N>,
    word: &[u8],
    behind: Option<&[u8]>,
) -> Result<Step, StepRefused>
    ensures { Gives cause_of (step_of_words N.peer network.now word.now (option_copied behind.entry)) result }
{
    if word == AT {
        read_at(alloc, network, behind)
    } else if word == ASK {
        read_ask(alloc, network, behind)
    } else if word == OFFER {
        read_offer(alloc, network, behind)
    } else if word == INJECT {
        read_inject(alloc, network, behind)
    } else if word == DELIVER {
        read_deliver(alloc, network, behind)
    } else {
        Err(StepRefused::Refused(Cause::Command))
    }
}

fn read_at<N: Peer>(
    alloc: Global,
    network: &Network<N>,
    behind: Option<&[u8]>,
) -> Result<Step, StepRefused>
    ensures { Gives cause_of (at_step network.now (option_copied behind.entry)) result }
{
    let (node, line) = two(behind)?;
    let node = number(node)?;
    let line = Bytes::from_slice(alloc, line)?;
    Ok(Step::Line { node, line })
}

fn read_ask<N: Peer>(
    alloc: Global,
    network: &Network<N>,
    behind: Option<&[u8]>,
) -> Result<Step, StepRefused>
    ensures { Gives cause_of (ask_step N.peer network.now (option_copied behind.entry)) result }
{
    let (from, to) = two(behind)?;
    let from = number(from)?;
    let to = number(to)?;
    let node = node_at(network, from)?;
    let _other = node_at(network, to)?;
    let message = asked(alloc, node)?;
    Ok(post_one(alloc, from, to, message)?)
}

fn read_offer<N: Peer>(
    alloc: Global,
    network: &Network<N>,
    behind: Option<&[u8]>,
) -> Result<Step, StepRefused>
    ensures { Gives cause_of (offer_step N.peer network.now (option_copied behind.entry)) result }
{
    let (from, to, uri) = three(behind)?;
    let from = number(from)?;
    let to = number(to)?;
    let Ok(uri) = read_hash(uri) else {
        return Err(StepRefused::Refused(Cause::Hash));
    };
    let node = node_at(network, from)?;
    let _other = node_at(network, to)?;
    if node.content().get(&uri).is_none() {
        return Err(StepRefused::Refused(Cause::Unknown));
    }
    let message = offered(alloc, uri)?;
    Ok(post_one(alloc, from, to, message)?)
}

fn read_inject<N: Peer>(
    alloc: Global,
    network: &Network<N>,
    behind: Option<&[u8]>,
) -> Result<Step, StepRefused>
    ensures { Gives cause_of (inject_step network.now (option_copied behind.entry)) result }
{
    let (from, to, text) = three(behind)?;
    let from = number(from)?;
    let to = number(to)?;
    let bytes = match dec(alloc, text) {
        Ok(bytes) => bytes,
        Err(DecRefused::BadBase64) => return Err(StepRefused::Refused(Cause::Base64)),
        Err(DecRefused::WantOfMemory) => return Err(StepRefused::WantOfMemory),
    };
    let _node = node_at(network, from)?;
    let _other = node_at(network, to)?;
    Ok(post_one(alloc, from, to, bytes)?)
}

// The node with this number.
pub fn node_at<N: Peer>(network: &Network<N>, i: u32) -> Result<&N, StepRefused>
    ensures { GivesAs (λ node. node.now) cause_of (node_at network.now i) result }
{
    match network.nodes().get(i as usize) {
        Some(node) => Ok(node),
        None => Err(StepRefused::Refused(Cause::Range)),
    }
}

// The encoding of a node's request.
fn asked<N: Peer>(alloc: Global, node: &N) -> Result<Bytes, WantOfMemory>
    ensures { IfOk result (λ bytes. bytes ≡ spelling (ask_of (N.peer.wanted node.now))) }
{
    let wanted = node.wanted(alloc)?;
    let message = ask(alloc, wanted.as_slice())?;
    encode(alloc, &message)
}

fn offered(alloc: Global, uri: Hash) -> Result<Bytes, WantOfMemory>
    ensures { IfOk result (λ bytes. bytes ≡ spelling (Have (uri ∷ []))) }
{
    let mut uris = List::new(alloc);
    uris.push(alloc, uri)?;
    encode(alloc, &Message::Have(uris))
}

fn post_one(alloc: Global, from: u32, to: u32, bytes: Bytes) -> Result<Step, WantOfMemory>
    ensures { IfOk result (λ step. step ≡ Post (record { from = from; to = to; bytes = bytes } ∷ [])) }
{
    let mut letters = List::new(alloc);
    letters.push(alloc, Letter { from, to, bytes })?;
    Ok(Step::Post(letters))
}
