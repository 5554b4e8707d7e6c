ghost use Rattle.std.specs.Prelude.{◌≡◌, ◌≤◌, ◌+◌, ◌++◌, drop, map, IfOk, OnOk};
ghost use Rattle.st_base.specs.Texts.{first_word};
ghost use Rattle.st_drive.specs.Lines.{whole_lines};
ghost use Rattle.st_generate.specs.Summary.{anchor_in, anchor_line, batched, batches_of, behind_one, content_line, content_lines};
ghost use Rattle.st_generate.specs.Talk.{told};
ghost use Rattle.st_workload.specs.Identifier.{each, identity_of};
ghost use Rattle.st_workload.specs.inside.Identity.{line_of};

use crate::plan::Plan;
use crate::talk::Talk;
use itoa::Buffer;
use st_base::{Bytes, List, WantOfMemory, Work, cut_at, cut_word};
use st_exchange::Peer;
use st_workload::Identity;
use std::alloc::Global;

const SPACE: u8 = 32;

const LINE_FEED: u8 = 10;

/// The first node, the anchor line of each of its batches, and the lines that give another node the
/// files of all of them.
#[derive(Drop)]
pub struct Batches<N: Peer> {
    pub talk: Talk<N>,
    pub anchors: List<Bytes>,
    pub files: List<Bytes>,
}

/// The batches of the first node in all rounds.
pub fn all_batches<N: Peer>(
    alloc: Global,
    plan: Plan,
    identities: &[Identity],
    work: &mut Work,
) -> Result<Batches<N>, WantOfMemory>
    requires rounds { plan.rounds ≤ 30 }
    requires identities { identities.now ≡ each plan.dids (identity_of plan.seed plan.rounds) }
    ensures { IfOk result (λ batches. batches ≡ batches_of N.peer plan.seed plan.dids (plan.rounds + 1)) }
{
    let mut batches = no_batches(alloc)?;
    'rounds: for round in 0..plan.rounds + 1 {
        let next = batch(alloc, identities, round, batches, work)?;
        batches = next;
    }
    Ok(batches)
}

fn no_batches<N: Peer>(alloc: Global) -> Result<Batches<N>, WantOfMemory>
    ensures { IfOk result (λ batches. batches ≡ batches_of N.peer 0 0 0) }
{
    let talk = Talk::new(alloc)?;
    Ok(Batches {
        talk,
        anchors: List::new(alloc),
        files: List::new(alloc),
    })
}

// The batch of a round, after the earlier ones.
fn batch<N: Peer>(
    alloc: Global,
    identities: &[Identity],
    round: u32,
    batches: Batches<N>,
    work: &mut Work,
) -> Result<Batches<N>, WantOfMemory>
    ensures { IfOk result (λ more.
        more ≡ batched N.peer round (told N.peer (map (line_of round) identities.now) batches.talk) batches) }
{
    let Batches {
        talk,
        mut anchors,
        mut files,
    } = batches;
    let talk = tell_round(alloc, identities, round, talk, work)?;
    let (talk, reply) = talk.tell(alloc, b"flush", work)?;
    let anchor = anchor_line(alloc, round, anchor_in(reply.as_slice()))?;
    let (talk, _reply) = talk.tell(alloc, anchor.as_slice(), work)?;
    anchors.push(alloc, anchor)?;
    push_files(alloc, &mut files, reply.as_slice())?;
    Ok(Batches {
        talk,
        anchors,
        files,
    })
}

// Sends the requests of a round.
fn tell_round<N: Peer>(
    alloc: Global,
    identities: &[Identity],
    round: u32,
    talk: Talk<N>,
    work: &mut Work,
) -> Result<Talk<N>, WantOfMemory>
    ensures { IfOk result (λ all. all ≡ told N.peer (map (line_of round) identities.now) talk) }
{
    let mut talk = talk;
    'identities: for identity in identities {
        let (next, _reply) = talk.tell(alloc, line_of(identity, round), work)?;
        talk = next;
    }
    Ok(talk)
}

// The line that an identifier submits in a round. There is one for each round.
fn line_of(identity: &Identity, round: u32) -> &[u8]
    ensures { result.now ≡ line_of round identity.now }
{
    match identity.lines.get(round as usize) {
        Some(line) => line.as_slice(),
        None => &[],
    }
}

fn anchor_line(alloc: Global, round: u32, anchor: &[u8]) -> Result<Bytes, WantOfMemory>
    ensures { IfOk result (λ line. line ≡ anchor_line round anchor.now) }
{
    let mut line = Bytes::from_slice(alloc, b"anchor ")?;
    line.push_all(alloc, Buffer::new().format(round).as_bytes())?;
    line.push_all(alloc, b" ")?;
    line.push_all(alloc, anchor)?;
    Ok(line)
}

// ---- replies

// The text after the first space of a line, or nothing.
fn behind_one(line: &[u8]) -> &[u8]
    ensures { result.now ≡ behind_one line.now }
{
    match cut_at(line, SPACE) {
        Some((_word, rest)) => rest,
        None => &[],
    }
}

#[tactic(auto, unfolding(crate::specs::Summary::anchor_in))]
fn anchor_in(reply: &[u8]) -> &[u8]
    ensures { result.now ≡ anchor_in reply.now }
{
    let (word, _files) = cut_word(behind_one(reply), SPACE);
    word
}

// The line that gives another node the file of this line.
#[tactic(auto, unfolding(crate::specs::Summary::content_line))]
fn content_line(alloc: Global, line: &[u8]) -> Result<Bytes, WantOfMemory>
    ensures { IfOk result (λ content. content ≡ content_line line.now) }
{
    let mut content = Bytes::from_slice(alloc, b"content ")?;
    content.push_all(alloc, behind_one(behind_one(behind_one(line))))?;
    Ok(content)
}

// Appends the lines of the files in a reply: they are in its lines after the first.
fn push_files(alloc: Global, files: &mut List<Bytes>, reply: &[u8]) -> Result<(), WantOfMemory>
    ensures { OnOk result (files.new ≡ files.old ++ content_lines reply.now) }
{
    let mut rest = behind_line(reply);
    'lines: while let Some((line, more)) = cut_at(rest, LINE_FEED) {
        let file = content_line(alloc, line)?;
        files.push(alloc, file)?;
        rest = more;
    }
    Ok(())
}

// The text after the first line.
fn behind_line(reply: &[u8]) -> &[u8]
    ensures { whole_lines result.now ≡ drop 1 (whole_lines reply.now) }
{
    match cut_at(reply, LINE_FEED) {
        Some((_line, more)) => more,
        None => &[],
    }
}
