ghost use Rattle.std.specs.Prelude.{◌≡◌, ◌+◌, ◌*◌, ◌≤◌, codes, IfOk};
ghost use Rattle.st_generate.specs.inside.Codes.{IsPaid};
ghost use Rattle.st_generate.specs.Talk.{begins_with, counted, new_talk, one_if, reply, tell, told};

use st_base::{Bytes, WantOfMemory, Work};
use st_exchange::Peer;
use std::alloc::Global;
use std::marker::Model;

/// The number of lines that a node accepted.
#[derive(Clone, Copy, Debug, PartialEq, Eq)]
pub struct Accepted {
    /// Requests that it queued.
    pub submissions: u64,
    /// Anchors.
    pub anchors: u64,
    /// Rollbacks.
    pub rollbacks: u64,
    /// Files, new or not.
    pub files: u64,
}

/// A node that receives lines, and how many of them it accepted. It reads at most five files for
/// each anchor that it accepts.
#[derive(Drop)]
pub struct Talk<N: Peer> {
    node: N,
    accepted: Accepted,
    // The number of files read in all of its calls.
    read: u64,
}

impl<N: Peer> Model for Talk<N> {
    ghost use Rattle.st_generate.specs.inside.Codes.{coded_talk, IsPaid};
    ghost use Rattle.st_generate.specs.Talk.{TalkValue};

    ghost Value = { TalkValue N };

    ghost coded = { coded_talk N.code };

    ghost view = { λ t. record { machine = t.node; accepted = t.accepted } };

    ghost invariant = { λ t. IsPaid t.read (N.peer.due t.node) t.accepted.anchors };
}

impl<N: Peer> Talk<N> {
    /// A node before any line.
    #[tactic(auto, unfolding(crate::specs::Talk::new_talk))]
    pub fn new(alloc: Global) -> Result<Talk<N>, WantOfMemory>
        ensures { IfOk result (λ talk. talk ≡ new_talk N.peer) }
    {
        let node = N::start(alloc)?;
        let accepted = Accepted {
            submissions: 0,
            anchors: 0,
            rollbacks: 0,
            files: 0,
        };
        let talk = Talk {
            node,
            accepted,
            read: 0,
        };
        Ok(talk)
    }

    /// Sends a line, and returns the reply.
    pub fn tell(
        self,
        alloc: Global,
        line: &[u8],
        work: &mut Work,
    ) -> Result<(Talk<N>, Bytes), WantOfMemory>
        ensures { IfOk result (λ done.
            (done.0 ≡ tell N.peer line.now self) × (done.1 ≡ reply N.peer self line.now)) }
    {
        let Talk {
            node,
            accepted,
            read,
        } = self;
        let told = tell_node(alloc, node, accepted, read, line, work)?;
        let Told {
            node,
            reply,
            accepted,
            read,
        } = told;
        let talk = Talk {
            node,
            accepted,
            read,
        };
        Ok((talk, reply))
    }

    /// How many lines it accepted.
    pub fn accepted(&self) -> Accepted
        ensures { result ≡ self.now.accepted }
    {
        self.accepted
    }

    /// The line that says whether it read at most five files for each anchor that it accepted,
    /// which it always did.
    pub fn within_line(&self) -> &'static str
        ensures { result.now ≡ codes "filesWithin yes\n" }
    {
        let most = self.accepted.anchors as u128 * 5;
        if self.read as u128 <= most {
            return "filesWithin yes\n";
        }
        "filesWithin no\n"
    }
}

/// Sends these lines, one after another.
pub fn tell_all<N: Peer>(
    alloc: Global,
    lines: &[Bytes],
    talk: Talk<N>,
    work: &mut Work,
) -> Result<Talk<N>, WantOfMemory>
    ensures { IfOk result (λ all. all ≡ told N.peer lines.now talk) }
{
    let mut talk = talk;
    'lines: for line in lines {
        let (next, _reply) = talk.tell(alloc, line.as_slice(), work)?;
        talk = next;
    }
    Ok(talk)
}

// A node after one more line, its reply, and the new counts of accepted lines and reads.
struct Told<N> {
    node: N,
    reply: Bytes,
    accepted: Accepted,
    read: u64,
}

// Sends a line to a node.
fn tell_node<N: Peer>(
    alloc: Global,
    node: N,
    accepted: Accepted,
    read: u64,
    line: &[u8],
    work: &mut Work,
) -> Result<Told<N>, WantOfMemory>
    requires { IsPaid read (N.peer.due node) accepted.anchors }
    ensures node { IfOk result (λ told. told.node ≡ N.peer.next node line.now) }
    ensures reply { IfOk result (λ told. told.reply ≡ N.peer.reply node line.now) }
    ensures accepted { IfOk result (λ told. told.accepted
        ≡ counted line.now (N.peer.reply node line.now) accepted) }
    ensures paid { IfOk result (λ told. IsPaid told.read (N.peer.due told.node) told.accepted.anchors) }
{
    let before = work.files();
    let (node, reply) = node.answer(alloc, line, work)?;
    let (accepted, read) = count_all(accepted, read, line, reply.as_slice(), before, work.files())?;
    Ok(Told {
        node,
        reply,
        accepted,
        read,
    })
}

// The counts of accepted lines and of reads, after one more line.
fn count_all(
    accepted: Accepted,
    read: u64,
    line: &[u8],
    reply: &[u8],
    before: u64,
    now: u64,
) -> Result<(Accepted, u64), WantOfMemory>
    ensures { IfOk result (λ more. (more.0 ≡ counted line.now reply.now accepted) ×
        (more.1 + before ≡ read + now)) }
{
    let accepted = count(accepted, line, reply)?;
    let read = plus_grown(read, before, now)?;
    Ok((accepted, read))
}

// The counts of accepted lines, after one more line.
#[tactic(auto, unfolding(crate::specs::Talk::counted))]
fn count(accepted: Accepted, line: &[u8], reply: &[u8]) -> Result<Accepted, WantOfMemory>
    ensures { IfOk result (λ more. more ≡ counted line.now reply.now accepted) }
{
    let submissions = plus_one_if(accepted.submissions, begins_with(b"queued ", reply))?;
    let anchors = plus_one_if(accepted.anchors, begins_with(b"anchored ", reply))?;
    let rollbacks = plus_one_if(accepted.rollbacks, begins_with(b"cut ", reply))?;
    let files = plus_one_if(accepted.files, begins_with(b"content ", line))?;
    Ok(Accepted {
        submissions,
        anchors,
        rollbacks,
        files,
    })
}

/// One more if the condition holds. Memory runs out before a count can overflow.
pub fn plus_one_if(count: u64, holds: bool) -> Result<u64, WantOfMemory>
    ensures { IfOk result (λ more. more ≡ count + one_if holds) }
{
    match count.checked_add(u64::from(holds)) {
        Some(more) => Ok(more),
        None => Err(WantOfMemory),
    }
}

// The reads so far, plus the growth of a counter.
fn plus_grown(read: u64, before: u64, now: u64) -> Result<u64, WantOfMemory>
    ensures { IfOk result (λ more. more + before ≡ read + now) }
{
    let Some(grown) = now.checked_sub(before) else {
        return Err(WantOfMemory);
    };
    match read.checked_add(grown) {
        Some(more) => Ok(more),
        None => Err(WantOfMemory),
    }
}

/// Whether a text has this prefix.
pub fn begins_with(front: &[u8], text: &[u8]) -> bool
    ensures { result ≡ begins_with front.now text.now }
{
    text.starts_with(front)
}
