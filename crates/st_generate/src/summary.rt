ghost use Rattle.std.specs.Io.KnownBytes.{Appends};
ghost use Rattle.std.specs.Prelude.{◌≡◌, ◌≤◌, ◌++◌, IfOk, OnOk, ◌≢◌, ◌⊎◌, true, IsTrue, OnErr};
ghost use Rattle.st_io.specs.Past.{HasCause, Rose, FinishesNothing};
ghost use Rattle.st_workload.specs.Identifier.{events};
ghost use Rattle.st_generate.specs.Plan.{most_rounds, WritesFront, is_generate_end};
ghost use Rattle.st_generate.specs.Summary.{ends_of, fed, lines_of, summary, summary_line};
ghost use Rattle.st_generate.specs.Talk.{new_talk, told};

use crate::ends::{Ends, ask_all};
use crate::plan::Plan;
use crate::rounds::{Batches, all_batches};
use crate::talk::{Talk, tell_all};
use itoa::Buffer;
use st_base::{Bytes, List, WantOfMemory, Work};
use st_drive::write_all;
use st_exchange::Peer;
use st_io::{Failed, Sink};
use st_workload::{all_identities, events};
use std::alloc::Global;

/// Makes the workload of a plan, gives it to two nodes, and summarizes the result in nine lines
/// that each end with a line feed. Everything is in memory, and the work of both nodes is counted
/// there.
///
/// It takes the time of a key for each identifier, of a signature for each update, and of two
/// nodes.
#[tactic(auto, unfolding(crate::specs::Summary::summary))]
pub fn generate<N: Peer>(alloc: Global, plan: Plan, work: &mut Work) -> Result<Bytes, WantOfMemory>
    requires { plan.rounds ≤ most_rounds }
    ensures { IfOk result (λ text. text ≡ summary N.peer plan) }
{
    let ends = ends_of::<N>(alloc, plan, work)?;
    Ok(tell_ends(alloc, plan, &ends)?)
}

// The final states of the two nodes.
#[tactic(auto, unfolding(crate::specs::Summary::ends_of))]
fn ends_of<N: Peer>(alloc: Global, plan: Plan, work: &mut Work) -> Result<Ends<N>, WantOfMemory>
    requires { plan.rounds ≤ most_rounds }
    ensures { IfOk result (λ ends. ends ≡ ends_of N.peer plan) }
{
    let identities = all_identities(alloc, plan.seed, plan.dids, plan.rounds)?;
    let batches = all_batches(alloc, plan, identities.as_slice(), work)?;
    let ends = begin_ends(alloc, plan, batches, work)?;
    Ok(ask_all(alloc, plan, identities.as_slice(), ends, work)?)
}

// The two nodes before identifiers are resolved.
fn begin_ends<N: Peer>(
    alloc: Global,
    plan: Plan,
    batches: Batches<N>,
    work: &mut Work,
) -> Result<Ends<N>, WantOfMemory>
    ensures { IfOk result (λ ends. ends ≡ record {
      first = batches.talk;
      second = fed N.peer plan batches;
      resolved = 0;
      agreed = 0;
    }) }
{
    let Batches {
        talk,
        anchors,
        files,
    } = batches;
    let second = feed(alloc, plan, anchors, files, work)?;
    Ok(Ends {
        first: talk,
        second,
        resolved: 0,
        agreed: 0,
    })
}

// The second node, after it received all events.
fn feed<N: Peer>(
    alloc: Global,
    plan: Plan,
    anchors: List<Bytes>,
    files: List<Bytes>,
    work: &mut Work,
) -> Result<Talk<N>, WantOfMemory>
    ensures { IfOk result (λ talk. talk ≡ told N.peer (events plan.seed plan.dids anchors files)
        (new_talk N.peer)) }
{
    let lines = events(alloc, plan.seed, plan.dids, anchors.as_slice(), files)?;
    let talk = Talk::new(alloc)?;
    Ok(tell_all(alloc, lines.as_slice(), talk, work)?)
}

// The nine lines of a workload with these final states.
fn tell_ends<N: Peer>(alloc: Global, plan: Plan, ends: &Ends<N>) -> Result<Bytes, WantOfMemory>
    requires { plan.rounds ≤ most_rounds }
    ensures { IfOk result (λ text. text ≡ lines_of plan ends.now) }
{
    let first = ends.first.accepted();
    let second = ends.second.accepted();
    let mut text = Bytes::new(alloc);
    push_line(alloc, &mut text, "dids ", u64::from(plan.dids))?;
    push_line(alloc, &mut text, "batches ", u64::from(plan.rounds + 1))?;
    push_line(alloc, &mut text, "operations ", first.submissions)?;
    push_line(alloc, &mut text, "anchors ", second.anchors)?;
    push_line(alloc, &mut text, "rollbacks ", second.rollbacks)?;
    push_line(alloc, &mut text, "files ", second.files)?;
    push_line(alloc, &mut text, "resolved ", ends.resolved)?;
    push_line(alloc, &mut text, "agreed ", ends.agreed)?;
    text.push_all(alloc, ends.second.within_line().as_bytes())?;
    Ok(text)
}

// Appends a line of a word and a number to the text.
fn push_line(alloc: Global, text: &mut Bytes, word: &str, n: u64) -> Result<(), WantOfMemory>
    ensures { OnOk result (text.new ≡ text.old ++ summary_line word.now n) }
{
    text.push_all(alloc, word.as_bytes())?;
    text.push_all(alloc, Buffer::new().format(n).as_bytes())?;
    text.push_all(alloc, b"\n")?;
    Ok(())
}

/// Writes the summary of a plan to a sink, and returns a status: 0 if it is written completely and
/// the sink is finished, 3 if the sink failed, after a prefix was written, and 6 if memory ran out,
/// before anything is written. There is no other.
pub fn run_generate<N: Peer, K: Sink>(
    alloc: Global,
    plan: Plan,
    sink: &mut K,
    work: &mut Work,
) -> u8
    requires { plan.rounds ≤ most_rounds }
    ensures done { result ≡ 0 → Appends (K.written sink.old) (K.written sink.new) (summary N.peer plan) }
    ensures front { WritesFront (summary N.peer plan) (K.written sink.old) (K.written sink.new) }
    ensures finished { result ≡ 0 → K.is_finished sink.new ≡ true }
    ensures unfinished { result ≢ 0
        → FinishesNothing (K.is_finished sink.old) (K.is_finished sink.new) }
    ensures write_fault { result ≡ 3 → Rose (K.faults sink.old) (K.faults sink.new) }
    ensures unwritten { result ≡ 6 → sink.new ≡ sink.old }
    ensures statuses { IsTrue (is_generate_end result) }
    ensures complete { ¬ Rose (K.faults sink.old) (K.faults sink.new) → (result ≡ 0) ⊎ (result ≡ 6) }
{
    match generate::<N>(alloc, plan, work) {
        Ok(text) => match write_whole(sink, text.as_slice()) {
            Ok(()) => 0,
            Err(_) => 3,
        },
        Err(_) => 6,
    }
}

// Writes all of it and finishes, or writes a prefix if the sink fails.
fn write_whole<K: Sink>(sink: &mut K, text: &[u8]) -> Result<(), Failed>
    ensures ok { OnOk result (Appends (K.written sink.old) (K.written sink.new) text.now) }
    ensures front { WritesFront text.now (K.written sink.old) (K.written sink.new) }
    ensures finished { OnOk result (K.is_finished sink.new ≡ true) }
    ensures unfinished { OnErr result (FinishesNothing (K.is_finished sink.old) (K.is_finished sink.new)) }
    ensures cause { HasCause (K.faults sink.old) (K.faults sink.new) result }
{
    write_all(sink, text)?;
    sink.finish()?;
    Ok(())
}
