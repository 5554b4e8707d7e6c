ghost use Rattle.std.specs.Prelude.{◌≡◌, ◌<◌, ◌/◌, ◌%◌, ◌++◌, [], length, IsTrue, IfOk, OnOk};
ghost use Rattle.st_workload.specs.Identifier.{anchor_fed, anchor_lines, events, feeds_anchor, file_fed, rollback_line, turn};

use crate::keys::word;
use itoa::Buffer;
use st_base::{Bytes, List, WantOfMemory};
use std::alloc::Global;

// The lines fed so far, the number of the batch whose anchor is next, and the remaining files.
#[derive(Drop)]
pub struct Feed {
    pub lines: List<Bytes>,
    pub next: usize,
    pub files: List<Bytes>,
}

/// The lines of a second node: these lines of anchors in their order, and these of files in an
/// order that the words of a stream give them, each once. The anchor of each batch with an odd
/// number is rolled back at once, and fed again.
#[tactic(auto, unfolding(crate::specs::Identifier::events))]
pub fn events(
    alloc: Global,
    seed: u64,
    stream: u32,
    anchors: &[Bytes],
    files: List<Bytes>,
) -> Result<List<Bytes>, WantOfMemory>
    ensures { IfOk result (λ lines. lines ≡ events seed stream anchors.now files) }
{
    let count = anchors.len() + files.as_slice().len();
    let mut feed = Feed {
        lines: List::new(alloc),
        next: 0,
        files,
    };
    'turns: for n in 0..count {
        let w = word(seed, stream, n as u64);
        let next = turn(alloc, anchors, w, feed)?;
        feed = next;
    }
    let Feed { lines, .. } = feed;
    Ok(lines)
}

#[tactic(auto, unfolding(crate::specs::Identifier::turn))]
fn turn(alloc: Global, anchors: &[Bytes], w: u32, feed: Feed) -> Result<Feed, WantOfMemory>
    ensures { IfOk result (λ next. next ≡ turn anchors.now w feed) }
{
    if feeds_anchor(anchors, w, &feed) {
        let next = feed_anchor(alloc, anchors, feed)?;
        return Ok(next);
    }
    if feed.files.len() == 0 {
        return Ok(feed);
    }
    let next = feed_file(alloc, w, feed)?;
    Ok(next)
}

// Whether an anchor remains, and w is odd or no file remains.
fn feeds_anchor(anchors: &[Bytes], w: u32, feed: &Feed) -> bool
    ensures value { result ≡ feeds_anchor anchors.now w feed.now }
    ensures remains { IsTrue result → feed.now.next < length anchors.now }
{
    feed.next < anchors.len() && (w % 2 == 1 || feed.files.len() == 0)
}

fn feed_anchor(alloc: Global, anchors: &[Bytes], feed: Feed) -> Result<Feed, WantOfMemory>
    requires { feed.next < length anchors.now }
    ensures { IfOk result (λ more. more ≡ anchor_fed anchors.now feed) }
{
    let Feed {
        mut lines,
        next,
        files,
    } = feed;
    push_anchor(alloc, &mut lines, next, anchors[next].as_slice())?;
    Ok(Feed {
        lines,
        next: next + 1,
        files,
    })
}

// Appends the lines of an anchor: one with an odd number is rolled back, and fed again.
fn push_anchor(
    alloc: Global,
    lines: &mut List<Bytes>,
    number: usize,
    anchor: &[u8],
) -> Result<(), WantOfMemory>
    ensures { OnOk result (lines.new ≡ lines.old ++ anchor_lines number anchor.now) }
{
    let line = Bytes::from_slice(alloc, anchor)?;
    lines.push(alloc, line)?;
    if number % 2 == 1 {
        let back = rollback_line(alloc, number)?;
        let again = Bytes::from_slice(alloc, anchor)?;
        lines.push(alloc, back)?;
        lines.push(alloc, again)?;
    }
    Ok(())
}

// The line that rolls back the entries from this number on.
fn rollback_line(alloc: Global, number: usize) -> Result<Bytes, WantOfMemory>
    ensures { IfOk result (λ line. line ≡ rollback_line number) }
{
    let mut line = Bytes::from_slice(alloc, b"rollback ")?;
    line.push_all(alloc, Buffer::new().format(number).as_bytes())?;
    Ok(line)
}

// Removes the file that w chooses from the list, and feeds it.
fn feed_file(alloc: Global, w: u32, feed: Feed) -> Result<Feed, WantOfMemory>
    requires { 0 < length feed.files }
    ensures { IfOk result (λ more. more ≡ file_fed (w / 2 % length feed.files) feed) }
{
    let Feed {
        mut lines,
        next,
        mut files,
    } = feed;
    let at = (w / 2) as usize % files.len();
    let file = files.remove(at);
    lines.push(alloc, file)?;
    Ok(Feed { lines, next, files })
}
