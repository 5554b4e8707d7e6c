ghost use Rattle.std.specs.Prelude.{◌≡◌, ◌++◌, IfOk, OnOk, filter};
ghost use Rattle.std.specs.List.{AllByRecursion, flat_map};
ghost use Rattle.st_exchange.specs.Peer.{answer_of, blob_at, each_once, is_among, kept_of, want_of};
ghost use Rattle.st_exchange.specs.Message.{IsMessage, IsShort};

use crate::asking::{once, wanted_of};
use crate::message::{Answer, LONGEST_BLOB, Message};
use crate::peer::Wants;
use st_base::{Bytes, Copied, List, WantOfMemory};
use st_content::Content;
use st_hash::{Hash, uri_of};
use std::alloc::Global;

/// The answer to the message of a node with these files that wants the files of these URIs.
///
/// A `Want` is answered by one `Blob` for each different URI of the list whose file the node has,
/// in the order of their first places, except for files of more than 16,000,000 bytes. A `Have` is
/// answered by one `Want` of the listed URIs that the node wants, in order and with repeats, or by
/// nothing if it wants none. A `Blob` is kept if and only if the node wants the file. Nothing else
/// is sent or kept.
///
/// It asks whether a file is wanted once for each URI of a `Have`, once for a `Blob`, which is
/// hashed once for that, and never for a `Want`. If the wanted URIs are a list, make a set of it.
pub fn answer<W: Wants>(
    alloc: Global,
    content: &Content,
    wanted: &W,
    message: &Message,
) -> Result<Answer, WantOfMemory>
    ensures value { IfOk result (λ answer. answer ≡ answer_of content.now (W.wanted wanted.now) message.now) }
    // The messages sent are within the limits, and have an encoding.
    ensures short { IsShort message.now → IfOk result (λ answer. AllByRecursion IsShort answer.send) }
    ensures sent { IsMessage message.now → IfOk result (λ answer. AllByRecursion IsMessage answer.send) }
{
    answered(alloc, content, wanted, message)
}

fn answered<W: Wants>(
    alloc: Global,
    content: &Content,
    wanted: &W,
    message: &Message,
) -> Result<Answer, WantOfMemory>
    ensures { IfOk result (λ answer. answer ≡ answer_of content.now (W.wanted wanted.now) message.now) }
{
    match message {
        Message::Want(uris) => Ok(Answer {
            send: blobs(alloc, content, uris.as_slice())?,
            keep: None,
        }),
        Message::Have(uris) => Ok(Answer {
            send: asked(alloc, wanted, uris.as_slice())?,
            keep: None,
        }),
        Message::Blob(bytes) => Ok(Answer {
            send: List::new(alloc),
            keep: kept(alloc, wanted, bytes)?,
        }),
    }
}

fn blobs(alloc: Global, content: &Content, uris: &[Hash]) -> Result<List<Message>, WantOfMemory>
    ensures { IfOk result (λ blobs. blobs ≡ flat_map (blob_at content.now) (each_once uris.now)) }
{
    let uris = once(alloc, uris)?;
    blobs_at(alloc, content, uris.as_slice())
}

fn blobs_at(alloc: Global, content: &Content, uris: &[Hash]) -> Result<List<Message>, WantOfMemory>
    ensures { IfOk result (λ blobs. blobs ≡ flat_map (blob_at content.now) uris.now) }
{
    let mut blobs = List::new(alloc);
    for uri in uris {
        put_blob(alloc, &mut blobs, content, uri)?;
    }
    Ok(blobs)
}

fn put_blob(
    alloc: Global,
    blobs: &mut List<Message>,
    content: &Content,
    uri: &Hash,
) -> Result<(), WantOfMemory>
    ensures { OnOk result (blobs.new ≡ blobs.old ++ blob_at content.now uri.now) }
{
    let Some(file) = content.get(uri) else {
        return Ok(());
    };
    let bytes = file.get();
    if bytes.as_slice().len() > LONGEST_BLOB {
        return Ok(());
    }
    blobs.push(alloc, Message::Blob(bytes.copy(alloc)?))
}

// One message that asks for the wanted ones.
fn asked<W: Wants>(alloc: Global, wanted: &W, uris: &[Hash]) -> Result<List<Message>, WantOfMemory>
    ensures { IfOk result (λ asked. asked ≡ want_of (filter (is_among (W.wanted wanted.now)) uris.now)) }
{
    let those = wanted_of(alloc, wanted, uris)?;
    let mut asked = List::new(alloc);
    if those.len() > 0 {
        asked.push(alloc, Message::Want(those))?;
    }
    Ok(asked)
}

// The bytes, if their URI is wanted.
fn kept<W: Wants>(alloc: Global, wanted: &W, bytes: &Bytes) -> Result<Option<Bytes>, WantOfMemory>
    ensures { IfOk result (λ kept. kept ≡ kept_of (W.wanted wanted.now) bytes.now) }
{
    let uri = uri_of(bytes.as_slice());
    if wanted.wants(alloc, &uri)? {
        return Ok(Some(bytes.copy(alloc)?));
    }
    Ok(None)
}
