ghost use Rattle.std.specs.Prelude.{◌≡◌, ◌++◌, ◌∷◌, [], IfOk, OnOk, filter, take};
ghost use Rattle.std.specs.List.{AllByRecursion};
ghost use Rattle.st_exchange.specs.inside.Among.{HasThose};
ghost use Rattle.st_exchange.specs.Peer.{ask_of, each_once, is_among, with_one};
ghost use Rattle.st_exchange.specs.Message.{IsMessage, IsShort, IsUri, most_uris};

use crate::message::{MOST_URIS, Message};
use crate::peer::Wants;
use st_base::{List, WantOfMemory};
use st_hash::Hash;
use std::alloc::Global;
use std::collections::BTreeSet;

/// The request of a node that wants the files of these URIs: the first 1,000 of them.
pub fn ask(alloc: Global, wanted: &[Hash]) -> Result<Message, WantOfMemory>
    ensures value { IfOk result (λ message. message ≡ ask_of wanted.now) }
    ensures short { IfOk result IsShort }
    ensures is { AllByRecursion IsUri wanted.now → IfOk result IsMessage }
{
    let uris = copied(alloc, front(wanted))?;
    Ok(Message::Want(uris))
}

fn front(uris: &[Hash]) -> &[Hash]
    ensures { result.now ≡ take most_uris uris.now }
{
    if uris.len() < MOST_URIS {
        return uris;
    }
    let (front, _) = uris.split_at(MOST_URIS);
    front
}

fn copied(alloc: Global, uris: &[Hash]) -> Result<List<Hash>, WantOfMemory>
    ensures { IfOk result (λ list. list ≡ uris.now) }
{
    let items = Vec::from_slice(alloc, uris)?;
    Ok(List::from_vec(items))
}

/// Each of these once, in the order of their first places.
pub(crate) fn once(alloc: Global, uris: &[Hash]) -> Result<List<Hash>, WantOfMemory>
    ensures { IfOk result (λ once. once ≡ each_once uris.now) }
{
    let mut once = List::new(alloc);
    let mut seen = BTreeSet::new(alloc);
    for uri in uris {
        put_once(alloc, &mut once, &mut seen, uri)?;
    }
    Ok(once)
}

// Appends the URI, unless it is there already.
fn put_once(
    alloc: Global,
    once: &mut List<Hash>,
    seen: &mut BTreeSet<Hash>,
    uri: &Hash,
) -> Result<(), WantOfMemory>
    requires { HasThose once.old seen.old }
    ensures put { OnOk result (once.new ≡ with_one once.old uri.now) }
    ensures has { OnOk result (HasThose once.new seen.new) }
{
    if seen.insert(*uri)? {
        once.push(alloc, *uri)?;
    }
    Ok(())
}

/// Those of these URIs that are wanted, in order.
pub(crate) fn wanted_of<W: Wants>(
    alloc: Global,
    wanted: &W,
    uris: &[Hash],
) -> Result<List<Hash>, WantOfMemory>
    ensures { IfOk result (λ those. those ≡ filter (is_among (W.wanted wanted.now)) uris.now) }
{
    let mut those = List::new(alloc);
    for uri in uris {
        put_wanted(alloc, &mut those, wanted, uri)?;
    }
    Ok(those)
}

fn put_wanted<W: Wants>(
    alloc: Global,
    those: &mut List<Hash>,
    wanted: &W,
    uri: &Hash,
) -> Result<(), WantOfMemory>
    ensures { OnOk result (those.new ≡ those.old ++ filter (is_among (W.wanted wanted.now)) (uri.now ∷ [])) }
{
    if wanted.wants(alloc, uri)? {
        those.push(alloc, *uri)?;
    }
    Ok(())
}
