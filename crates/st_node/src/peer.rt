ghost use Rattle.st_node.specs.Laws.{ExplainsAlike, ResolvesAlike, TellsChanges, IsolatesIdentifiers};
ghost use Rattle.st_node.specs.Peer.{node_peer, peer_laws};

use crate::node::Node;
use st_base::{Bytes, List, WantOfMemory, Work};
use st_batch::batch_laws;
use st_content::Content;
use st_exchange::Peer;
use st_hash::Hash;
use st_params::Schedule;
use std::alloc::Global;

/// It starts under version 1 of the limits at every height.
impl Peer for Node {
    ghost peer = { node_peer };

    fn start(alloc: Global) -> Result<Node, WantOfMemory> {
        Ok(Node::new(alloc, Schedule::new())?)
    }

    fn content(&self) -> &Content {
        self.observer.content()
    }

    fn wanted(&self, alloc: Global) -> Result<List<Hash>, WantOfMemory> {
        Ok(self.observer.wanted(alloc)?)
    }

    fn wants(&self, alloc: Global, uri: &Hash) -> Result<bool, WantOfMemory> {
        Ok(self.observer.wants(alloc, uri)?)
    }

    fn answer(
        self,
        alloc: Global,
        line: &[u8],
        work: &mut Work,
    ) -> Result<(Node, Bytes), WantOfMemory> {
        let (node, reply) = self.answer(alloc, line, work)?;
        Ok((node, reply))
    }

    fn keep(
        self,
        alloc: Global,
        bytes: Bytes,
        work: &mut Work,
    ) -> Result<(Node, Hash), WantOfMemory> {
        let Node { observer, queue } = self;
        let (observer, uri, _put) = observer.arrive(alloc, bytes, work)?;
        let node = Node { observer, queue };
        Ok((node, uri))
    }

    ghost laws = { peer_laws };
}

/// The answers about an identifier follow from its own operations: two machines with the same
/// operations of a suffix give the same reply to each line that resolves or explains an identifier
/// of it.
pub fn isolation_law()
    ensures { IsolatesIdentifiers }
{}

/// A reply has the form that `changing` recognizes if and only if its line changed the machine.
/// This holds for each machine with at most as many entries as a ledger may have, and with a queue
/// of operations accepted at the limits of some version. Each node is such a machine.
pub fn changes_law()
    ensures { TellsChanges }
{
    // A batch takes the first of such operations.
    batch_laws();
}

/// Two nodes with equal ledgers, and the same file or none for each URI, give equal replies to each
/// `resolve` and to each `explain`. Nothing promises that a file is ever received.
pub fn alike_law()
    ensures resolves { ResolvesAlike }
    ensures explains { ExplainsAlike }
{}
